// Messages of which some bytes are not as they were sent.
use super::{Given, Verdict, told, told_in};
use faults::{Branch, Reason};
use kinds::residue::Residue;
use samples::messages::{HONEST, turn};
use samples::worked::{RESIDUES, WORDS};
use seals::Sealer;
use sha2_256::Sha256;
use sha3::Sha3_256;
use std::process::Abort;
use std::test::Fail;
use toy_seals::SHORT;

// One byte of a message is turned: of the first one, or of the answer.
#[derive(Clone, Copy)]
enum Damage {
    First(usize),
    Answer(usize),
}

impl Damage {
    // The verdict on a round at a pick.
    fn judged<S: Sealer>(
        self,
        rt: &(impl Abort + AllocGlobal),
        sealer: &S,
        pick: Branch,
    ) -> Result<Verdict, Fail> {
        let mut first = HONEST.first(rt.alloc(), sealer)?;
        let mut answer = HONEST.answer(rt.alloc(), pick)?;
        match self {
            Damage::First(offset) => turn(&mut first, offset),
            Damage::Answer(offset) => turn(&mut answer, offset),
        }
        let given = Given {
            lock: &WORDS,
            first: first.as_slice(),
            pick: pick.number(),
            answer: answer.as_slice(),
        };
        given.judged(rt, sealer)
    }
}

// Each part of the first message: mark, three output shares, three seals. No pick looks at the third of them.
#[test]
fn a_damaged_first_message(rt: HostRuntime) -> Result<(), Fail> {
    for (pick, offset, verdict) in [
        (Branch::One, 0, told(Reason::MalformedFirstMessage, 0)),
        (Branch::One, 1, told(Reason::MalformedFirstMessage, 0)),
        (Branch::One, 2, told(Reason::MissedTarget, 0)),
        (Branch::One, 9, told(Reason::MissedTarget, 0)),
        (Branch::One, 13, told(Reason::MissedTarget, 0)),
        (Branch::One, 14, told_in(Branch::One, Reason::WrongSeal, 0)),
        (Branch::One, 77, told_in(Branch::Two, Reason::WrongSeal, 0)),
        (Branch::One, 78, Ok(())),
        (Branch::Two, 45, Ok(())),
        (Branch::Two, 46, told_in(Branch::Two, Reason::WrongSeal, 0)),
        (
            Branch::Two,
            109,
            told_in(Branch::Three, Reason::WrongSeal, 0),
        ),
        (
            Branch::Three,
            14,
            told_in(Branch::One, Reason::WrongSeal, 0),
        ),
        (Branch::Three, 46, Ok(())),
        (
            Branch::Three,
            78,
            told_in(Branch::Three, Reason::WrongSeal, 0),
        ),
    ] {
        assert!(rt; Damage::First(offset).judged(&rt, &Sha256, pick)? == verdict);
    }
    Ok(())
}

// Each part of the answer: mark, pick, then blind, shares, mask and product of both views.
#[test]
fn a_damaged_answer(rt: HostRuntime) -> Result<(), Fail> {
    let picked = told_in(Branch::One, Reason::WrongSeal, 0);
    let following = told_in(Branch::Two, Reason::WrongSeal, 0);
    for (offset, verdict) in [
        (0, told(Reason::MalformedAnswer, 0)),
        (1, told(Reason::MalformedAnswer, 0)),
        (2, told(Reason::MalformedAnswer, 2)),
        (3, picked),
        (34, picked),
        (35, picked),
        (42, picked),
        (43, picked),
        (46, picked),
        (47, picked),
        (50, picked),
        (51, following),
        (82, following),
        (83, following),
        (90, following),
        (91, following),
        (94, following),
        (95, following),
        (98, following),
    ] {
        assert!(rt; Damage::Answer(offset).judged(&rt, &Sha3_256, Branch::One)? == verdict);
    }
    Ok(())
}

// Under seals of the last byte alone the runs tell the damage: no run reads a blind, and a product is told first where it is an output share.
#[test]
fn damage_behind_the_seals(rt: HostRuntime) -> Result<(), Fail> {
    let product = told_in(Branch::One, Reason::WrongProduct, 2);
    for (offset, verdict) in [
        (3, Ok(())),
        (34, Ok(())),
        (35, product),
        (39, product),
        (43, product),
        (47, told_in(Branch::One, Reason::WrongOutputShare, 0)),
        (50, told_in(Branch::One, Reason::WrongSeal, 0)),
        (82, Ok(())),
        (83, product),
        (91, product),
        (95, told_in(Branch::Two, Reason::WrongOutputShare, 0)),
        (98, told_in(Branch::Two, Reason::WrongSeal, 0)),
    ] {
        assert!(rt; Damage::Answer(offset).judged(&rt, &SHORT, Branch::One)? == verdict);
    }
    Ok(())
}

// All bits set in the four bytes from `at` on.
fn unlawful_at(bytes: &mut [u8], at: Option<usize>) {
    if let Some(at) = at {
        for byte in bytes.iter_mut().skip(at).take(4) {
            *byte = 255;
        }
    }
}

// Elements that are no residues are told by their offsets, before anything is compared.
#[test]
fn unlawful_elements(rt: HostRuntime) -> Result<(), Fail> {
    for (in_first, in_answer, verdict) in [
        (Some(2), Some(35), told(Reason::MalformedFirstMessage, 2)),
        (Some(6), None, told(Reason::MalformedFirstMessage, 6)),
        (Some(10), None, told(Reason::MalformedFirstMessage, 10)),
        (None, Some(35), told(Reason::MalformedAnswer, 35)),
        (None, Some(39), told(Reason::MalformedAnswer, 39)),
        (None, Some(43), told(Reason::MalformedAnswer, 43)),
        (None, Some(47), told(Reason::MalformedAnswer, 47)),
        (None, Some(83), told(Reason::MalformedAnswer, 83)),
        (None, Some(95), told(Reason::MalformedAnswer, 95)),
        (None, None, told(Reason::MissedTarget, 0)),
    ] {
        let mut first = [0; 110];
        let mut answer = [0; 99];
        first[..2].copy_from_slice(b"FM");
        answer[..3].copy_from_slice(b"AN\x02");
        unlawful_at(&mut first, in_first);
        unlawful_at(&mut answer, in_answer);
        let given = Given {
            lock: &RESIDUES,
            first: &first,
            pick: 2,
            answer: &answer,
        };
        assert!(rt; given.judged_in::<Residue, Sha256>(&rt, &Sha256, [16, 16])? == verdict);
    }
    Ok(())
}
