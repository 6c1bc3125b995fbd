// Promises: what they write, and what they refuse.
use faults::{Branch, Fault, Reason};
use keeper::Keeper;
use kinds::residue::Residue;
use kinds::word::Word;
use plays::{Opening, Works};
use samples::messages::{HONEST, joined};
use samples::worked::{KEY, NUMBERS, RESIDUES, WORDS, tape};
use sha2_256::Sha256;
use std::test::Fail;

// The worked example to the byte: products 333, -75, -246 and output shares 338, -75, -246.
#[test]
fn views_and_shares(rt: HostRuntime) -> Result<(), Fail> {
    let tape = tape(rt.alloc(), [5; 3], &NUMBERS)?;
    let opening = Opening {
        lock: &WORDS,
        key: &KEY,
        tape: tape.as_slice(),
    };
    let mut works = Works::new(rt.alloc(), [16; 3])?;
    let mut store = [0u8; 144];
    let mut first = [0u8; 110];
    {
        let mut keeper = Keeper::new(48, &mut store);
        let outcome = works.promise::<Word, Sha256>(&mut keeper, &Sha256, opening, &mut first);
        assert_eq!(rt; outcome, Ok(1));
    }
    let branches = [Branch::One, Branch::Two, Branch::Three];
    for (view, branch) in store.chunks_exact(48).zip(branches) {
        assert_eq!(rt; view, HONEST.view(rt.alloc(), branch, 5)?.as_slice());
    }
    let shares = [338, 4_294_967_221, 4_294_967_050];
    assert_eq!(rt;
        &first[0..14],
        joined(rt.alloc(), b"FM", &shares)?.as_slice()
    );
    Ok(())
}

#[test]
fn promises_refused(rt: HostRuntime) -> Result<(), Fail> {
    let tape = tape(rt.alloc(), [5; 3], &NUMBERS)?;
    let right = Opening {
        lock: &WORDS,
        key: &KEY,
        tape: tape.as_slice(),
    };
    let mut works = Works::new(rt.alloc(), [16; 3])?;
    let mut store = [0u8; 144];
    let mut keeper = Keeper::new(48, &mut store);
    for (key, tape, size, outcome) in [
        (
            &KEY[0..7],
            right.tape,
            110,
            Err(Fault::at(Reason::WrongSize, 1)),
        ),
        (&KEY, &[0; 123], 110, Err(Fault::at(Reason::WrongSize, 2))),
        (&KEY, right.tape, 111, Err(Fault::at(Reason::WrongSize, 6))),
        (
            b"\0\0\0\x03\0\0\0\x05",
            right.tape,
            110,
            Err(Fault::at(Reason::KeyDoesNotFit, 0)),
        ),
        (b"\0\0\0\x01\0\0\0\x0c", right.tape, 110, Ok(1)),
    ] {
        let mut first = vec![in rt.alloc(); 0u8; size]?;
        let opening = Opening { key, tape, ..right };
        let first = first.as_mut_slice();
        assert_eq!(rt;
            works.promise::<Word, Sha256>(&mut keeper, &Sha256, opening, first),
            outcome
        );
    }
    let mut first = [0u8; 110];
    let mut other = [0u8; 1000];
    let mut keeper = Keeper::new(49, &mut other);
    assert_eq!(rt;
        works.promise::<Word, Sha256>(&mut keeper, &Sha256, right, &mut first),
        Err(Fault::at(Reason::WrongSize, 7))
    );
    Ok(())
}

#[test]
fn unlawful_elements(rt: HostRuntime) -> Result<(), Fail> {
    let mut unlawful = tape(rt.alloc(), [5; 3], &NUMBERS)?;
    unlawful.truncate(120);
    unlawful.extend_from_slice(&[0xff; 4])?;
    let lawful = tape(rt.alloc(), [5; 3], &NUMBERS)?;
    let mut works = Works::new(rt.alloc(), [16; 3])?;
    let mut store = [0u8; 144];
    let mut first = [0u8; 110];
    let mut keeper = Keeper::new(48, &mut store);
    for (key, tape, fault) in [
        (
            b"\0\0\0\x03\x7f\xff\xff\xff",
            lawful.as_slice(),
            Fault::at(Reason::UnlawfulKey, 1),
        ),
        (
            &KEY,
            unlawful.as_slice(),
            Fault::at(Reason::UnlawfulTape, 120),
        ),
    ] {
        let opening = Opening {
            lock: &RESIDUES,
            key,
            tape,
        };
        let outcome = works.promise::<Residue, Sha256>(&mut keeper, &Sha256, opening, &mut first);
        assert_eq!(rt; outcome, Err(fault));
    }
    assert_eq!(rt; first, [0u8; 110]);
    assert!(rt; works.are_zero());
    Ok(())
}
