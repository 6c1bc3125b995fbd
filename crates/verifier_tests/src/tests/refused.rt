// What is refused before the messages are looked at, and in which order.
use super::{Given, told};
use faults::{Branch, Reason};
use kinds::residue::Residue;
use kinds::word::Word;
use samples::messages::HONEST;
use samples::worked::{FIVE, NO_RESIDUE, ONE_MORE, OTHER_MARK, OWN_WIRE, RESIDUES, WORDS};
use sha2_256::Sha256;
use std::test::Fail;
use toy_seals::{SHORT, WIDE};

#[test]
fn locks_that_do_not_read(rt: HostRuntime) -> Result<(), Fail> {
    let none = Given {
        lock: &NO_RESIDUE,
        first: b"none",
        pick: 1,
        answer: b"none",
    };
    for (lock, verdict) in [
        (&WORDS[..14], told(Reason::Truncated, 0)),
        (&WORDS[..44], told(Reason::Truncated, 35)),
        (&OTHER_MARK, told(Reason::WrongMark, 15)),
        (&RESIDUES, told(Reason::OutsideLimits, 2)),
        (&OWN_WIRE, told(Reason::WireTooHigh, 21)),
        (&ONE_MORE, told(Reason::TrailingBytes, 45)),
    ] {
        assert!(rt; Given { lock, ..none }.judged(&rt, &Sha256)? == verdict);
    }
    assert!(rt;
        none.judged_in::<Residue, Sha256>(&rt, &Sha256, [16, 16])?
            == told(Reason::UnlawfulConstant, 31)
    );
    Ok(())
}

// A lock that does not read, and buffers and picks that are refused before any message is looked at.
#[test]
fn refused_before_the_messages(rt: HostRuntime) -> Result<(), Fail> {
    let first = HONEST.first(rt.alloc(), &Sha256)?;
    let answer = HONEST.answer(rt.alloc(), Branch::One)?;
    let (fm, an) = (first.as_slice(), answer.as_slice());
    let right = Given {
        lock: &WORDS,
        first: fm,
        pick: 1,
        answer: an,
    };
    for (given, verdict) in [
        (
            Given {
                lock: &WORDS[..14],
                ..right
            },
            told(Reason::Truncated, 0),
        ),
        (
            Given {
                lock: &WORDS[..44],
                ..right
            },
            told(Reason::Truncated, 35),
        ),
        (
            Given {
                lock: &RESIDUES,
                ..right
            },
            told(Reason::OutsideLimits, 2),
        ),
        (Given { first: an, ..right }, told(Reason::WrongSize, 1)),
        (
            Given {
                answer: fm,
                ..right
            },
            told(Reason::WrongSize, 2),
        ),
        (Given { pick: 0, ..right }, told(Reason::WrongPick, 0)),
        (Given { pick: 4, ..right }, told(Reason::WrongPick, 4)),
    ] {
        assert!(rt; given.judged(&rt, &Sha256)? == verdict);
    }
    for (lengths, place) in [([15, 16], 3), ([16, 15], 4)] {
        let verdict = right.judged_in::<Word, Sha256>(&rt, &Sha256, lengths)?;
        assert!(rt; verdict == told(Reason::WrongSize, place));
    }
    Ok(())
}

// Every size is wrong, and the pick; then each is mended in turn, until the messages are looked at.
#[test]
fn sizes_and_the_pick(rt: HostRuntime) -> Result<(), Fail> {
    let first = HONEST.first(rt.alloc(), &Sha256)?;
    let answer = HONEST.answer(rt.alloc(), Branch::One)?;
    let (fm, an) = (first.as_slice(), answer.as_slice());
    let five = Given {
        lock: &FIVE,
        first: an,
        pick: 0,
        answer: fm,
    };
    assert!(rt; five.judged(&rt, &SHORT)? == told(Reason::WrongSize, 0));
    assert!(rt; five.judged(&rt, &WIDE)? == told(Reason::WrongSize, 1));
    for (first, pick, answer, lengths, verdict) in [
        (an, 0, fm, [15, 15], told(Reason::WrongSize, 1)),
        (fm, 0, fm, [15, 15], told(Reason::WrongSize, 2)),
        (fm, 0, an, [15, 15], told(Reason::WrongSize, 3)),
        (fm, 0, an, [16, 15], told(Reason::WrongSize, 4)),
        (fm, 0, an, [16, 16], told(Reason::WrongPick, 0)),
        (fm, 4, an, [16, 16], told(Reason::WrongPick, 4)),
        (fm, 2, an, [16, 16], told(Reason::MalformedAnswer, 2)),
        (fm, 1, an, [16, 16], Ok(())),
    ] {
        let given = Given {
            lock: &WORDS,
            first,
            pick,
            answer,
        };
        assert!(rt; given.judged_in::<Word, Sha256>(&rt, &Sha256, lengths)? == verdict);
    }
    Ok(())
}
