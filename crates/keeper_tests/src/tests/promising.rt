// Promises that are refused: with which fault, in which order, and that nothing changes.
use super::{Outcome, told};
use faults::Reason;
use keeper::Keeper;
use kinds::kind::ElementKind;
use kinds::residue::Residue;
use kinds::word::Word;
use plays::{Opening, Works, all};
use samples::worked::{
    FIVE, KEY, NO_RESIDUE, NUMBERS, ONE_MORE, OTHER_MARK, OWN_WIRE, RESIDUES, WORDS, tape,
};
use seals::Sealer;
use sha2_256::Sha256;
use std::process::Abort;
use std::test::Fail;
use toy_seals::{SHORT, Short};

// No row of it is a residue.
const UNLAWFUL: [u8; 124] = [0xff; 124];

// The view length that a keeper is made for, and the lengths of its store and of a promise's buffers.
#[derive(Clone, Copy)]
struct Sizes {
    view: usize,
    store: usize,
    works: [usize; 3],
    first: usize,
}

const RIGHT: Sizes = Sizes {
    view: 48,
    store: 144,
    works: [16; 3],
    first: 110,
};

const WRONG: Sizes = Sizes {
    view: 47,
    store: 100,
    works: [15; 3],
    first: 109,
};

// What a keeper of its own answers to a promise; a refusal leaves store, first message and rounds as they were, and the
// work slices are zero either way.
fn outcome<K: ElementKind, S: Sealer>(
    rt: &(impl Abort + AllocGlobal),
    sealer: &S,
    opening: Opening<'_>,
    sizes: Sizes,
) -> Result<Outcome, Fail> {
    let mut store = vec![in rt.alloc(); 5u8; sizes.store]?;
    let mut first = vec![in rt.alloc(); 6u8; sizes.first]?;
    let mut works = Works::new(rt.alloc(), sizes.works)?;
    let mut keeper = Keeper::new(sizes.view, store.as_mut_slice());
    let outcome = works.promise::<K, S>(&mut keeper, sealer, opening, first.as_mut_slice());
    if outcome.is_err() {
        assert_eq!(rt; keeper.drop_round(1), told(Reason::UnknownRound, 1));
        assert!(rt; all(store.as_slice(), 5));
        assert!(rt; all(first.as_slice(), 6));
    }
    assert!(rt; works.are_zero());
    Ok(outcome)
}

fn words(
    rt: &(impl Abort + AllocGlobal),
    lock: &[u8],
    key: &[u8],
    sizes: Sizes,
) -> Result<Outcome, Fail> {
    let tape = tape(rt.alloc(), [5; 3], &NUMBERS)?;
    let opening = Opening {
        lock,
        key,
        tape: tape.as_slice(),
    };
    outcome::<Word, Sha256>(rt, &Sha256, opening, sizes)
}

fn residues(
    rt: &(impl Abort + AllocGlobal),
    key: &[u8],
    tape: &[u8],
    sizes: Sizes,
) -> Result<Outcome, Fail> {
    let opening = Opening {
        lock: &RESIDUES,
        key,
        tape,
    };
    outcome::<Residue, Sha256>(rt, &Sha256, opening, sizes)
}

#[test]
fn locks_that_do_not_read(rt: HostRuntime) -> Result<(), Fail> {
    for (lock, fault) in [
        (&WORDS[..44], told(Reason::Truncated, 35)),
        (&OTHER_MARK, told(Reason::WrongMark, 15)),
        (&RESIDUES, told(Reason::OutsideLimits, 2)),
        (&OWN_WIRE, told(Reason::WireTooHigh, 21)),
        (&ONE_MORE, told(Reason::TrailingBytes, 45)),
    ] {
        assert!(rt; words(&rt, lock, &[], WRONG)? == fault);
    }
    let no_residue = Opening {
        lock: &NO_RESIDUE,
        key: &[],
        tape: &[],
    };
    assert!(rt;
        outcome::<Residue, Short>(&rt, &SHORT, no_residue, WRONG)?
            == told(Reason::UnlawfulConstant, 31)
    );
    Ok(())
}

#[test]
fn wrong_sizes(rt: HostRuntime) -> Result<(), Fail> {
    assert!(rt; words(&rt, &WORDS, &[0; 7], RIGHT)? == told(Reason::WrongSize, 1));
    assert!(rt; words(&rt, &WORDS, &[0; 9], RIGHT)? == told(Reason::WrongSize, 1));
    assert!(rt; residues(&rt, &KEY, &[0; 123], RIGHT)? == told(Reason::WrongSize, 2));
    assert!(rt; residues(&rt, &KEY, &[0; 125], RIGHT)? == told(Reason::WrongSize, 2));
    for (sizes, place) in [
        (
            Sizes {
                works: [15, 16, 16],
                ..RIGHT
            },
            3,
        ),
        (
            Sizes {
                works: [16, 15, 16],
                ..RIGHT
            },
            4,
        ),
        (
            Sizes {
                works: [16, 16, 15],
                ..RIGHT
            },
            5,
        ),
        (
            Sizes {
                first: 109,
                ..RIGHT
            },
            6,
        ),
        (
            Sizes {
                first: 111,
                ..RIGHT
            },
            6,
        ),
        (Sizes { view: 47, ..RIGHT }, 7),
        (
            Sizes {
                view: 49,
                store: 147,
                ..RIGHT
            },
            7,
        ),
    ] {
        assert!(rt; words(&rt, &WORDS, &KEY, sizes)? == told(Reason::WrongSize, place));
    }
    assert!(rt; words(&rt, &WORDS, &KEY, RIGHT)? == Ok(1));
    Ok(())
}

// Everything is wrong; then lock, key and tape get their sizes, and then the buffers, in turn.
#[test]
fn sizes_in_order(rt: HostRuntime) -> Result<(), Fail> {
    let five = Opening {
        lock: &FIVE,
        key: &[],
        tape: &[],
    };
    let long = outcome::<Word, Short>(&rt, &SHORT, five, WRONG)?;
    assert!(rt; long == told(Reason::WrongSize, 0));
    let key = &UNLAWFUL[..8];
    assert!(rt; residues(&rt, &[], &[], WRONG)? == told(Reason::WrongSize, 1));
    assert!(rt; residues(&rt, key, &[], WRONG)? == told(Reason::WrongSize, 2));
    let worked = Sizes {
        works: [16; 3],
        ..WRONG
    };
    let said = Sizes {
        first: 110,
        ..worked
    };
    for (sizes, fault) in [
        (WRONG, told(Reason::WrongSize, 3)),
        (
            Sizes {
                works: [16, 15, 15],
                ..WRONG
            },
            told(Reason::WrongSize, 4),
        ),
        (
            Sizes {
                works: [16, 16, 15],
                ..WRONG
            },
            told(Reason::WrongSize, 5),
        ),
        (worked, told(Reason::WrongSize, 6)),
        (said, told(Reason::WrongSize, 7)),
        (Sizes { view: 48, ..said }, told(Reason::KeeperFull, 0)),
    ] {
        assert!(rt; residues(&rt, key, &UNLAWFUL, sizes)? == fault);
    }
    Ok(())
}

// Key and tape are unlawful; then the first element of the key is mended, and so on.
#[test]
fn secrets_in_order(rt: HostRuntime) -> Result<(), Fail> {
    let good = tape(rt.alloc(), [0xff; 3], &NUMBERS)?;
    for (key, tape, outcome) in [
        (
            &UNLAWFUL[..8],
            UNLAWFUL.as_slice(),
            told(Reason::UnlawfulKey, 0),
        ),
        (
            b"\0\0\0\x03\x7f\xff\xff\xff",
            &UNLAWFUL,
            told(Reason::UnlawfulKey, 1),
        ),
        (
            b"\0\0\0\x03\0\0\0\x05",
            &UNLAWFUL,
            told(Reason::KeyDoesNotFit, 0),
        ),
        (&KEY, &UNLAWFUL, told(Reason::UnlawfulTape, 96)),
        (&KEY, good.as_slice(), Ok(1)),
    ] {
        assert!(rt; residues(&rt, key, tape, RIGHT)? == outcome);
    }
    Ok(())
}

// A key that is too short, a tape that is, and a key that does not fit.
#[test]
fn refusals(rt: HostRuntime) -> Result<(), Fail> {
    let tape = tape(rt.alloc(), [1, 2, 3], &NUMBERS)?;
    let right = Opening {
        lock: &WORDS,
        key: &KEY,
        tape: tape.as_slice(),
    };
    let sizes = Sizes {
        works: [16, 17, 18],
        ..RIGHT
    };
    for (opening, fault) in [
        (
            Opening {
                key: &[0; 7],
                ..right
            },
            told(Reason::WrongSize, 1),
        ),
        (
            Opening {
                tape: &[0; 123],
                ..right
            },
            told(Reason::WrongSize, 2),
        ),
        (
            Opening {
                key: &[0; 8],
                ..right
            },
            told(Reason::KeyDoesNotFit, 0),
        ),
    ] {
        assert!(rt; outcome::<Word, Sha256>(&rt, &Sha256, opening, sizes)? == fault);
    }
    Ok(())
}

// Each part of the tape: two shares of two branches, a mask of three.
#[test]
fn unlawful_tapes(rt: HostRuntime) -> Result<(), Fail> {
    for place in [96, 100, 104, 108, 112, 116, 120] {
        let mut tape = tape(rt.alloc(), [5; 3], &NUMBERS)?;
        if let Some(byte) = tape.get_mut(place) {
            *byte = 0x80;
        }
        let outcome = residues(&rt, &KEY, tape.as_slice(), RIGHT)?;
        assert!(rt; outcome == told(Reason::UnlawfulTape, place));
    }
    Ok(())
}

// Two words that must be 3 and 4: the first output that a key misses.
#[test]
fn missed_outputs(rt: HostRuntime) -> Result<(), Fail> {
    let tape = vec![in rt.alloc(); 5u8; 112]?;
    let sizes = Sizes {
        view: 40,
        first: 122,
        ..RIGHT
    };
    for (key, answer) in [
        (b"\0\0\0\x04\0\0\0\x03", told(Reason::KeyDoesNotFit, 0)),
        (b"\0\0\0\x03\0\0\0\x03", told(Reason::KeyDoesNotFit, 1)),
        (b"\0\0\0\x03\0\0\0\x04", Ok(1)),
    ] {
        let opening = Opening {
            lock: b"LK\x02\0\0\0\x02\0\0\0\0\0\0\0\x02OU\0\0\0\0\0\0\0\x03OU\0\0\0\x01\0\0\0\x04",
            key,
            tape: tape.as_slice(),
        };
        assert!(rt; outcome::<Word, Sha256>(&rt, &Sha256, opening, sizes)? == answer);
    }
    Ok(())
}
