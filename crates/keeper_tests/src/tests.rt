// What the tests share: promises of the worked lock over words.
use faults::{Fault, Reason};
use keeper::Keeper;
use kinds::word::Word;
use plays::{Opening, Works};
use samples::worked::{KEY, NUMBERS, WORDS, tape};
use seals::Sealer;
use sha2_256::Sha256;
use std::process::Abort;
use std::test::Fail;

mod answers;
mod examples;
mod promising;
mod stores;

type Outcome = Result<usize, Fault>;

fn told<T>(reason: Reason, place: usize) -> Result<T, Fault> {
    Err(Fault::at(reason, place))
}

// A promise; its work slices are zero afterwards.
fn promised<S: Sealer>(
    rt: &(impl Abort + AllocGlobal),
    keeper: &mut Keeper<'_>,
    sealer: &S,
    tape: &[u8],
    first: &mut [u8],
) -> Result<Outcome, Fail> {
    let opening = Opening {
        lock: &WORDS,
        key: &KEY,
        tape,
    };
    let mut works = Works::new(rt.alloc(), [16, 17, 18])?;
    let outcome = works.promise::<Word, S>(keeper, sealer, opening, first);
    assert!(rt; works.are_zero());
    Ok(outcome)
}

fn one_more(rt: &(impl Abort + AllocGlobal), keeper: &mut Keeper<'_>) -> Result<Outcome, Fail> {
    let tape = tape(rt.alloc(), [5; 3], &NUMBERS)?;
    promised(rt, keeper, &Sha256, tape.as_slice(), &mut [6; 110])
}
