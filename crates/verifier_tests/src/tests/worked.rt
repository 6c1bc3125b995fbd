// Rounds of the worked lock, honest and forged.
use super::{told, told_in, verdicts};
use faults::{Branch, Reason};
use samples::messages::{FORGED, HONEST, SHIFTED};
use samples::worked::{OTHER_TARGET, WORDS};
use sha2_256::Sha256;
use sha3::Sha3_256;
use std::test::Fail;
use toy_seals::{SHORT, WIDE};

// With seals of 1, 32 and 64 bytes.
#[test]
fn the_worked_example(rt: HostRuntime) -> Result<(), Fail> {
    verdicts(&rt, &Sha256, &WORDS, HONEST, [Ok(()); 3])?;
    verdicts(&rt, &Sha3_256, &WORDS, HONEST, [Ok(()); 3])?;
    verdicts(&rt, &SHORT, &WORDS, HONEST, [Ok(()); 3])?;
    verdicts(&rt, &WIDE, &WORDS, HONEST, [Ok(()); 3])
}

// The forged product is told where its branch is the picked one, and nowhere else.
#[test]
fn a_forged_product(rt: HostRuntime) -> Result<(), Fail> {
    let [one, two, three] = FORGED;
    let wrong = told_in(Branch::One, Reason::WrongProduct, 2);
    verdicts(&rt, &Sha256, &OTHER_TARGET, one, [wrong, Ok(()), Ok(())])?;
    verdicts(&rt, &Sha3_256, &OTHER_TARGET, one, [wrong, Ok(()), Ok(())])?;
    let wrong = told_in(Branch::Two, Reason::WrongProduct, 2);
    verdicts(&rt, &Sha256, &OTHER_TARGET, two, [Ok(()), wrong, Ok(())])?;
    let wrong = told_in(Branch::Three, Reason::WrongProduct, 2);
    verdicts(&rt, &Sha256, &OTHER_TARGET, three, [Ok(()), Ok(()), wrong])
}

#[test]
fn output_shares(rt: HostRuntime) -> Result<(), Fail> {
    let one = told_in(Branch::One, Reason::WrongOutputShare, 0);
    let two = told_in(Branch::Two, Reason::WrongOutputShare, 0);
    verdicts(&rt, &Sha256, &WORDS, SHIFTED, [one, two, one])
}

#[test]
fn a_missed_target(rt: HostRuntime) -> Result<(), Fail> {
    let missed = told(Reason::MissedTarget, 0);
    verdicts(&rt, &Sha256, &OTHER_TARGET, HONEST, [missed; 3])
}
