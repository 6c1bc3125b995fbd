// The worked example to the byte.
use super::promised;
use faults::Branch;
use keeper::Keeper;
use kinds::word::Word;
use plays::Works;
use samples::messages::HONEST;
use samples::worked::{NUMBERS, WORDS, tape};
use seals::Sealer;
use sha2_256::Sha256;
use sha3::Sha3_256;
use std::process::Abort;
use std::test::Fail;
use toy_seals::{SHORT, WIDE};

// First message and answer are those made by hand, and the verifier accepts them.
fn worked<S: Sealer>(
    rt: &(impl Abort + AllocGlobal),
    sealer: &S,
    pick: Branch,
    length: usize,
) -> Result<(), Fail> {
    let mut store = vec![in rt.alloc(); 5u8; 288]?;
    let mut keeper = Keeper::new(48, store.as_mut_slice());
    let tape = tape(rt.alloc(), [1, 2, 3], &NUMBERS)?;
    let mut first = vec![in rt.alloc(); 6u8; length]?;
    let outcome = promised(
        rt,
        &mut keeper,
        sealer,
        tape.as_slice(),
        first.as_mut_slice(),
    )?;
    assert!(rt; outcome == Ok(1));
    let mut answer = vec![in rt.alloc(); 4u8; 99]?;
    let number = pick.number();
    assert!(rt; keeper.answer(1, number, answer.as_mut_slice()) == Ok(()));
    let (first, answer) = (first.as_slice(), answer.as_slice());
    assert!(rt; first == HONEST.first(rt.alloc(), sealer)?.as_slice());
    assert!(rt; answer == HONEST.answer(rt.alloc(), pick)?.as_slice());
    let mut works = Works::new(rt.alloc(), [16, 16, 0])?;
    assert!(rt; works.verify::<Word, S>(sealer, &WORDS, first, number, answer) == Ok(()));
    Ok(())
}

// Each pick, and seals of 1, 32 and 64 bytes.
#[test]
fn worked_to_the_byte(rt: HostRuntime) -> Result<(), Fail> {
    for pick in [Branch::One, Branch::Two, Branch::Three] {
        worked(&rt, &Sha256, pick, 110)?;
        worked(&rt, &Sha3_256, pick, 110)?;
        worked(&rt, &SHORT, pick, 17)?;
        worked(&rt, &WIDE, pick, 206)?;
    }
    Ok(())
}
