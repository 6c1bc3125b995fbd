// Answers and drops: what they refuse, in which order, and what they leave.
use super::{one_more, promised, told};
use faults::{Branch, Reason};
use keeper::Keeper;
use plays::all;
use samples::messages::HONEST;
use samples::worked::{NUMBERS, tape};
use sha2_256::Sha256;
use std::process::Abort;
use std::test::Fail;

// An answer that is refused with this reason and place, and leaves its buffer as it was.
fn refused(
    rt: &(impl Abort + AllocGlobal),
    keeper: &mut Keeper<'_>,
    (round, pick, size): (usize, u8, usize),
    (reason, place): (Reason, usize),
) -> Result<(), Fail> {
    let mut answer = vec![in rt.alloc(); 4u8; size]?;
    let outcome = keeper.answer(round, pick, answer.as_mut_slice());
    assert_eq!(rt; outcome, told(reason, place));
    assert!(rt; all(answer.as_slice(), 4));
    Ok(())
}

// Round, record, pick and size are wrong; then each is mended in turn, until the answer is given.
#[test]
fn answers_refused(rt: HostRuntime) -> Result<(), Fail> {
    let mut store = vec![in rt.alloc(); 5u8; 300]?;
    let mut answer = vec![in rt.alloc(); 4u8; 99]?;
    let mut keeper = Keeper::new(48, store.as_mut_slice());
    refused(&rt, &mut keeper, (1, 0, 0), (Reason::UnknownRound, 1))?;
    assert_eq!(rt; one_more(&rt, &mut keeper)?, Ok(1));
    assert_eq!(rt; one_more(&rt, &mut keeper)?, Ok(2));
    assert_eq!(rt; keeper.drop_round(1), Ok(()));
    for (asked, fault) in [
        ((0, 0, 0), (Reason::UnknownRound, 0)),
        ((3, 0, 0), (Reason::UnknownRound, 3)),
        ((1, 0, 0), (Reason::SpentRound, 1)),
        ((2, 0, 0), (Reason::WrongPick, 0)),
        ((2, 4, 99), (Reason::WrongPick, 4)),
        ((2, 255, 0), (Reason::WrongPick, 255)),
        ((2, 3, 98), (Reason::WrongSize, 1)),
        ((2, 3, 100), (Reason::WrongSize, 1)),
    ] {
        refused(&rt, &mut keeper, asked, fault)?;
    }
    assert_eq!(rt; keeper.answer(2, 3, answer.as_mut_slice()), Ok(()));
    refused(&rt, &mut keeper, (2, 3, 99), (Reason::SpentRound, 2))
}

#[test]
fn drops_refused(rt: HostRuntime) -> Result<(), Fail> {
    let mut store = vec![in rt.alloc(); 5u8; 300]?;
    let mut answer = vec![in rt.alloc(); 4u8; 99]?;
    let mut keeper = Keeper::new(48, store.as_mut_slice());
    assert_eq!(rt; keeper.drop_round(1), told(Reason::UnknownRound, 1));
    assert_eq!(rt; one_more(&rt, &mut keeper)?, Ok(1));
    assert_eq!(rt; one_more(&rt, &mut keeper)?, Ok(2));
    assert_eq!(rt; keeper.drop_round(0), told(Reason::UnknownRound, 0));
    assert_eq!(rt; keeper.drop_round(3), told(Reason::UnknownRound, 3));
    assert_eq!(rt; keeper.drop_round(2), Ok(()));
    assert_eq!(rt; keeper.drop_round(2), told(Reason::SpentRound, 2));
    assert_eq!(rt; keeper.answer(1, 1, answer.as_mut_slice()), Ok(()));
    assert_eq!(rt; keeper.drop_round(1), told(Reason::SpentRound, 1));
    Ok(())
}

// Of two rounds and a byte, the first is zero, the second has the views of the worked example, and the byte is as it was.
fn second_left(
    rt: &(impl Abort + AllocGlobal),
    store: &[u8],
    blinds: [u8; 3],
    behind: u8,
) -> Result<(), Fail> {
    assert_eq!(rt; store.len(), 289);
    assert!(rt; all(&store[0..144], 0));
    let views = &store[144..288];
    let branches = [Branch::One, Branch::Two, Branch::Three];
    for ((view, branch), blind) in views.chunks_exact(48).zip(branches).zip(blinds) {
        assert_eq!(rt; view, HONEST.view(rt.alloc(), branch, blind)?.as_slice());
    }
    assert_eq!(rt; store[288], behind);
    Ok(())
}

// Promised twice, full, dropped, answered, and what each call refuses.
fn history(rt: &(impl Abort + AllocGlobal), keeper: &mut Keeper<'_>) -> Result<(), Fail> {
    let tape = tape(rt.alloc(), [1, 2, 3], &NUMBERS)?;
    assert_eq!(rt; keeper.drop_round(1), told(Reason::UnknownRound, 1));
    for outcome in [Ok(1), Ok(2), told(Reason::KeeperFull, 2)] {
        let promised = promised(rt, keeper, &Sha256, tape.as_slice(), &mut [6; 110])?;
        assert_eq!(rt; promised, outcome);
    }
    refused(rt, keeper, (3, 0, 99), (Reason::UnknownRound, 3))?;
    refused(rt, keeper, (1, 4, 99), (Reason::WrongPick, 4))?;
    refused(rt, keeper, (1, 1, 0), (Reason::WrongSize, 1))?;
    assert_eq!(rt; keeper.drop_round(1), Ok(()));
    refused(rt, keeper, (1, 1, 99), (Reason::SpentRound, 1))
}

#[test]
fn a_store_of_two_rounds(rt: HostRuntime) -> Result<(), Fail> {
    let mut store = [5; 289];
    {
        let mut keeper = Keeper::new(48, &mut store);
        history(&rt, &mut keeper)?;
    }
    second_left(&rt, &store, [1, 2, 3], 5)
}

// What two promises and one end of a round leave in a store of two rounds and one byte.
fn left(rt: &(impl Abort + AllocGlobal), store: &mut [u8], answered: bool) -> Result<(), Fail> {
    let mut answer = vec![in rt.alloc(); 4u8; 99]?;
    let mut keeper = Keeper::new(48, store);
    assert_eq!(rt; one_more(rt, &mut keeper)?, Ok(1));
    assert_eq!(rt; one_more(rt, &mut keeper)?, Ok(2));
    let ended = if answered {
        keeper.answer(1, 2, answer.as_mut_slice())
    } else {
        keeper.drop_round(1)
    };
    assert_eq!(rt; ended, Ok(()));
    Ok(())
}

// The ended round is zero, the other one and the byte behind them are as they were.
#[test]
fn stores_left(rt: HostRuntime) -> Result<(), Fail> {
    for answered in [false, true] {
        let mut store = [9; 289];
        left(&rt, &mut store, answered)?;
        second_left(&rt, &store, [5; 3], 9)?;
    }
    Ok(())
}
