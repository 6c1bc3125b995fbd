// Several rounds of the word lock on one keeper.
use faults::{Fault, Reason};
use keeper::Keeper;
use kinds::word::Word;
use plays::{Opening, Works};
use samples::worked::{KEY, NUMBERS, WORDS, tape};
use sha2_256::Sha256;
use std::process::Abort;
use std::test::Fail;

// A promise with blinds of its own; it must get this number. The first message comes back.
fn promised(
    rt: &(impl Abort + AllocGlobal),
    keeper: &mut Keeper<'_>,
    blinds: u8,
    number: usize,
) -> Result<Vec<u8>, Fail> {
    let tape = tape(rt.alloc(), [blinds; 3], &NUMBERS)?;
    let opening = Opening {
        lock: &WORDS,
        key: &KEY,
        tape: tape.as_slice(),
    };
    let mut works = Works::new(rt.alloc(), [16; 3])?;
    let mut first = vec![in rt.alloc(); 0u8; 110]?;
    let outcome = works.promise::<Word, Sha256>(keeper, &Sha256, opening, first.as_mut_slice());
    assert_eq!(rt; outcome, Ok(number));
    Ok(first)
}

// A round answered at a pick, and accepted.
fn accepted(
    rt: &(impl Abort + AllocGlobal),
    keeper: &mut Keeper<'_>,
    round: usize,
    pick: u8,
    first: &[u8],
) -> Result<(), Fail> {
    let mut answer = vec![in rt.alloc(); 0u8; 99]?;
    let mut works = Works::new(rt.alloc(), [16; 3])?;
    assert_eq!(rt; keeper.answer(round, pick, answer.as_mut_slice()), Ok(()));
    let verdict = works.verify::<Word, Sha256>(&Sha256, &WORDS, first, pick, answer.as_slice());
    assert_eq!(rt; verdict, Ok(()));
    Ok(())
}

// No round is answered twice.
fn spent(
    rt: &(impl Abort + AllocGlobal),
    keeper: &mut Keeper<'_>,
    round: usize,
    pick: u8,
) -> Result<(), Fail> {
    let mut answer = vec![in rt.alloc(); 0u8; 99]?;
    assert_eq!(rt;
        keeper.answer(round, pick, answer.as_mut_slice()),
        Err(Fault::at(Reason::SpentRound, round))
    );
    Ok(())
}

fn opened(
    rt: &(impl Abort + AllocGlobal),
    keeper: &mut Keeper<'_>,
    round: usize,
    pick: u8,
    first: &[u8],
) -> Result<(), Fail> {
    accepted(rt, keeper, round, pick, first)?;
    spent(rt, keeper, round, pick)
}

// Three rounds: one dropped, two answered at other picks; nothing twice.
#[test]
fn a_history(rt: HostRuntime) -> Result<(), Fail> {
    let mut store = vec![in rt.alloc(); 3u8; 440]?;
    let mut keeper = Keeper::new(48, store.as_mut_slice());
    let one = promised(&rt, &mut keeper, 5, 1)?;
    let _ = promised(&rt, &mut keeper, 5, 2)?;
    let three = promised(&rt, &mut keeper, 5, 3)?;
    assert_eq!(rt; keeper.drop_round(2), Ok(()));
    accepted(&rt, &mut keeper, 3, 2, three.as_slice())?;
    accepted(&rt, &mut keeper, 1, 3, one.as_slice())?;
    spent(&rt, &mut keeper, 3, 2)
}

// Seven rounds, promised, answered and dropped in mixed order.
#[test]
fn a_mixed_history(rt: HostRuntime) -> Result<(), Fail> {
    let mut store = vec![in rt.alloc(); 3u8; 1010]?;
    let mut keeper = Keeper::new(48, store.as_mut_slice());
    let one = promised(&rt, &mut keeper, 11, 1)?;
    let two = promised(&rt, &mut keeper, 22, 2)?;
    opened(&rt, &mut keeper, 2, 3, two.as_slice())?;
    let _ = promised(&rt, &mut keeper, 33, 3)?;
    let four = promised(&rt, &mut keeper, 44, 4)?;
    assert_eq!(rt; keeper.drop_round(3), Ok(()));
    opened(&rt, &mut keeper, 1, 1, one.as_slice())?;
    let five = promised(&rt, &mut keeper, 55, 5)?;
    opened(&rt, &mut keeper, 5, 2, five.as_slice())?;
    let six = promised(&rt, &mut keeper, 66, 6)?;
    let seven = promised(&rt, &mut keeper, 77, 7)?;
    opened(&rt, &mut keeper, 7, 1, seven.as_slice())?;
    assert_eq!(rt; keeper.drop_round(5), Err(Fault::at(Reason::SpentRound, 5)));
    opened(&rt, &mut keeper, 4, 3, four.as_slice())?;
    opened(&rt, &mut keeper, 6, 2, six.as_slice())?;
    assert_eq!(rt;
        keeper.drop_round(8),
        Err(Fault::at(Reason::UnknownRound, 8))
    );
    assert!(rt; plays::all(&store.as_slice()[0..1008], 0));
    Ok(())
}

#[test]
fn rounds_refused(rt: HostRuntime) -> Result<(), Fail> {
    let mut store = vec![in rt.alloc(); 3u8; 144]?;
    let mut answer = vec![in rt.alloc(); 0u8; 98]?;
    let answer = answer.as_mut_slice();
    let mut keeper = Keeper::new(48, store.as_mut_slice());
    let refused = |reason, place| Err(Fault::at(reason, place));
    assert_eq!(rt;
        keeper.answer(1, 9, answer),
        refused(Reason::UnknownRound, 1)
    );
    let _ = promised(&rt, &mut keeper, 5, 1)?;
    assert_eq!(rt; keeper.drop_round(0), refused(Reason::UnknownRound, 0));
    assert_eq!(rt; keeper.answer(1, 4, answer), refused(Reason::WrongPick, 4));
    assert_eq!(rt; keeper.answer(1, 3, answer), refused(Reason::WrongSize, 1));
    assert_eq!(rt; keeper.drop_round(1), Ok(()));
    assert_eq!(rt; keeper.answer(1, 3, answer), refused(Reason::SpentRound, 1));
    assert_eq!(rt; keeper.drop_round(1), refused(Reason::SpentRound, 1));
    Ok(())
}
