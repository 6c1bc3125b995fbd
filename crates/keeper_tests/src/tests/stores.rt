// How many rounds a store holds.
use super::{Outcome, one_more, told};
use faults::Reason;
use keeper::Keeper;
use kinds::bit::Bit;
use plays::{Opening, Works};
use samples::built::squares;
use sha2_256::Sha256;
use std::process::Abort;
use std::test::Fail;

// What the promise behind 64 others answers.
fn behind_all(rt: &(impl Abort + AllocGlobal), keeper: &mut Keeper<'_>) -> Result<Outcome, Fail> {
    for _ in 0..64 {
        let _ = one_more(rt, keeper)?;
    }
    one_more(rt, keeper)
}

// The same over a store of so many bytes.
fn rounds(
    rt: &(impl Abort + AllocGlobal),
    view_length: usize,
    size: usize,
) -> Result<Outcome, Fail> {
    let mut store = vec![in rt.alloc(); 0u8; size]?;
    let mut keeper = Keeper::new(view_length, store.as_mut_slice());
    behind_all(rt, &mut keeper)
}

#[test]
fn rounds_by_store_size(rt: HostRuntime) -> Result<(), Fail> {
    for (size, most) in [
        (0, 0),
        (143, 0),
        (144, 1),
        (287, 1),
        (9215, 63),
        (9216, 64),
        (9360, 64),
        (9400, 64),
        (20_000, 64),
    ] {
        assert!(rt; rounds(&rt, 48, size)? == told(Reason::KeeperFull, most));
    }
    Ok(())
}

// The views of the worked lock have 48 bytes.
#[test]
fn view_lengths(rt: HostRuntime) -> Result<(), Fail> {
    for view_length in [32, 33, 65_535, 65_536] {
        assert!(rt; rounds(&rt, view_length, 200)? == told(Reason::WrongSize, 7));
    }
    Ok(())
}

// A promise of a lock with one input and so many products, all bits, with a view of as many bytes as a keeper is made for.
fn bits(
    rt: &(impl Abort + AllocGlobal),
    products: u32,
    view_length: usize,
    size: usize,
) -> Result<Outcome, Fail> {
    let count = products as usize;
    let lock = squares(rt.alloc(), products, 1)?;
    let tape = vec![in rt.alloc(); 1u8; 98 + 3 * count]?;
    let opening = Opening {
        lock: lock.as_slice(),
        key: &[1],
        tape: tape.as_slice(),
    };
    let mut works = Works::new(rt.alloc(), [1 + count; 3])?;
    let mut store = vec![in rt.alloc(); 0u8; size]?;
    let mut keeper = Keeper::new(view_length, store.as_mut_slice());
    Ok(works.promise::<Bit, Sha256>(&mut keeper, &Sha256, opening, &mut [6; 101]))
}

// The shortest and the longest view that a lock has; no lock has a view of 32 or 65,536 bytes.
#[test]
fn rounds_by_view_length(rt: HostRuntime) -> Result<(), Fail> {
    for (products, view_length, size, outcome) in [
        (0, 32, 200, told(Reason::WrongSize, 7)),
        (0, 33, 98, told(Reason::KeeperFull, 0)),
        (0, 33, 99, Ok(1)),
        (0, 34, 200, told(Reason::WrongSize, 7)),
        (32_751, 65_534, 400_000, told(Reason::WrongSize, 7)),
        (32_751, 65_535, 196_604, told(Reason::KeeperFull, 0)),
        (32_751, 65_535, 196_605, Ok(1)),
        (32_751, 65_536, 400_000, told(Reason::WrongSize, 7)),
    ] {
        assert!(rt; bits(&rt, products, view_length, size)? == outcome);
    }
    Ok(())
}
