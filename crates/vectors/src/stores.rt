// How many rounds of 48-byte views fit into stores of different sizes: so many promises are accepted.
use crate::tell;
use engine::{Fault, Keeper, Reason, Sha256, Word};
use samples::worked::{KEY, WORDS};

fn promise(keeper: &mut Keeper<'_>) -> Result<usize, Fault> {
    keeper.promise::<Word, Sha256>(
        &Sha256,
        &WORDS,
        &KEY,
        &[0; 124],
        &mut [0; 16],
        &mut [0; 16],
        &mut [0; 16],
        &mut [0; 110],
    )
}

// Whether a store of so many bytes takes just so many promises, numbered from 1, and refuses the next as full.
fn holds(rt: &HostRuntime, bytes: usize, rounds: usize) -> anyhow::Result<bool> {
    let mut store = vec![in rt.alloc(); 0u8; bytes]?;
    let mut keeper = Keeper::new(48, store.as_mut_slice());
    let numbered = (1..=rounds).all(|round| promise(&mut keeper) == Ok(round));
    Ok(numbered && promise(&mut keeper) == Err(Fault::at(Reason::KeeperFull, rounds)))
}

pub fn compare(rt: &HostRuntime) -> anyhow::Result<()> {
    for (bytes, rounds) in [
        (143, 0),
        (144, 1),
        (287, 1),
        (288, 2),
        (9_215, 63),
        (9_216, 64),
        (20_000, 64),
    ] {
        let same = holds(rt, bytes, rounds)?;
        tell(
            rt,
            format_args!("a store of {bytes} bytes holds {rounds} rounds"),
            same,
        )?;
    }
    Ok(())
}
