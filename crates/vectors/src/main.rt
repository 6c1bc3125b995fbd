// Compares published digests, the longest view and the sizes of stores with what the engine gives, and prints each comparison.
#![tactic(auto)]

mod hashes;
mod limits;
mod stores;

use std::fmt;

// Prints what was compared, and a mismatch as such.
pub(crate) fn tell<D: fmt::Display + Drop>(
    rt: &HostRuntime,
    what: D,
    same: bool,
) -> anyhow::Result<()> {
    let verdict = if same { "as it should be" } else { "MISMATCH" };
    println!(rt; "{what}: {verdict}")?;
    Ok(())
}

fn compare(rt: &HostRuntime) -> anyhow::Result<()> {
    hashes::compare(rt)?;
    limits::compare(rt)?;
    stores::compare(rt)
}

fn main(rt: HostRuntime) -> anyhow::Result<()> {
    compare(&rt)
}
