// Reads a lock from standard input and prints what it is, or why it is refused.
#![tactic(auto)]

use report::report;
use std::io::Read;

// So much of the input is looked at.
const MOST_BYTES: u64 = 65_536;

fn main(rt: HostRuntime) -> anyhow::Result<()> {
    let mut bytes = Vec::new(rt.alloc());
    rt.stdin().take(MOST_BYTES).read_to_end(&mut bytes)?;
    let text = report(rt.alloc(), bytes.as_slice())?;
    print!(rt; "{text}")?;
    Ok(())
}
