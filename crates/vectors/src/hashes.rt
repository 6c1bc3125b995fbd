// Both sealers on published messages, at the edges of their blocks, and on the longest message.
use crate::tell;
use engine::{Sha3_256, Sha256};
use samples::digests::{PATTERN, PUBLISHED, pattern, sealed};

fn compare_both(
    rt: &HostRuntime,
    message: &[u8],
    sha2: &[u8; 64],
    sha3: &[u8; 64],
) -> anyhow::Result<()> {
    let length = message.len();
    let same = sealed(&Sha256, message) == Ok(*sha2);
    tell(rt, format_args!("SHA-256 of {length} bytes"), same)?;
    let same = sealed(&Sha3_256, message) == Ok(*sha3);
    tell(rt, format_args!("SHA3-256 of {length} bytes"), same)
}

pub fn compare(rt: &HostRuntime) -> anyhow::Result<()> {
    for (message, sha2, sha3) in PUBLISHED {
        compare_both(rt, message, sha2, sha3)?;
    }
    for (n, sha2, sha3) in PATTERN {
        compare_both(rt, pattern(rt.alloc(), n)?.as_slice(), sha2, sha3)?;
    }
    Ok(())
}
