// The sealers on published messages, at the edges of blocks, and at their refusals.
#![tactic(auto)]

#[cfg(test)]
mod tests {
    use faults::{Fault, Reason};
    use samples::digests::{PATTERN, PUBLISHED, pattern, sealed};
    use seals::Sealer;
    use sha2_256::Sha256;
    use sha3::Sha3_256;
    use std::process::Abort;
    use std::test::Fail;

    #[test]
    fn published(rt: HostRuntime) -> Result<(), Fail> {
        for (message, sha2, sha3) in PUBLISHED {
            assert!(rt; sealed(&Sha256, message)? == *sha2);
            assert!(rt; sealed(&Sha3_256, message)? == *sha3);
        }
        Ok(())
    }

    #[test]
    fn block_edges(rt: HostRuntime) -> Result<(), Fail> {
        for (n, sha2, sha3) in PATTERN {
            let bytes = pattern(rt.alloc(), n)?;
            assert!(rt; sealed(&Sha256, bytes.as_slice())? == *sha2);
            assert!(rt; sealed(&Sha3_256, bytes.as_slice())? == *sha3);
        }
        Ok(())
    }

    // A message too long is told before a buffer of another length, and the buffer stays.
    fn refuses<S: Sealer>(rt: &impl Abort, sealer: &S, long: &[u8]) {
        let mut out = [7; 33];
        assert!(rt; long.len() == 65_536);
        assert!(rt; sealer.seal(long, &mut out[0..32]) == Err(Fault::at(Reason::WrongSize, 0)));
        assert!(rt; sealer.seal(long, &mut out) == Err(Fault::at(Reason::WrongSize, 0)));
        assert!(rt; sealer.seal(b"abc", &mut out) == Err(Fault::at(Reason::WrongSize, 1)));
        assert!(rt; sealer.seal(b"abc", &mut out[0..31]) == Err(Fault::at(Reason::WrongSize, 1)));
        assert!(rt; out == [7; 33]);
        assert!(rt; sealer.seal(&long[0..65_535], &mut out[0..32]) == Ok(()));
        assert!(rt; out[32] == 7);
    }

    #[test]
    fn refusals(rt: HostRuntime) -> Result<(), Fail> {
        let long = pattern(rt.alloc(), 65_536)?;
        refuses(&rt, &Sha256, long.as_slice());
        refuses(&rt, &Sha3_256, long.as_slice());
        Ok(())
    }
}
