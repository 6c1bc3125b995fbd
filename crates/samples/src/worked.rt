// Locks of a few records, their keys and their tapes.
ghost use Rattle.std.specs.Prelude.{◌≡◌, ◌+◌, IfOk, length, vec_len};

use std::alloc::{AllocError, Global};

// Two inputs; wire 2 is their product, wire 3 adds 5 and must be 17.
pub const WORDS: [u8; 45] =
    *b"LK\x02\0\0\0\x02\0\0\0\x02\0\0\0\x01MU\0\0\0\0\0\0\0\x01AC\0\0\0\x02\0\0\0\x05OU\0\0\0\x03\0\0\0\x11";

// The same over residues.
pub const RESIDUES: [u8; 45] =
    *b"LK\x03\0\0\0\x02\0\0\0\x02\0\0\0\x01MU\0\0\0\0\0\0\0\x01AC\0\0\0\x02\0\0\0\x05OU\0\0\0\x03\0\0\0\x11";

// Two bits whose product must be 1.
pub const BITS: [u8; 32] =
    *b"LK\x01\0\0\0\x02\0\0\0\x01\0\0\0\x01MU\0\0\0\0\0\0\0\x01OU\0\0\0\x02\x01";

// The words with the target 18, which the key below does not reach.
pub const OTHER_TARGET: [u8; 45] =
    *b"LK\x02\0\0\0\x02\0\0\0\x02\0\0\0\x01MU\0\0\0\0\0\0\0\x01AC\0\0\0\x02\0\0\0\x05OU\0\0\0\x03\0\0\0\x12";

// Locks over words that are refused: for a mark, for a wire, for a byte behind the last record.
pub const OTHER_MARK: [u8; 45] =
    *b"LK\x02\0\0\0\x02\0\0\0\x02\0\0\0\x01MX\0\0\0\0\0\0\0\x01AC\0\0\0\x02\0\0\0\x05OU\0\0\0\x03\0\0\0\x11";

pub const OWN_WIRE: [u8; 45] =
    *b"LK\x02\0\0\0\x02\0\0\0\x02\0\0\0\x01MU\0\0\0\0\0\0\0\x02AC\0\0\0\x02\0\0\0\x05OU\0\0\0\x03\0\0\0\x11";

pub const ONE_MORE: [u8; 46] =
    *b"LK\x02\0\0\0\x02\0\0\0\x02\0\0\0\x01MU\0\0\0\0\0\0\0\x01AC\0\0\0\x02\0\0\0\x05OU\0\0\0\x03\0\0\0\x11\0";

// One over residues, whose constant is none.
pub const NO_RESIDUE: [u8; 45] =
    *b"LK\x03\0\0\0\x02\0\0\0\x02\0\0\0\x01MU\0\0\0\0\0\0\0\x01AC\0\0\0\x02\x7f\xff\xff\xffOU\0\0\0\x03\0\0\0\x11";

// Five words, of which the first must be 1: its view is longer than the worked lock's, 52 bytes.
pub const FIVE: [u8; 25] = *b"LK\x02\0\0\0\x05\0\0\0\0\0\0\0\x01OU\0\0\0\0\0\0\0\x01";

// The key of the locks over words and residues: 3 and 4.
pub const KEY: [u8; 8] = *b"\0\0\0\x03\0\0\0\x04";

// What a tape for them has behind the blinds: shares (10, 20) and (1, 2), masks 100, 7, 50.
pub const NUMBERS: [u8; 28] =
    *b"\0\0\0\x0a\0\0\0\x14\0\0\0\x01\0\0\0\x02\0\0\0\x64\0\0\0\x07\0\0\0\x32";

// The key of the two bits, and what a tape for them has behind the blinds.
pub const BIT_KEY: [u8; 2] = [1, 1];

pub const BIT_NUMBERS: [u8; 7] = [1, 0, 0, 1, 1, 0, 1];

// A tape: the blinds of the three branches, each of one byte 32 times, then its elements.
pub fn tape(heap: Global, blinds: [u8; 3], elements: &[u8]) -> Result<Vec<u8>, AllocError>
    ensures { IfOk result (λ tape. vec_len tape ≡ 96 + length elements.now) }
{
    let mut bytes = Vec::new(heap);
    for blind in blinds {
        bytes.extend_from_slice(&[blind; 32])?;
    }
    bytes.extend_from_slice(elements)?;
    Ok(bytes)
}
