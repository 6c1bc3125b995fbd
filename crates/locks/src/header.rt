// The header of a lock: its mark, the kind's number, and the counts.
ghost use Rattle.std.specs.Prelude.{◌≡◌, ◌+◌, ◌≤◌, length, drop};
ghost use Rattle.kinds.specs.Numbers.{number_of};
ghost use Rattle.locks.specs.Reading.{count_within, counts_of, header_of};

use crate::limits::{MOST_GATES, MOST_INPUTS, MOST_OUTPUTS};
use crate::reader::fields::read_number;
use crate::records::Counts;
use faults::{Fault, Reason};
use kinds::kind::ElementKind;

pub(crate) const HEADER_LENGTH: usize = 15;

// The count in the four bytes from `at` on, if it lies within its limits.
fn count_at(bytes: &[u8], at: usize, low: usize, high: usize) -> Result<usize, Fault>
    requires { at + 4 ≤ length bytes.now }
    ensures { result ≡ count_within low high at (number_of (drop at bytes.now)) }
{
    let count = read_number(bytes, at);
    if (low..=high).contains(&count) {
        Ok(count)
    } else {
        Err(Fault::at(Reason::OutsideLimits, at))
    }
}

fn counts(bytes: &[u8]) -> Result<Counts, Fault>
    requires { 15 ≤ length bytes.now }
    ensures { result ≡ counts_of bytes.now }
{
    Ok(Counts {
        inputs: count_at(bytes, 3, 1, MOST_INPUTS)?,
        gates: count_at(bytes, 7, 0, MOST_GATES)?,
        outputs: count_at(bytes, 11, 1, MOST_OUTPUTS)?,
    })
}

pub(crate) fn header<K: ElementKind>(bytes: &[u8]) -> Result<Counts, Fault>
    ensures { result ≡ header_of K.kind bytes.now }
{
    match bytes {
        [b'L', b'K', ..] => {}
        [_, _, ..] => return Err(Fault::at(Reason::WrongMark, 0)),
        _ => return Err(Fault::at(Reason::Truncated, 0)),
    }
    if bytes.len() < HEADER_LENGTH {
        return Err(Fault::at(Reason::Truncated, 0));
    }
    if bytes[2] != K::NUMBER {
        return Err(Fault::at(Reason::OutsideLimits, 2));
    }
    counts(bytes)
}
