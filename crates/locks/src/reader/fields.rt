// A record's mark and fields, as they lie in the bytes; nothing here is tested but that the bytes are there.
ghost use Rattle.std.specs.Prelude.{◌≡◌, ◌+◌, ◌<◌, ◌≤◌, length, drop};
ghost use Rattle.faults.specs.Outcomes.{map_ok};
ghost use Rattle.kinds.specs.Numbers.{number_of};
ghost use Rattle.locks.specs.Reading.{gate_size, wire_and_row, two_wires, gate_in, output_in};
ghost use Rattle.locks.specs.Model.{gate_of, output_of, fields_of};

use crate::records::{GateRecord, OutputRecord};
use faults::{Fault, Reason};
use kinds::kind::ElementKind;

// The number in the four bytes from `at` on.
pub(crate) fn read_number(fields: &[u8], at: usize) -> usize
    requires { at + 4 ≤ length fields.now }
    ensures { result ≡ number_of (drop at fields.now) }
{
    u32::from_be_bytes([fields[at], fields[at + 1], fields[at + 2], fields[at + 3]]) as usize
}

fn wire_and_row<'a, K: ElementKind>(fields: &'a [u8], at: usize) -> Result<(usize, &'a [u8]), Fault>
    ensures { map_ok fields_of result ≡ wire_and_row K.kind at fields.now }
{
    let width = K::WIDTH;
    if fields.len() < 4 + width {
        return Err(Fault::at(Reason::Truncated, at));
    }
    Ok((read_number(fields, 0), &fields[4..4 + width]))
}

fn two_wires(fields: &[u8], at: usize) -> Result<(usize, usize), Fault>
    ensures { result ≡ two_wires at fields.now }
{
    if fields.len() < 8 {
        return Err(Fault::at(Reason::Truncated, at));
    }
    Ok((read_number(fields, 0), read_number(fields, 4)))
}

// The gate record at the front of the bytes, which stand at the offset `at`.
pub(crate) fn gate_in<'a, K: ElementKind>(
    bytes: &'a [u8],
    at: usize,
) -> Result<GateRecord<'a>, Fault>
    ensures { map_ok gate_of result ≡ gate_in K.kind at bytes.now }
{
    match bytes {
        [b'A', b'C', fields @ ..] => {
            let (wire, constant) = wire_and_row::<K>(fields, at)?;
            Ok(GateRecord::AddConstant { wire, constant })
        }
        [b'M', b'C', fields @ ..] => {
            let (wire, constant) = wire_and_row::<K>(fields, at)?;
            Ok(GateRecord::MultiplyConstant { wire, constant })
        }
        [b'A', b'D', fields @ ..] => {
            let (left, right) = two_wires(fields, at)?;
            Ok(GateRecord::Add { left, right })
        }
        [b'M', b'U', fields @ ..] => {
            let (left, right) = two_wires(fields, at)?;
            Ok(GateRecord::Multiply { left, right })
        }
        [_, _, ..] => Err(Fault::at(Reason::WrongMark, at)),
        _ => Err(Fault::at(Reason::Truncated, at)),
    }
}

// The output record at the front of the bytes.
pub(crate) fn output_in<'a, K: ElementKind>(
    bytes: &'a [u8],
    at: usize,
) -> Result<OutputRecord<'a>, Fault>
    ensures { map_ok output_of result ≡ output_in K.kind at bytes.now }
{
    match bytes {
        [b'O', b'U', fields @ ..] => {
            let (wire, target) = wire_and_row::<K>(fields, at)?;
            Ok(OutputRecord { wire, target })
        }
        [_, _, ..] => Err(Fault::at(Reason::WrongMark, at)),
        _ => Err(Fault::at(Reason::Truncated, at)),
    }
}

impl GateRecord<'_> {
    // How many bytes the record has.
    pub(crate) fn size<K: ElementKind>(&self) -> usize
        ensures { result ≡ gate_size K.kind (gate_of self.now) }
    {
        match self {
            GateRecord::AddConstant { .. } | GateRecord::MultiplyConstant { .. } => 6 + K::WIDTH,
            GateRecord::Add { .. } | GateRecord::Multiply { .. } => 10,
        }
    }
}
