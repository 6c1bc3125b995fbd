// The rules of a record's fields, from left to right, and of a view's length.
ghost use Rattle.std.specs.Prelude.{◌≡◌, ◌+◌, ◌^◌, ◌<◌, ◌≤◌};
ghost use Rattle.locks.specs.Reading.{wire_right, wire_and_row_right, two_wires_right, gate_right, output_right, counted};
ghost use Rattle.locks.specs.Model.{gate_of, output_of};

use crate::lengths::view_length;
use crate::limits::LONGEST_VIEW;
use crate::records::{GateRecord, OutputRecord};
use faults::{Fault, Reason};
use kinds::kind::ElementKind;

fn is_lawful<K: ElementKind>(row: &[u8]) -> bool
    ensures { result ≡ K.kind.lawful row.now }
{
    K::read(row).is_some()
}

fn wire_right(wire: usize, own: usize, place: usize) -> Result<(), Fault>
    ensures { result ≡ wire_right own place wire }
{
    if wire < own {
        Ok(())
    } else {
        Err(Fault::at(Reason::WireTooHigh, place))
    }
}

fn wire_and_row_right<K: ElementKind>(
    wire: usize,
    row: &[u8],
    own: usize,
    at: usize,
) -> Result<(), Fault>
    requires { at + 6 < 2 ^ 64 }
    ensures { result ≡ wire_and_row_right K.kind at own wire row.now }
{
    wire_right(wire, own, at + 2)?;
    if !is_lawful::<K>(row) {
        return Err(Fault::at(Reason::UnlawfulConstant, at + 6));
    }
    Ok(())
}

fn two_wires_right(left: usize, right: usize, own: usize, at: usize) -> Result<(), Fault>
    requires { at + 6 < 2 ^ 64 }
    ensures { result ≡ two_wires_right at own left right }
{
    wire_right(left, own, at + 2)?;
    wire_right(right, own, at + 6)
}

impl GateRecord<'_> {
    // The fields of a gate that writes wire `own`.
    pub(crate) fn right<K: ElementKind>(self, own: usize, at: usize) -> Result<(), Fault>
        requires { at + 6 < 2 ^ 64 }
        ensures { result ≡ gate_right K.kind at own (gate_of self.entry) }
    {
        match self {
            GateRecord::AddConstant { wire, constant }
            | GateRecord::MultiplyConstant { wire, constant } => {
                wire_and_row_right::<K>(wire, constant, own, at)
            }
            GateRecord::Add { left, right } | GateRecord::Multiply { left, right } => {
                two_wires_right(left, right, own, at)
            }
        }
    }

    // The number of products with this gate behind `products` others.
    pub(crate) fn counted<K: ElementKind>(
        self,
        inputs: usize,
        products: usize,
        at: usize,
    ) -> Result<usize, Fault>
        requires few { (inputs ≤ 1024) × (products ≤ 200000) }
        ensures { result ≡ counted K.kind at inputs products (gate_of self.entry) }
    {
        let GateRecord::Multiply { .. } = self else {
            return Ok(products);
        };
        if view_length::<K>(inputs, products + 1) > LONGEST_VIEW {
            return Err(Fault::at(Reason::OutsideLimits, at));
        }
        Ok(products + 1)
    }
}

impl OutputRecord<'_> {
    // The fields of an output of a lock with so many wires.
    pub(crate) fn right<K: ElementKind>(self, wires: usize, at: usize) -> Result<(), Fault>
        requires { at + 6 < 2 ^ 64 }
        ensures { result ≡ output_right K.kind at wires (output_of self.entry) }
    {
        wire_and_row_right::<K>(self.wire, self.target, wires, at)
    }
}
