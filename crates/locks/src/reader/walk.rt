// The reader's steps: over one record, over all of them.
ghost use Rattle.std.specs.Prelude.{◌≡◌, ◌+◌, ◌<◌, ◌≤◌, length, IfOk};
ghost use Rattle.faults.specs.Outcomes.{map_ok};
ghost use Rattle.locks.specs.Reading.{gate_in, output_in, gate_tested, output_tested, gates_from, outputs_from, ended};
ghost use Rattle.locks.specs.Model.{gate_of, output_of, standing, start_of, behind_header, behind, past_gate, past_output, reached, tally, all_read};

use super::Reader;
use super::fields::{gate_in, output_in};
use crate::header::HEADER_LENGTH;
use crate::records::{GateRecord, OutputRecord};
use faults::{Fault, Reason};
use kinds::kind::ElementKind;

impl<'a> Reader<'a> {
    // At the start of the bytes.
    pub fn over(bytes: &'a [u8]) -> Reader<'a>
        ensures { standing result ≡ start_of bytes.now }
    {
        Reader { rest: bytes, at: 0 }
    }

    // In front of a lock's records, whose bytes stand behind its header.
    pub(crate) fn behind_header(records: &'a [u8]) -> Reader<'a>
        ensures { standing result ≡ behind_header records.now }
    {
        Reader {
            rest: records,
            at: HEADER_LENGTH,
        }
    }

    // Over the next n bytes.
    pub(crate) fn skip(&mut self, n: usize)
        requires { n ≤ length self.old.rest.now }
        ensures { standing self.new ≡ behind n (standing self.old) }
    {
        self.rest = &self.rest[n..];
        self.at += n;
    }

    // The gate record here, its fields untested.
    pub fn gate<K: ElementKind>(&mut self) -> Result<GateRecord<'a>, Fault>
        ensures outcome { map_ok gate_of result ≡ gate_in K.kind self.old.at self.old.rest.now }
        ensures stands { standing self.new ≡ past_gate K.kind (map_ok gate_of result) (standing self.old) }
    {
        let gate = gate_in::<K>(self.rest, self.at)?;
        self.skip(gate.size::<K>());
        Ok(gate)
    }

    // The output record here, its fields untested.
    pub fn output<K: ElementKind>(&mut self) -> Result<OutputRecord<'a>, Fault>
        ensures outcome { map_ok output_of result ≡ output_in K.kind self.old.at self.old.rest.now }
        ensures stands { standing self.new ≡ past_output K.kind (map_ok output_of result) (standing self.old) }
    {
        let output = output_in::<K>(self.rest, self.at)?;
        self.skip(6 + K::WIDTH);
        Ok(output)
    }

    // No bytes are left.
    pub(crate) fn end(&self) -> Result<(), Fault>
        ensures { result ≡ ended self.now.rest.now self.now.at }
    {
        if self.rest.is_empty() {
            Ok(())
        } else {
            Err(Fault::at(Reason::TrailingBytes, self.at))
        }
    }

    // One gate more, which writes wire `own`: read, tested and counted.
    fn next_gate<K: ElementKind>(
        &mut self,
        inputs: usize,
        own: usize,
        products: usize,
    ) -> Result<usize, Fault>
        requires few { (inputs ≤ 1024) × (products ≤ 200000) }
        ensures outcome { result ≡ gate_tested K.kind inputs own products self.old.at self.old.rest.now }
        ensures stands { standing self.new ≡ past_gate K.kind (gate_in K.kind self.old.at self.old.rest.now) (standing self.old) }
    {
        let at = self.at;
        let gate = self.gate::<K>()?;
        gate.right::<K>(own, at)?;
        gate.counted::<K>(inputs, products, at)
    }

    // The gates of a lock; gives the number of products.
    pub(crate) fn gates<K: ElementKind>(
        &mut self,
        inputs: usize,
        count: usize,
    ) -> Result<usize, Fault>
        requires few { (inputs ≤ 1024) × (count ≤ 200000) }
        ensures told { reached result (standing self.new) ≡ map_ok (tally 0) (gates_from K.kind inputs count inputs 0 self.old.at self.old.rest.now) }
        ensures few { IfOk result (λ products. products ≤ count) }
    {
        let mut products = 0;
        for j in 0..count {
            products = self.next_gate::<K>(inputs, inputs + j, products)?;
        }
        Ok(products)
    }

    // One output more of a lock with so many wires.
    fn next_output<K: ElementKind>(&mut self, wires: usize) -> Result<(), Fault>
        ensures outcome { result ≡ output_tested K.kind wires self.old.at self.old.rest.now }
        ensures stands { standing self.new ≡ past_output K.kind (output_in K.kind self.old.at self.old.rest.now) (standing self.old) }
    {
        let at = self.at;
        let output = self.output::<K>()?;
        output.right::<K>(wires, at)
    }

    pub(crate) fn outputs<K: ElementKind>(
        &mut self,
        wires: usize,
        count: usize,
    ) -> Result<(), Fault>
        ensures { reached result (standing self.new) ≡ map_ok all_read (outputs_from K.kind count wires self.old.at self.old.rest.now) }
    {
        for _ in 0..count {
            self.next_output::<K>(wires)?;
        }
        Ok(())
    }
}
