// A lock that was read, of one kind: contracts see its circuit.
ghost use Rattle.std.specs.Prelude.{◌≡◌, ◌+◌, ◌≤◌, length};
ghost use Rattle.std.specs.List.{AllByRecursion};
ghost use Rattle.locks.specs.Circuit.{mus};
ghost use Rattle.locks.specs.Encoding.{GatesFor, OutputFor};
ghost use Rattle.locks.specs.Reading.{lock_of};
ghost use Rattle.theory.specs.Messages.{length_of_key, length_of_view, length_of_tape, length_of_first, length_of_answer, length_of_work};
ghost use Rattle.branches.specs.Walks.{circuit_of, Stands};

use crate::walk::{next_gate, next_output, open_lock, outputs_reader};
use faults::Fault;
use kinds::kind::ElementKind;
use locks::lock::Lock;
use locks::reader::Reader;
use locks::records::{GateRecord, OutputRecord};
use std::marker::{Model, PhantomData};

#[derive(Drop)]
pub struct OpenLock<'a, K: ElementKind> {
    lock: Lock<'a>,
    kind: PhantomData<K>,
}

impl<'a, K: ElementKind> Model for OpenLock<'a, K> {
    ghost use Rattle.std.specs.Prelude.{ℕ, List};
    ghost use Rattle.locks.specs.Circuit.{Circuit};
    ghost use Rattle.branches.specs.Walks.{circuit_of, Stands};

    ghost Value = { Circuit (List ℕ) };

    ghost view = { λ l. circuit_of K.kind l.lock };

    ghost invariant = { λ l. Stands K.kind l.lock };
}

impl<'a, K: ElementKind> OpenLock<'a, K> {
    pub fn read(bytes: &'a [u8]) -> Result<OpenLock<'a, K>, Fault>
        ensures { result ≡ lock_of K.kind bytes.now }
    {
        let lock = open_lock::<K>(bytes)?;
        Ok(OpenLock {
            lock,
            kind: PhantomData,
        })
    }

    pub fn lock(&self) -> Lock<'a>
        ensures circuit { circuit_of K.kind result ≡ self.now }
        ensures stands { Stands K.kind result }
    {
        self.lock
    }

    // Each gate reads wires below its own.
    pub fn gates(&self) -> Gates<'a, K>
        ensures gates { result ≡ self.now.gates }
        ensures fit { GatesFor K.kind self.now.inputs self.now.gates }
        ensures few { length self.now.gates ≤ 200000 }
    {
        Gates {
            reader: self.lock.reader(),
            left: self.lock.gates as usize,
            kind: PhantomData,
        }
    }

    pub fn outputs(&self) -> Outputs<'a, K>
        ensures outputs { result ≡ self.now.outputs }
        ensures fit { AllByRecursion (OutputFor K.kind (self.now.inputs + length self.now.gates)) self.now.outputs }
        ensures few { length self.now.outputs ≤ 1024 }
    {
        Outputs {
            reader: outputs_reader::<K>(self.lock),
            left: self.lock.outputs as usize,
            kind: PhantomData,
        }
    }

    pub fn input_count(&self) -> usize
        ensures count { result ≡ self.now.inputs }
        ensures few { result ≤ 1024 }
        ensures short { length_of_view K.kind self.now ≤ 65535 }
    {
        self.lock.inputs as usize
    }

    pub fn gate_count(&self) -> usize
        ensures count { result ≡ length self.now.gates }
        ensures few { result ≤ 200000 }
    {
        self.lock.gates as usize
    }

    pub fn output_count(&self) -> usize
        ensures count { result ≡ length self.now.outputs }
        ensures few { result ≤ 1024 }
    {
        self.lock.outputs as usize
    }

    pub fn product_count(&self) -> usize
        ensures count { result ≡ mus self.now.gates }
        ensures short { length_of_view K.kind self.now ≤ 65535 }
    {
        self.lock.products as usize
    }
}

// The lengths of what belongs to the lock.
impl<K: ElementKind> OpenLock<'_, K> {
    pub fn key_length(&self) -> usize
        ensures { result ≡ length_of_key K.kind self.now }
    {
        self.lock.key_length::<K>()
    }

    pub fn view_length(&self) -> usize
        ensures length { result ≡ length_of_view K.kind self.now }
        ensures short { result ≤ 65535 }
    {
        self.lock.view_length::<K>()
    }

    pub fn tape_length(&self) -> usize
        ensures { result ≡ length_of_tape K.kind self.now }
    {
        self.lock.tape_length::<K>()
    }

    // With seals of `seal` bytes.
    pub fn first_length(&self, seal: u8) -> usize
        ensures { result ≡ length_of_first K.kind self.now seal }
    {
        self.lock.first_length::<K>(seal)
    }

    pub fn answer_length(&self) -> usize
        ensures { result ≡ length_of_answer K.kind self.now }
    {
        self.lock.answer_length::<K>()
    }

    pub fn work_length(&self) -> usize
        ensures { result ≡ length_of_work K.kind self.now }
    {
        self.lock.work_length::<K>()
    }
}

// The gates that are left on a walk over a lock's records.
#[derive(Drop)]
pub struct Gates<'a, K: ElementKind> {
    reader: Reader<'a>,
    left: usize,
    kind: PhantomData<K>,
}

impl<'a, K: ElementKind> Model for Gates<'a, K> {
    ghost use Rattle.std.specs.Prelude.{◌≡◌, ℕ, true, List, is_ok};
    ghost use Rattle.locks.specs.Circuit.{Gate};
    ghost use Rattle.locks.specs.Model.{standing};
    ghost use Rattle.locks.specs.Reading.{gates_in};
    ghost use Rattle.branches.specs.Walks.{gates_at};

    ghost Value = { List (Gate (List ℕ)) };

    ghost view = { λ w. gates_at K.kind w.left (standing w.reader) };

    ghost invariant = { λ w. is_ok (gates_in K.kind w.left (standing w.reader).at (standing w.reader).rest) ≡ true };
}

impl<'a, K: ElementKind> Iterator for Gates<'a, K> {
    type Item = GateRecord<'a>;

    ghost use Rattle.std.specs.Iterator.{YieldsFirstBy, item_count};
    ghost use Rattle.locks.specs.Model.{gate_of};

    ghost next_gives = { YieldsFirstBy gate_of (λ s. s) };

    ghost remaining = { item_count (λ s. s) };

    fn next(&mut self) -> Option<GateRecord<'a>> {
        if self.left == 0 {
            return None;
        }
        self.left -= 1;
        Some(next_gate::<K>(&mut self.reader))
    }
}

// The outputs that are left on a walk over a lock's records.
#[derive(Drop)]
pub struct Outputs<'a, K: ElementKind> {
    reader: Reader<'a>,
    left: usize,
    kind: PhantomData<K>,
}

impl<'a, K: ElementKind> Model for Outputs<'a, K> {
    ghost use Rattle.std.specs.Prelude.{◌≡◌, ℕ, true, List, is_ok};
    ghost use Rattle.locks.specs.Circuit.{Output};
    ghost use Rattle.locks.specs.Model.{standing};
    ghost use Rattle.locks.specs.Reading.{outputs_in};
    ghost use Rattle.branches.specs.Walks.{outputs_at};

    ghost Value = { List (Output (List ℕ)) };

    ghost view = { λ w. outputs_at K.kind w.left (standing w.reader) };

    ghost invariant = { λ w. is_ok (outputs_in K.kind w.left (standing w.reader).at (standing w.reader).rest) ≡ true };
}

impl<'a, K: ElementKind> Iterator for Outputs<'a, K> {
    type Item = OutputRecord<'a>;

    ghost use Rattle.std.specs.Iterator.{YieldsFirstBy, item_count};
    ghost use Rattle.locks.specs.Model.{output_of};

    ghost next_gives = { YieldsFirstBy output_of (λ s. s) };

    ghost remaining = { item_count (λ s. s) };

    fn next(&mut self) -> Option<OutputRecord<'a>> {
        if self.left == 0 {
            return None;
        }
        self.left -= 1;
        Some(next_output::<K>(&mut self.reader))
    }
}
