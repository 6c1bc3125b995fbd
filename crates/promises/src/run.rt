// The run of three branches, in one pass over the gates.
ghost use Rattle.std.specs.Prelude.{◌≡◌, ◌+◌, ◌*◌, ◌<◌, ◌≤◌, ◌++◌, length};
ghost use Rattle.faults.specs.declared.Branch.{Branch as Name};
ghost use Rattle.faults.specs.declared.Branch.TheVariants.{One as one, Two as two, Three as three};
ghost use Rattle.kinds.specs.Groups.{group_length};
ghost use Rattle.locks.specs.Circuit.{mus};
ghost use Rattle.locks.specs.Model.{gate_of};
ghost use Rattle.theory.specs.Algebra.{ops_of};
ghost use Rattle.theory.specs.Branches.{TapeFor};
ghost use Rattle.theory.specs.Groups.{group_bytes};
ghost use Rattle.theory.specs.Messages.{length_of_work, outs_length};
ghost use Rattle.theory.specs.Runs.{rerun, honest, at_outputs};
ghost use Rattle.promises.specs.Running.{started, of_branch, wires_on, masks_on, due_on, stepped, Takes, Starts, Ends, honest_view};

use crate::outputs::write_outputs;
use crate::tape::LawfulTape;
use branches::group::{Elements, Group};
use branches::groups::{group_length, put_element};
use branches::lock::OpenLock;
use branches::wires::Wires;
use faults::Branch;
use kinds::kind::ElementKind;
use locks::records::GateRecord;
use std::marker::Model;

// The wires of a branch so far, and the masks that are left.
#[derive(Drop)]
pub(crate) struct BranchRun<'a, 'w, K: ElementKind> {
    wires: Wires<'w, K>,
    masks: Elements<'a, K>,
}

impl<'a, 'w, K: ElementKind> Model for BranchRun<'a, 'w, K> {
    ghost use Rattle.promises.specs.Running.{Running};

    ghost Value = { Running };

    ghost view = { λ r. record { wires = r.wires.rows; most = r.wires.most; masks = r.masks } };
}

impl<'a, 'w, K: ElementKind> BranchRun<'a, 'w, K> {
    // In front of the gates, with the branch's shares as the first wires.
    pub(crate) fn start(
        lock: &OpenLock<'_, K>,
        shares: &Group<'_, K>,
        masks: &Group<'a, K>,
        work: &'w mut [u8],
    ) -> BranchRun<'a, 'w, K>
        requires shared { length shares.now ≡ lock.now.inputs }
        requires room { length_of_work K.kind lock.now ≤ length work.old }
        ensures { result ≡ started lock.now shares.now masks.now }
    {
        let most = lock.input_count() + lock.gate_count();
        BranchRun {
            wires: Wires::start(work, shares, most),
            masks: masks.elements(),
        }
    }
}

#[derive(Drop)]
pub(crate) struct Trio<'a, 'w, K: ElementKind> {
    first: BranchRun<'a, 'w, K>,
    second: BranchRun<'a, 'w, K>,
    third: BranchRun<'a, 'w, K>,
}

impl<'a, 'w, K: ElementKind> Model for Trio<'a, 'w, K> {
    ghost use Rattle.promises.specs.Running.{Trio as Three};

    ghost Value = { Three };

    ghost view = { λ t. record { first = t.first; second = t.second; third = t.third } };
}

impl<'a, 'w, K: ElementKind> Trio<'a, 'w, K> {
    // In front of the gates, with the third branch's shares.
    pub(crate) fn start(
        lock: &OpenLock<'_, K>,
        tape: &LawfulTape<'a, K>,
        third_shares: &Group<'_, K>,
        work1: &'w mut [u8],
        work2: &'w mut [u8],
        work3: &'w mut [u8],
    ) -> Trio<'a, 'w, K>
        requires taped { TapeFor lock.now tape.now.parts }
        requires shared { length third_shares.now ≡ lock.now.inputs }
        requires room1 { length_of_work K.kind lock.now ≤ length work1.old }
        requires room2 { length_of_work K.kind lock.now ≤ length work2.old }
        requires room3 { length_of_work K.kind lock.now ≤ length work3.old }
        ensures first { result.first ≡ started lock.now tape.now.parts.share1 tape.now.parts.mask1 }
        ensures second { result.second ≡ started lock.now tape.now.parts.share2 tape.now.parts.mask2 }
        ensures third { result.third ≡ started lock.now third_shares.now tape.now.parts.mask3 }
    {
        Trio {
            first: BranchRun::start(lock, &tape.share1, &tape.mask1, work1),
            second: BranchRun::start(lock, &tape.share2, &tape.mask2, work2),
            third: BranchRun::start(lock, third_shares, &tape.mask3, work3),
        }
    }

    // One gate in each branch; gives their products.
    fn step(&mut self, gate: GateRecord<'_>) -> (K, K, K)
        requires first { Takes K.kind (gate_of gate) self.old.first }
        requires second { Takes K.kind (gate_of gate) self.old.second }
        requires third { Takes K.kind (gate_of gate) self.old.third }
        ensures first { K.ElementKind.row result.0 ≡ due_on K.kind (gate_of gate.entry) self.old one }
        ensures second { K.ElementKind.row result.1 ≡ due_on K.kind (gate_of gate.entry) self.old two }
        ensures third { K.ElementKind.row result.2 ≡ due_on K.kind (gate_of gate.entry) self.old three }
        ensures stepped { self.new ≡ stepped K.kind (gate_of gate.entry) self.old }
    {
        let Trio {
            first,
            second,
            third,
        } = self;
        let mask1 = first.masks.next_for(gate);
        let mask2 = second.masks.next_for(gate);
        let mask3 = third.masks.next_for(gate);
        let product1 = first.wires.right_product(&second.wires, gate, mask1, mask2);
        let product2 = second.wires.right_product(&third.wires, gate, mask2, mask3);
        let product3 = third.wires.right_product(&first.wires, gate, mask3, mask1);
        first.wires.branch_gate(Branch::One, gate, product1);
        second.wires.branch_gate(Branch::Two, gate, product2);
        third.wires.branch_gate(Branch::Three, gate, product3);
        (product1, product2, product3)
    }

    // Runs the branches through all gates; each branch's products fill their place.
    pub(crate) fn run(
        &mut self,
        lock: &OpenLock<'_, K>,
        products1: &mut [u8],
        products2: &mut [u8],
        products3: &mut [u8],
    )
        requires starts { (i : Name) → Starts lock.now (of_branch self.old i) }
        requires sized1 { length products1.old ≡ group_length K.kind (mus lock.now.gates) }
        requires sized2 { length products2.old ≡ group_length K.kind (mus lock.now.gates) }
        requires sized3 { length products3.old ≡ group_length K.kind (mus lock.now.gates) }
        ensures products1 { products1.new ≡ group_bytes K.kind (honest (ops_of K.kind) lock.now.gates (wires_on self.old) (masks_on self.old) one) }
        ensures products2 { products2.new ≡ group_bytes K.kind (honest (ops_of K.kind) lock.now.gates (wires_on self.old) (masks_on self.old) two) }
        ensures products3 { products3.new ≡ group_bytes K.kind (honest (ops_of K.kind) lock.now.gates (wires_on self.old) (masks_on self.old) three) }
        ensures wires { (i : Name) → wires_on self.new i ≡ rerun (ops_of K.kind) i lock.now.gates (honest_view K.kind lock.now.gates self.old i) }
        ensures ends { (i : Name) → Ends lock.now (of_branch self.new i) }
    {
        let count = lock.product_count();
        let mut made = 0;
        for gate in lock.gates() {
            let (product1, product2, product3) = self.step(gate);
            if let GateRecord::Multiply { .. } = gate {
                put_element(products1, count, made, product1);
                put_element(products2, count, made, product2);
                put_element(products3, count, made, product3);
                made += 1;
            }
        }
    }

    // The output shares of the three branches, over the whole of `out`.
    pub(crate) fn write_outputs(&self, lock: &OpenLock<'_, K>, out: &mut [u8])
        requires ends { (i : Name) → Ends lock.now (of_branch self.now i) }
        requires sized { length out.old ≡ 3 * outs_length K.kind lock.now }
        ensures { out.new ≡ group_bytes K.kind (at_outputs (ops_of K.kind) lock.now.outputs (wires_on self.now one)) ++ (group_bytes K.kind (at_outputs (ops_of K.kind) lock.now.outputs (wires_on self.now two)) ++ group_bytes K.kind (at_outputs (ops_of K.kind) lock.now.outputs (wires_on self.now three))) }
    {
        let size = group_length::<K>(lock.output_count());
        let (out1, rest) = out.split_at_mut(size);
        let (out2, out3) = rest.split_at_mut(size);
        write_outputs(lock, &self.first.wires, out1);
        write_outputs(lock, &self.second.wires, out2);
        write_outputs(lock, &self.third.wires, out3);
    }
}
