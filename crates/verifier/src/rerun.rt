// The rerun of two branches from their views, in one pass over the gates.
ghost use Rattle.std.specs.Prelude.{◌≡◌, ◌+◌, ◌≤◌, length};
ghost use Rattle.locks.specs.Model.{gate_of};
ghost use Rattle.theory.specs.Algebra.{ops_of};
ghost use Rattle.theory.specs.Branches.{ViewFor};
ghost use Rattle.theory.specs.Messages.{length_of_work};
ghost use Rattle.theory.specs.Runs.{rerun, at_outputs};
ghost use Rattle.theory.specs.Tests.{unlike};
ghost use Rattle.theory.specs.Verdict.{is_right, wrong_product};
ghost use Rattle.verifier.specs.Running.{stepped, Takes, Starts, Ends};

use crate::view::OpenedView;
use branches::group::{Elements, Group};
use branches::lock::OpenLock;
use branches::wires::Wires;
use faults::Branch;
use kinds::kind::ElementKind;
use locks::records::GateRecord;
use std::marker::Model;

// The wires of a branch so far, and the masks and products that are left in its view.
#[derive(Drop)]
pub(crate) struct Rerun<'a, 'w, K: ElementKind> {
    branch: Branch,
    wires: Wires<'w, K>,
    masks: Elements<'a, K>,
    products: Elements<'a, K>,
}

impl<'a, 'w, K: ElementKind> Model for Rerun<'a, 'w, K> {
    ghost use Rattle.verifier.specs.Running.{Running};

    ghost Value = { Running };

    ghost view = { λ r. record { branch = r.branch; most = r.wires.most; view = record { wires = r.wires.rows; masks = r.masks; products = r.products } } };
}

impl<'a, 'w, K: ElementKind> Rerun<'a, 'w, K> {
    // In front of the gates, with the shares of a view as the first wires.
    pub(crate) fn start(
        lock: &OpenLock<'_, K>,
        branch: Branch,
        view: &OpenedView<'a, K>,
        work: &'w mut [u8],
    ) -> Rerun<'a, 'w, K>
        requires opened { ViewFor lock.now view.now.parts }
        requires room { length_of_work K.kind lock.now ≤ length work.old }
        ensures starts { Starts lock.now result }
        ensures branch { result.branch ≡ branch }
        ensures view { result.view ≡ view.now.parts }
    {
        let most = lock.input_count() + lock.gate_count();
        Rerun {
            branch,
            wires: Wires::start(work, view.shares(), most),
            masks: view.masks().elements(),
            products: view.products().elements(),
        }
    }

    // One gate in this branch and in the one after it, with their products from the views: is this one's product right?
    fn pass(&mut self, next: &mut Rerun<'_, '_, K>, gate: GateRecord<'_>) -> bool
        requires first { Takes K.kind (gate_of gate) self.old }
        requires second { Takes K.kind (gate_of gate) next.old }
        ensures right { result ≡ is_right K.kind (gate_of gate.entry) self.old.view next.old.view }
        ensures first { self.new ≡ stepped K.kind (gate_of gate.entry) self.old }
        ensures second { next.new ≡ stepped K.kind (gate_of gate.entry) next.old }
    {
        let product = self.products.next_for(gate);
        let next_product = next.products.next_for(gate);
        let mask = self.masks.next_for(gate);
        let next_mask = next.masks.next_for(gate);
        let right = product == self.wires.right_product(&next.wires, gate, mask, next_mask);
        self.wires.branch_gate(self.branch, gate, product);
        next.wires.branch_gate(next.branch, gate, next_product);
        right
    }

    // Runs both through all gates; gives the first wire whose product in this branch is wrong.
    pub(crate) fn run(
        &mut self,
        next: &mut Rerun<'_, '_, K>,
        lock: &OpenLock<'_, K>,
    ) -> Option<usize>
        requires first { Starts lock.now self.old }
        requires second { Starts lock.now next.old }
        ensures wrong { result ≡ wrong_product K.kind self.old.branch next.old.branch lock.now.inputs lock.now.gates self.old.view next.old.view }
        ensures first { self.new.view.wires ≡ rerun (ops_of K.kind) self.old.branch lock.now.gates self.old.view }
        ensures second { next.new.view.wires ≡ rerun (ops_of K.kind) next.old.branch lock.now.gates next.old.view }
        ensures branch { self.new.branch ≡ self.old.branch }
        ensures nextbranch { next.new.branch ≡ next.old.branch }
        ensures ends { Ends lock.now self.new }
        ensures nextends { Ends lock.now next.new }
    {
        let mut wrong = None;
        for gate in lock.gates() {
            let own = self.wire_count();
            if !self.pass(next, gate) {
                wrong = wrong.or(Some(own));
            }
        }
        wrong
    }

    pub(crate) fn branch(&self) -> Branch
        ensures { result ≡ self.now.branch }
    {
        self.branch
    }

    fn wire_count(&self) -> usize
        ensures { result ≡ length self.now.view.wires }
    {
        self.wires.len()
    }

    // The first output of which the branch does not give the share.
    pub(crate) fn wrong_share(&self, lock: &OpenLock<'_, K>, shares: &Group<'_, K>) -> Option<usize>
        requires ends { Ends lock.now self.now }
        requires counted { length shares.now ≡ length lock.now.outputs }
        ensures { result ≡ unlike (at_outputs (ops_of K.kind) lock.now.outputs self.now.view.wires) shares.now }
    {
        for (j, (output, share)) in lock.outputs().zip(shares.elements()).enumerate() {
            if self.wires.wire(output.wire) != share {
                return Some(j);
            }
        }
        None
    }
}
