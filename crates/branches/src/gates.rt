// One gate: on whole values, and in one branch.
ghost use Rattle.std.specs.Prelude.{◌≡◌, suc, ◌*◌, ◌<◌, ◌≤◌, [], ◌∷◌, ◌++◌, length};
ghost use Rattle.std.specs.List.{AllByRecursion};
ghost use Rattle.kinds.specs.Kind.{Lawful};
ghost use Rattle.locks.specs.Encoding.{GateFor};
ghost use Rattle.locks.specs.Model.{gate_of};
ghost use Rattle.theory.specs.Algebra.{ops_of};
ghost use Rattle.theory.specs.Runs.{head, rest, share, plus_constant, value, local, right};
ghost use Rattle.branches.specs.Views.{has, taken};
ghost use Rattle.branches.specs.Wires.{wires_in};

use crate::group::Elements;
use crate::rows::lawful_row;
use crate::wires::{Wires, add_wire, wire};
use faults::Branch;
use kinds::kind::ElementKind;
use locks::records::GateRecord;

// How many products a gate has.
pub fn products_of(gate: GateRecord<'_>) -> usize
    ensures { result ≡ has (gate_of gate.entry) }
{
    match gate {
        GateRecord::Multiply { .. } => 1,
        _ => 0,
    }
}

// A branch's share of the product a × b: a × b + a' × b + a × b' + r − r', where the primed ones are the next branch's.
fn product_share<K: ElementKind>(a: K, b: K, next_a: K, next_b: K, mask: K, next_mask: K) -> K
    ensures { K.ElementKind.row result ≡ share (ops_of K.kind) (K.ElementKind.row a) (K.ElementKind.row b) (K.ElementKind.row next_a) (K.ElementKind.row next_b) (K.ElementKind.row mask) (K.ElementKind.row next_mask) }
{
    a.product(b)
        .sum(next_a.product(b))
        .sum(a.product(next_b))
        .sum(mask)
        .sum(next_mask.negative())
}

// Only branch 1 adds a constant.
fn plus_constant<K: ElementKind>(branch: Branch, x: K, constant: &[u8]) -> K
    requires { Lawful K.kind constant.now }
    ensures { K.ElementKind.row result ≡ plus_constant (ops_of K.kind) branch (K.ElementKind.row x) constant.now }
{
    match branch {
        Branch::One => x.sum(lawful_row(constant)),
        Branch::Two | Branch::Three => x,
    }
}

// What a gate gives on whole values.
fn plain_value<K: ElementKind>(work: &[u8], own: usize, gate: GateRecord<'_>) -> K
    requires fit { GateFor K.kind own (gate_of gate) }
    requires within { own * K.kind.width ≤ length work.now }
    requires lawful { AllByRecursion (Lawful K.kind) (wires_in K.kind own work.now) }
    ensures { K.ElementKind.row result ≡ value (ops_of K.kind) (wires_in K.kind own work.now) (gate_of gate.entry) }
{
    match gate {
        GateRecord::AddConstant { wire: a, constant } => wire::<K>(work, own, a).sum(lawful_row(
            constant,
        )),
        GateRecord::MultiplyConstant { wire: a, constant } => lawful_row::<K>(constant).product(
            wire(work, own, a),
        ),
        GateRecord::Add { left, right } => wire::<K>(work, own, left).sum(wire(work, own, right)),
        GateRecord::Multiply { left, right } => wire::<K>(work, own, left).product(wire(
            work, own, right,
        )),
    }
}

// Writes wire `own` of a plain run.
pub fn plain_gate<K: ElementKind>(work: &mut [u8], own: usize, gate: GateRecord<'_>)
    requires fit { GateFor K.kind own (gate_of gate) }
    requires within { suc own * K.kind.width ≤ length work.old }
    requires lawful { AllByRecursion (Lawful K.kind) (wires_in K.kind own work.old) }
    ensures { wires_in K.kind (suc own) work.new ≡ wires_in K.kind own work.old ++ (value (ops_of K.kind) (wires_in K.kind own work.old) (gate_of gate.entry) ∷ []) }
{
    let x: K = plain_value(work, own, gate);
    add_wire(work, own, x);
}

// The right product of a gate in a branch, with the wires and the mask of the branch after it; zero for a gate without one.
pub fn right_product<K: ElementKind>(
    gate: GateRecord<'_>,
    own: usize,
    work: &[u8],
    next_work: &[u8],
    mask: K,
    next_mask: K,
) -> K
    requires fit { GateFor K.kind own (gate_of gate) }
    requires within { own * K.kind.width ≤ length work.now }
    requires nextwithin { own * K.kind.width ≤ length next_work.now }
    requires lawful { AllByRecursion (Lawful K.kind) (wires_in K.kind own work.now) }
    requires nextlawful { AllByRecursion (Lawful K.kind) (wires_in K.kind own next_work.now) }
    ensures { K.ElementKind.row result ≡ right (ops_of K.kind) (gate_of gate.entry) (wires_in K.kind own work.now) (K.ElementKind.row mask ∷ []) (wires_in K.kind own next_work.now) (K.ElementKind.row next_mask ∷ []) }
{
    let GateRecord::Multiply { left, right } = gate else {
        return K::zero();
    };
    product_share(
        wire(work, own, left),
        wire(work, own, right),
        wire(next_work, own, left),
        wire(next_work, own, right),
        mask,
        next_mask,
    )
}

// What a gate gives in a branch, where `own_product` is its product.
fn branch_value<K: ElementKind>(
    branch: Branch,
    work: &[u8],
    own: usize,
    gate: GateRecord<'_>,
    own_product: K,
) -> K
    requires fit { GateFor K.kind own (gate_of gate) }
    requires within { own * K.kind.width ≤ length work.now }
    requires lawful { AllByRecursion (Lawful K.kind) (wires_in K.kind own work.now) }
    ensures { K.ElementKind.row result ≡ local (ops_of K.kind) branch (wires_in K.kind own work.now) (K.ElementKind.row own_product) (gate_of gate.entry) }
{
    match gate {
        GateRecord::AddConstant { wire: a, constant } => plus_constant(
            branch,
            wire::<K>(work, own, a),
            constant,
        ),
        GateRecord::MultiplyConstant { wire: a, constant } => lawful_row::<K>(constant).product(
            wire(work, own, a),
        ),
        GateRecord::Add { left, right } => wire::<K>(work, own, left).sum(wire(work, own, right)),
        GateRecord::Multiply { .. } => own_product,
    }
}

// Writes wire `own` of a branch.
pub fn branch_gate<K: ElementKind>(
    branch: Branch,
    work: &mut [u8],
    own: usize,
    gate: GateRecord<'_>,
    product: K,
)
    requires fit { GateFor K.kind own (gate_of gate) }
    requires within { suc own * K.kind.width ≤ length work.old }
    requires lawful { AllByRecursion (Lawful K.kind) (wires_in K.kind own work.old) }
    ensures { wires_in K.kind (suc own) work.new ≡ wires_in K.kind own work.old ++ (local (ops_of K.kind) branch (wires_in K.kind own work.old) (K.ElementKind.row product) (gate_of gate.entry) ∷ []) }
{
    let x: K = branch_value(branch, work, own, gate, product);
    add_wire(work, own, x);
}

// One gate on the wires so far.
impl<K: ElementKind> Wires<'_, K> {
    // What a gate gives on whole values.
    fn plain_value(&self, gate: GateRecord<'_>) -> K
        requires { GateFor K.kind (length self.now.rows) (gate_of gate) }
        ensures { K.ElementKind.row result ≡ value (ops_of K.kind) self.now.rows (gate_of gate.entry) }
    {
        match gate {
            GateRecord::AddConstant { wire, constant } => {
                self.wire(wire).sum(lawful_row(constant))
            }
            GateRecord::MultiplyConstant { wire, constant } => {
                lawful_row::<K>(constant).product(self.wire(wire))
            }
            GateRecord::Add { left, right } => self.wire(left).sum(self.wire(right)),
            GateRecord::Multiply { left, right } => self.wire(left).product(self.wire(right)),
        }
    }

    // The next wire of a plain run.
    pub fn plain_gate(&mut self, gate: GateRecord<'_>)
        requires fit { GateFor K.kind (length self.old.rows) (gate_of gate) }
        requires room { length self.old.rows < self.old.most }
        ensures rows { self.new.rows ≡ self.old.rows ++ (value (ops_of K.kind) self.old.rows (gate_of gate.entry) ∷ []) }
        ensures most { self.new.most ≡ self.old.most }
    {
        let x = self.plain_value(gate);
        self.push(x);
    }

    // The right product of a gate in a branch, with the wires and the mask of the branch after it; zero for a gate without one.
    pub fn right_product(
        &self,
        next: &Wires<'_, K>,
        gate: GateRecord<'_>,
        mask: K,
        next_mask: K,
    ) -> K
        requires fit { GateFor K.kind (length self.now.rows) (gate_of gate) }
        requires nextfit { GateFor K.kind (length next.now.rows) (gate_of gate) }
        ensures { K.ElementKind.row result ≡ right (ops_of K.kind) (gate_of gate.entry) self.now.rows (K.ElementKind.row mask ∷ []) next.now.rows (K.ElementKind.row next_mask ∷ []) }
    {
        let GateRecord::Multiply { left, right } = gate else {
            return K::zero();
        };
        product_share(
            self.wire(left),
            self.wire(right),
            next.wire(left),
            next.wire(right),
            mask,
            next_mask,
        )
    }

    // What a gate gives in a branch, where `product` is its product.
    fn branch_value(&self, branch: Branch, gate: GateRecord<'_>, product: K) -> K
        requires { GateFor K.kind (length self.now.rows) (gate_of gate) }
        ensures { K.ElementKind.row result ≡ local (ops_of K.kind) branch self.now.rows (K.ElementKind.row product) (gate_of gate.entry) }
    {
        match gate {
            GateRecord::AddConstant { wire, constant } => {
                plus_constant(branch, self.wire(wire), constant)
            }
            GateRecord::MultiplyConstant { wire, constant } => {
                lawful_row::<K>(constant).product(self.wire(wire))
            }
            GateRecord::Add { left, right } => self.wire(left).sum(self.wire(right)),
            GateRecord::Multiply { .. } => product,
        }
    }

    // The next wire of a branch. As a call of its own it makes a rerun of residues half as slow again.
    #[inline]
    pub fn branch_gate(&mut self, branch: Branch, gate: GateRecord<'_>, product: K)
        requires fit { GateFor K.kind (length self.old.rows) (gate_of gate) }
        requires room { length self.old.rows < self.old.most }
        ensures rows { self.new.rows ≡ self.old.rows ++ (local (ops_of K.kind) branch self.old.rows (K.ElementKind.row product) (gate_of gate.entry) ∷ []) }
        ensures most { self.new.most ≡ self.old.most }
    {
        let x = self.branch_value(branch, gate, product);
        self.push(x);
    }
}

impl<K: ElementKind> Elements<'_, K> {
    // The next element for a gate with a product, zero for another: a mask, or the product itself.
    pub fn next_for(&mut self, gate: GateRecord<'_>) -> K
        ensures value { K.ElementKind.row result ≡ taken K.kind (gate_of gate.entry) (head (ops_of K.kind) self.old) }
        ensures left { self.new ≡ rest (gate_of gate.entry) self.old }
    {
        match gate {
            GateRecord::Multiply { .. } => self.next().unwrap_or(K::zero()),
            _ => K::zero(),
        }
    }
}
