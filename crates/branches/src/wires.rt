// The wires of a branch in its work space: read, and added to.
ghost use Rattle.std.specs.Prelude.{◌≡◌, suc, ◌*◌, ◌<◌, ◌≤◌, [], ◌∷◌, ◌++◌, length};
ghost use Rattle.std.specs.List.{AllByRecursion};
ghost use Rattle.kinds.specs.Kind.{Lawful};
ghost use Rattle.theory.specs.Algebra.{ops_of};
ghost use Rattle.theory.specs.Runs.{read};
ghost use Rattle.branches.specs.Wires.{wires_in};

use crate::group::Group;
use crate::rows::{row_of, write_row};
use kinds::kind::ElementKind;
use std::marker::{Model, PhantomData};

// The wires of a run so far, in the front of a lent work slice with room for so many: contracts see their rows.
#[derive(Drop)]
pub struct Wires<'a, K: ElementKind> {
    work: &'a mut [u8],
    count: usize,
    most: usize,
    kind: PhantomData<K>,
}

impl<'a, K: ElementKind> Model for Wires<'a, K> {
    ghost use Rattle.branches.specs.Wires.{wires_in};
    ghost use Rattle.branches.specs.Filled.{Filled, Fills};

    ghost Value = { Filled };

    ghost view = { λ w. record { rows = wires_in K.kind w.count w.work.now; most = w.most } };

    ghost invariant = { λ w. Fills K.kind w.count w.most w.work.now };
}

impl<'a, K: ElementKind> Wires<'a, K> {
    // The shares of a branch, or a key, are the first wires.
    pub fn start(work: &'a mut [u8], shares: &Group<'_, K>, most: usize) -> Wires<'a, K>
        requires room { most * K.kind.width ≤ length work.old }
        requires few { length shares.now ≤ most }
        ensures rows { result.rows ≡ shares.now }
        ensures most { result.most ≡ most }
    {
        let bytes = shares.bytes();
        work[..bytes.len()].copy_from_slice(bytes);
        Wires {
            work,
            count: shares.len(),
            most,
            kind: PhantomData,
        }
    }

    pub fn len(&self) -> usize
        ensures count { result ≡ length self.now.rows }
        ensures few { length self.now.rows ≤ self.now.most }
        ensures lawful { AllByRecursion (Lawful K.kind) self.now.rows }
    {
        self.count
    }

    pub fn wire(&self, a: usize) -> K
        requires { a < length self.now.rows }
        ensures { K.ElementKind.row result ≡ read (ops_of K.kind) self.now.rows a }
    {
        wire(&*self.work, self.count, a)
    }

    pub fn push(&mut self, x: K)
        requires { length self.old.rows < self.old.most }
        ensures rows { self.new.rows ≡ self.old.rows ++ (K.ElementKind.row x ∷ []) }
        ensures most { self.new.most ≡ self.old.most }
    {
        let work = &mut *self.work;
        let own = self.count;
        self.count += 1;
        add_wire(work, own, x);
    }
}

// Wire a of the first `own`.
pub fn wire<K: ElementKind>(work: &[u8], own: usize, a: usize) -> K
    requires below { a < own }
    requires within { own * K.kind.width ≤ length work.now }
    requires lawful { AllByRecursion (Lawful K.kind) (wires_in K.kind own work.now) }
    ensures { K.ElementKind.row result ≡ read (ops_of K.kind) (wires_in K.kind own work.now) a }
{
    row_of(work, a * K::WIDTH)
}

// Writes wire `own`, behind those below it.
pub fn add_wire<K: ElementKind>(work: &mut [u8], own: usize, x: K)
    requires { suc own * K.kind.width ≤ length work.old }
    ensures { wires_in K.kind (suc own) work.new ≡ wires_in K.kind own work.old ++ (K.ElementKind.row x ∷ []) }
{
    write_row(work, own * K::WIDTH, x);
}
