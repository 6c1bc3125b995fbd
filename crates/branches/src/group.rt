// A group of lawful elements in lent bytes, one behind the other: contracts see their rows.
ghost use Rattle.std.specs.Prelude.{◌≡◌, ℕ, ◌+◌, ◌^◌, ◌<◌, ◌≤◌, length, IfOk};
ghost use Rattle.std.specs.List.{AllByRecursion};
ghost use Rattle.faults.specs.Outcomes.{map_ok};
ghost use Rattle.kinds.specs.Kind.{Lawful};
ghost use Rattle.kinds.specs.Groups.{group_length};
ghost use Rattle.theory.specs.Algebra.{ops_of};
ghost use Rattle.theory.specs.Runs.{read};
ghost use Rattle.theory.specs.Groups.{group, group_bytes};
ghost use Rattle.theory.specs.Tests.{unlawful, lawful_at};
ghost use Rattle.branches.specs.Holding.{unless};

use crate::groups::{element, element_at, first_unlawful, group_length, put_element};
use crate::rows::lawful_row;
use faults::{Fault, Reason};
use kinds::kind::ElementKind;
use std::marker::{Model, PhantomData};

#[derive(Drop)]
pub struct Group<'a, K: ElementKind> {
    bytes: &'a [u8],
    count: usize,
    kind: PhantomData<K>,
}

impl<'a, K: ElementKind> Model for Group<'a, K> {
    ghost use Rattle.std.specs.Prelude.{ℕ, List};
    ghost use Rattle.theory.specs.Groups.{group};
    ghost use Rattle.branches.specs.Holding.{Holds};

    ghost Value = { List (List ℕ) };

    ghost view = { λ g. group K.kind g.count g.bytes.now };

    ghost invariant = { λ g. Holds K.kind g.count g.bytes.now };
}

impl<'a, K: ElementKind> Group<'a, K> {
    // The n elements at the front of the bytes, or the number of the first unlawful one.
    pub fn read(bytes: &'a [u8], n: usize) -> Result<Group<'a, K>, usize>
        requires { group_length K.kind n ≤ length bytes.now }
        ensures { result ≡ unless (unlawful K.kind (group K.kind n bytes.now)) (group K.kind n bytes.now) }
    {
        match first_unlawful::<K>(bytes, n) {
            Some(i) => Err(i),
            None => Ok(Group::lawful(bytes, n)),
        }
    }

    // A group that stands at `place`: an unlawful element is told by its own place.
    pub fn read_at(
        bytes: &'a [u8],
        n: usize,
        reason: Reason,
        place: usize,
    ) -> Result<Group<'a, K>, Fault>
        requires within { group_length K.kind n ≤ length bytes.now }
        requires near { place + group_length K.kind n < 2 ^ 64 }
        ensures verdict { map_ok (λ _. tt) result ≡ lawful_at K.kind reason place (group K.kind n bytes.now) }
        ensures group { IfOk result (λ g. g ≡ group K.kind n bytes.now) }
    {
        match Group::read(bytes, n) {
            Ok(group) => Ok(group),
            Err(i) => Err(Fault::at(reason, place + element_at::<K>(i))),
        }
    }

    // The n elements at the front of bytes that are known to be lawful.
    pub fn lawful(bytes: &'a [u8], n: usize) -> Group<'a, K>
        requires within { group_length K.kind n ≤ length bytes.now }
        requires lawful { AllByRecursion (Lawful K.kind) (group K.kind n bytes.now) }
        ensures { result ≡ group K.kind n bytes.now }
    {
        Group {
            bytes: &bytes[..group_length::<K>(n)],
            count: n,
            kind: PhantomData,
        }
    }

    pub fn len(&self) -> usize
        ensures count { result ≡ length self.now }
        ensures lawful { AllByRecursion (Lawful K.kind) self.now }
    {
        self.count
    }

    pub fn element(&self, i: usize) -> K
        requires { i < length self.now }
        ensures { K.ElementKind.row result ≡ read (ops_of K.kind) self.now i }
    {
        element(self.bytes, self.count, i)
    }

    pub fn bytes(&self) -> &'a [u8]
        ensures bytes { result.now ≡ group_bytes K.kind self.now }
        ensures sized { length result.now ≡ group_length K.kind (length self.now) }
    {
        self.bytes
    }

    pub fn elements(&self) -> Elements<'a, K>
        ensures { result ≡ self.now }
    {
        Elements {
            rest: self.bytes,
            left: self.count,
            kind: PhantomData,
        }
    }
}

impl<'g, 'a, K: ElementKind> IntoIterator for &'g Group<'a, K> {
    type Item = K;

    type IntoIter = Elements<'a, K>;

    ghost into_iter_gives = { λ g it. it ≡ g.now };

    fn into_iter(self) -> Elements<'a, K> {
        self.elements()
    }
}

// Fills the bytes with n elements, each made of its number.
pub fn write_group<K: ElementKind, F: Fn(usize) -> K>(bytes: &mut [u8], n: usize, element: F)
    requires sized { length bytes.old ≡ group_length K.kind n }
    requires can { (i : ℕ) → i < n → F.pre element i }
    ensures { (i : ℕ) → i < n → (x : _) × F.post element i x × (read (ops_of K.kind) (group K.kind n bytes.new) i ≡ K.ElementKind.row x) }
{
    for i in 0..n {
        put_element(bytes, n, i, element(i));
    }
}

// The elements of a group that are left on a walk over it.
#[derive(Drop)]
pub struct Elements<'a, K: ElementKind> {
    rest: &'a [u8],
    left: usize,
    kind: PhantomData<K>,
}

impl<'a, K: ElementKind> Model for Elements<'a, K> {
    ghost use Rattle.std.specs.Prelude.{ℕ, List};
    ghost use Rattle.theory.specs.Groups.{group};
    ghost use Rattle.branches.specs.Holding.{Holds};

    ghost Value = { List (List ℕ) };

    ghost view = { λ e. group K.kind e.left e.rest.now };

    ghost invariant = { λ e. Holds K.kind e.left e.rest.now };
}

impl<'a, K: ElementKind> Iterator for Elements<'a, K> {
    type Item = K;

    ghost use Rattle.std.specs.Iterator.{YieldsFirstBy, item_count};

    ghost next_gives = { YieldsFirstBy K.ElementKind.row (λ s. s) };

    ghost remaining = { item_count (λ s. s) };

    fn next(&mut self) -> Option<K> {
        if self.left == 0 {
            return None;
        }
        let rest = self.rest;
        let width = K::WIDTH;
        self.left -= 1;
        self.rest = &rest[width..];
        Some(lawful_row(&rest[..width]))
    }
}
