// Elements of a group (a key, shares, masks, products, output shares), in the one layout that groups have in bytes.
ghost use Rattle.std.specs.Prelude.{◌≡◌, ◌+◌, ◌*◌, ◌^◌, ◌<◌, ◌≤◌, length, drop, slice_set};
ghost use Rattle.std.specs.List.{AllByRecursion};
ghost use Rattle.kinds.specs.Kind.{Lawful};
ghost use Rattle.kinds.specs.Groups.{group_length};
ghost use Rattle.theory.specs.Algebra.{ops_of};
ghost use Rattle.theory.specs.Runs.{read};
ghost use Rattle.theory.specs.Groups.{group, element_at};
ghost use Rattle.theory.specs.Tests.{unlawful, lawful_at};
ghost use Rattle.branches.specs.Wires.{wires_in};

use crate::rows::{read_row, row_of, write_row};
use crate::wires::add_wire;
use faults::{Fault, Reason};
use kinds::kind::ElementKind;

// The bytes of a group of n elements.
pub fn group_length<K: ElementKind>(n: usize) -> usize
    requires { group_length K.kind n < 2 ^ 64 }
    ensures { result ≡ group_length K.kind n }
{
    n * K::WIDTH
}

// Where element i begins in its group.
pub fn element_at<K: ElementKind>(i: usize) -> usize
    requires { element_at K.kind i < 2 ^ 64 }
    ensures { result ≡ element_at K.kind i }
{
    i * K::WIDTH
}

// Element i of the group of n at the front of the bytes.
pub fn element<K: ElementKind>(bytes: &[u8], n: usize, i: usize) -> K
    requires below { i < n }
    requires within { group_length K.kind n ≤ length bytes.now }
    requires lawful { AllByRecursion (Lawful K.kind) (group K.kind n bytes.now) }
    ensures { K.ElementKind.row result ≡ read (ops_of K.kind) (group K.kind n bytes.now) i }
{
    row_of(bytes, element_at::<K>(i))
}

// Writes element i of the group of n at the front of the bytes; what lies behind the group stays.
pub fn put_element<K: ElementKind>(bytes: &mut [u8], n: usize, i: usize, x: K)
    requires below { i < n }
    requires within { group_length K.kind n ≤ length bytes.old }
    ensures put { group K.kind n bytes.new ≡ slice_set (group K.kind n bytes.old) i (K.ElementKind.row x) }
    ensures behind { drop (group_length K.kind n) bytes.new ≡ drop (group_length K.kind n) bytes.old }
{
    write_row(bytes, element_at::<K>(i), x);
}

// Is element i lawful?
fn is_lawful<K: ElementKind>(bytes: &[u8], n: usize, i: usize) -> bool
    requires below { i < n }
    requires within { group_length K.kind n ≤ length bytes.now }
    ensures { result ≡ K.kind.lawful (read (ops_of K.kind) (group K.kind n bytes.now) i) }
{
    read_row::<K>(bytes, element_at::<K>(i)).is_some()
}

// The first unlawful element of a group.
pub fn first_unlawful<K: ElementKind>(bytes: &[u8], n: usize) -> Option<usize>
    requires { group_length K.kind n ≤ length bytes.now }
    ensures { result ≡ unlawful K.kind (group K.kind n bytes.now) }
{
    for i in 0..n {
        if !is_lawful::<K>(bytes, n, i) {
            return Some(i);
        }
    }
    None
}

// A group of n elements that stands at `place`: an unlawful element is told by its own place.
pub fn lawful_group<K: ElementKind>(
    bytes: &[u8],
    n: usize,
    reason: Reason,
    place: usize,
) -> Result<(), Fault>
    requires within { group_length K.kind n ≤ length bytes.now }
    requires near { place + group_length K.kind n < 2 ^ 64 }
    ensures { result ≡ lawful_at K.kind reason place (group K.kind n bytes.now) }
{
    match first_unlawful::<K>(bytes, n) {
        Some(i) => Err(Fault::at(reason, place + element_at::<K>(i))),
        None => Ok(()),
    }
}

// The elements of a group as the first wires of a work space.
pub fn wires_from_group<K: ElementKind>(bytes: &[u8], n: usize, work: &mut [u8])
    requires within { group_length K.kind n ≤ length bytes.now }
    requires room { n * K.kind.width ≤ length work.old }
    requires lawful { AllByRecursion (Lawful K.kind) (group K.kind n bytes.now) }
    ensures { wires_in K.kind n work.new ≡ group K.kind n bytes.now }
{
    for i in 0..n {
        let x: K = element(bytes, n, i);
        add_wire(work, i, x);
    }
}
