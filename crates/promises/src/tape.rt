// A tape: its parts as bytes, and one that was read, whose elements are lawful.
ghost use Rattle.std.specs.Prelude.{◌≡◌, ◌+◌, ◌*◌, ◌^◌, ◌<◌, ◌≤◌, length, take, drop};
ghost use Rattle.faults.specs.Outcomes.{map_ok};
ghost use Rattle.faults.specs.declared.Reason.{Reason};
ghost use Rattle.kinds.specs.Groups.{group_length};
ghost use Rattle.theory.specs.Groups.{group};
ghost use Rattle.theory.specs.Keeper.{tape_right};
ghost use Rattle.theory.specs.Messages.{length_of_tape, tape_of, tape_shares_at, tape_masks_at};
ghost use Rattle.theory.specs.Tests.{lawful_at};
ghost use Rattle.promises.specs.Drawn.{drawn_in};
ghost use Rattle.promises.specs.Tapes.{Cut, Sized, drawn_of};

use branches::group::Group;
use branches::groups::group_length;
use branches::lock::OpenLock;
use branches::views::BLIND_LENGTH;
use faults::{Branch, Fault, Reason};
use kinds::kind::ElementKind;
use std::marker::Model;

// Three blinds, the shares of branches 1 and 2, the masks of all three.
#[derive(Clone, Copy)]
pub struct Tape<'a> {
    pub blind1: &'a [u8],
    pub blind2: &'a [u8],
    pub blind3: &'a [u8],
    pub share1: &'a [u8],
    pub share2: &'a [u8],
    pub mask1: &'a [u8],
    pub mask2: &'a [u8],
    pub mask3: &'a [u8],
}

// A tape that was read: contracts see its blinds and elements.
#[derive(Drop)]
pub struct LawfulTape<'a, K: ElementKind> {
    pub(crate) blind1: &'a [u8],
    pub(crate) blind2: &'a [u8],
    pub(crate) blind3: &'a [u8],
    pub(crate) share1: Group<'a, K>,
    pub(crate) share2: Group<'a, K>,
    pub(crate) mask1: Group<'a, K>,
    pub(crate) mask2: Group<'a, K>,
    pub(crate) mask3: Group<'a, K>,
}

impl<'a, K: ElementKind> Model for LawfulTape<'a, K> {
    ghost use Rattle.promises.specs.Drawn.{Drawn};

    ghost Value = { Drawn };

    ghost view = { λ t. record { blind1 = t.blind1.now; blind2 = t.blind2.now; blind3 = t.blind3.now; parts = record { share1 = t.share1; share2 = t.share2; mask1 = t.mask1; mask2 = t.mask2; mask3 = t.mask3 } } };
}

// Where a branch's shares begin in a tape.
fn shares_at<K: ElementKind>(lock: &OpenLock<'_, K>, branch: Branch) -> usize
    ensures { result ≡ tape_shares_at K.kind lock.now branch }
{
    3 * BLIND_LENGTH + branch.before() * group_length::<K>(lock.input_count())
}

// Where a branch's masks begin.
fn masks_at<K: ElementKind>(lock: &OpenLock<'_, K>, branch: Branch) -> usize
    ensures { result ≡ tape_masks_at K.kind lock.now branch }
{
    let shares_end = 3 * BLIND_LENGTH + 2 * group_length::<K>(lock.input_count());
    shares_end + branch.before() * group_length::<K>(lock.product_count())
}

// `size` bytes from an offset on.
fn part(tape: &[u8], at: usize, size: usize) -> &[u8]
    requires { at + size ≤ length tape.now }
    ensures { result.now ≡ take size (drop at tape.now) }
{
    &tape[at..at + size]
}

impl<'a> Tape<'a> {
    // The parts of a tape for a lock.
    pub fn cut<K: ElementKind>(lock: &OpenLock<'_, K>, bytes: &'a [u8]) -> Tape<'a>
        requires { length bytes.now ≡ length_of_tape K.kind lock.now }
        ensures { Cut K.kind lock.now bytes.now result }
    {
        let shares = group_length::<K>(lock.input_count());
        let masks = group_length::<K>(lock.product_count());
        Tape {
            blind1: part(bytes, 0, BLIND_LENGTH),
            blind2: part(bytes, BLIND_LENGTH, BLIND_LENGTH),
            blind3: part(bytes, 2 * BLIND_LENGTH, BLIND_LENGTH),
            share1: part(bytes, shares_at(lock, Branch::One), shares),
            share2: part(bytes, shares_at(lock, Branch::Two), shares),
            mask1: part(bytes, masks_at(lock, Branch::One), masks),
            mask2: part(bytes, masks_at(lock, Branch::Two), masks),
            mask3: part(bytes, masks_at(lock, Branch::Three), masks),
        }
    }
}

// A part of a tape, whose n elements begin at an offset of it.
fn read_part<'a, K: ElementKind>(
    bytes: &'a [u8],
    n: usize,
    at: usize,
) -> Result<Group<'a, K>, Fault>
    requires sized { length bytes.now ≡ group_length K.kind n }
    requires near { at + group_length K.kind n < 2 ^ 64 }
    ensures { result ≡ map_ok (λ _. group K.kind n bytes.now) (lawful_at K.kind Reason.UnlawfulTape at (group K.kind n bytes.now)) }
{
    Group::read_at(bytes, n, Reason::UnlawfulTape, at)
}

impl<'a, K: ElementKind> LawfulTape<'a, K> {
    pub fn read(lock: &OpenLock<'_, K>, bytes: &'a [u8]) -> Result<LawfulTape<'a, K>, Fault>
        requires { length bytes.now ≡ length_of_tape K.kind lock.now }
        ensures { result ≡ map_ok (λ _. drawn_in K.kind lock.now bytes.now) (tape_right K.kind lock.now (tape_of K.kind lock.now bytes.now)) }
    {
        LawfulTape::read_parts(lock, Tape::cut(lock, bytes))
    }

    // An unlawful element is told by its offset in the whole tape.
    pub fn read_parts(lock: &OpenLock<'_, K>, tape: Tape<'a>) -> Result<LawfulTape<'a, K>, Fault>
        requires { Sized K.kind lock.now tape }
        ensures { result ≡ map_ok (λ _. drawn_of K.kind lock.now tape.entry) (tape_right K.kind lock.now (drawn_of K.kind lock.now tape.entry).parts) }
    {
        let inputs = lock.input_count();
        let products = lock.product_count();
        Ok(LawfulTape {
            blind1: tape.blind1,
            blind2: tape.blind2,
            blind3: tape.blind3,
            share1: read_part(tape.share1, inputs, shares_at(lock, Branch::One))?,
            share2: read_part(tape.share2, inputs, shares_at(lock, Branch::Two))?,
            mask1: read_part(tape.mask1, products, masks_at(lock, Branch::One))?,
            mask2: read_part(tape.mask2, products, masks_at(lock, Branch::Two))?,
            mask3: read_part(tape.mask3, products, masks_at(lock, Branch::Three))?,
        })
    }
}
