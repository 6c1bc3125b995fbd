// What stands before the products in a view: blind, shares, masks.
ghost use Rattle.std.specs.Prelude.{◌≡◌, ◌+◌, ◌++◌, length};
ghost use Rattle.std.specs.List.{AllByRecursion};
ghost use Rattle.faults.specs.declared.Branch.TheVariants.{Three as three};
ghost use Rattle.kinds.specs.Kind.{Lawful};
ghost use Rattle.theory.specs.Algebra.{ops_of};
ghost use Rattle.theory.specs.Branches.{shares_of};
ghost use Rattle.theory.specs.Groups.{group_bytes};
ghost use Rattle.theory.specs.Messages.{products_at};
ghost use Rattle.promises.specs.Drawn.{Fitting};

use crate::shares::third_shares;
use crate::tape::LawfulTape;
use branches::group::Group;
use branches::lock::OpenLock;
use kinds::kind::ElementKind;

// Writes them over the whole of `front`.
pub(crate) fn write_front(front: &mut [u8], blind: &[u8], shares: &[u8], masks: &[u8])
    requires { length front.old ≡ length blind.now + (length shares.now + length masks.now) }
    ensures { front.new ≡ blind.now ++ (shares.now ++ masks.now) }
{
    let (blind_place, rest) = front.split_at_mut(blind.len());
    let (shares_place, masks_place) = rest.split_at_mut(shares.len());
    blind_place.copy_from_slice(blind);
    shares_place.copy_from_slice(shares);
    masks_place.copy_from_slice(masks);
}

// The third view's, whose shares are computed.
pub(crate) fn write_third_front<K: ElementKind>(
    lock: &OpenLock<'_, K>,
    key: &Group<'_, K>,
    tape: &LawfulTape<'_, K>,
    front: &mut [u8],
)
    requires fitting { Fitting lock.now key.now tape.now }
    requires sized { length front.old ≡ products_at K.kind lock.now }
    ensures front { front.new ≡ tape.now.blind3 ++ (group_bytes K.kind (shares_of (ops_of K.kind) key.now tape.now.parts three) ++ group_bytes K.kind tape.now.parts.mask3) }
    ensures lawful { AllByRecursion (Lawful K.kind) (shares_of (ops_of K.kind) key.now tape.now.parts three) }
{
    let (blind_place, rest) = front.split_at_mut(tape.blind3.len());
    let (shares_place, masks_place) = rest.split_at_mut(lock.key_length());
    blind_place.copy_from_slice(tape.blind3);
    third_shares(key, &tape.share1, &tape.share2, shares_place);
    masks_place.copy_from_slice(tape.mask3.bytes());
}
