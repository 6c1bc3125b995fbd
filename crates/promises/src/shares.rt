// The third branch's shares.
ghost use Rattle.std.specs.Prelude.{◌≡◌, length};
ghost use Rattle.std.specs.List.{AllByRecursion};
ghost use Rattle.kinds.specs.Kind.{Lawful};
ghost use Rattle.kinds.specs.Groups.{group_length};
ghost use Rattle.theory.specs.Algebra.{ops_of};
ghost use Rattle.theory.specs.Runs.{less};
ghost use Rattle.theory.specs.Groups.{group_bytes};

use branches::group::Group;
use branches::groups::put_element;
use kinds::kind::ElementKind;

// Writes the key's elements minus the other two branches' shares of them over the whole of `out`.
pub(crate) fn third_shares<K: ElementKind>(
    key: &Group<'_, K>,
    share1: &Group<'_, K>,
    share2: &Group<'_, K>,
    out: &mut [u8],
)
    requires sized { length out.old ≡ group_length K.kind (length key.now) }
    requires counted { (length share1.now ≡ length key.now) × (length share2.now ≡ length key.now) }
    ensures bytes { out.new ≡ group_bytes K.kind (less (ops_of K.kind) (less (ops_of K.kind) key.now share1.now) share2.now) }
    ensures lawful { AllByRecursion (Lawful K.kind) (less (ops_of K.kind) (less (ops_of K.kind) key.now share1.now) share2.now) }
{
    let count = key.len();
    let shares = key.elements().zip(share1.elements()).zip(share2.elements());
    for (i, ((whole, first), second)) in shares.enumerate() {
        let share = whole.sum(first.negative()).sum(second.negative());
        put_element(out, count, i, share);
    }
}
