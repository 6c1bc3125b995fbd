// Byte lengths that follow from a lock's counts.
ghost use Rattle.std.specs.Prelude.{◌≡◌, ◌*◌, ◌^◌, ◌≤◌};
ghost use Rattle.kinds.specs.Groups.{group_length};
ghost use Rattle.locks.specs.Lengths.{view_length};

use kinds::kind::ElementKind;

// The bytes of a group of n elements.
pub(crate) fn group_length<K: ElementKind>(n: usize) -> usize
    requires { n ≤ 8589934592 }
    ensures value { result ≡ group_length K.kind n }
    ensures bound { result ≤ n * 16 }
{
    n * K::WIDTH
}

// The bytes of a view with so many inputs and products.
pub(crate) fn view_length<K: ElementKind>(inputs: usize, products: usize) -> usize
    requires few { (inputs ≤ 4294967296) × (products ≤ 4294967296) }
    ensures value { result ≡ view_length K.kind inputs products }
    ensures bound { result ≤ 2 ^ 40 }
{
    32 + group_length::<K>(inputs) + 2 * group_length::<K>(products)
}
