// One element's row in bytes.
ghost use Rattle.std.specs.Prelude.{◌≡◌, ◌+◌, ◌≤◌, false, length, MatchOption};
ghost use Rattle.kinds.specs.Kind.{Lawful};
ghost use Rattle.branches.specs.Rows.{row_at, put_row};

use kinds::kind::ElementKind;

pub(crate) fn read_row<K: ElementKind>(bytes: &[u8], at: usize) -> Option<K>
    requires { at + K.kind.width ≤ length bytes.now }
    ensures { MatchOption result (K.kind.lawful (row_at K.kind.width at bytes.now) ≡ false) (λ x. K.ElementKind.row x ≡ row_at K.kind.width at bytes.now) }
{
    K::read(&bytes[at..at + K::WIDTH])
}

// The element of a row that is known to be lawful.
pub fn lawful_row<K: ElementKind>(bytes: &[u8]) -> K
    requires { Lawful K.kind bytes.now }
    ensures { K.ElementKind.row result ≡ bytes.now }
{
    match K::read(bytes) {
        Some(x) => x,
        None => unreachable(),
    }
}

pub(crate) fn row_of<K: ElementKind>(bytes: &[u8], at: usize) -> K
    requires within { at + K.kind.width ≤ length bytes.now }
    requires lawful { Lawful K.kind (row_at K.kind.width at bytes.now) }
    ensures { K.ElementKind.row result ≡ row_at K.kind.width at bytes.now }
{
    lawful_row(&bytes[at..at + K::WIDTH])
}

pub(crate) fn write_row<K: ElementKind>(bytes: &mut [u8], at: usize, x: K)
    requires { at + K.kind.width ≤ length bytes.old }
    ensures { bytes.new ≡ put_row K.kind.width at (K.ElementKind.row x) bytes.old }
{
    let _ = x.write(&mut bytes[at..at + K::WIDTH]);
}
