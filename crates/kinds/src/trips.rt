// Rows and elements are told by one another: what follows, once for every kind, from the interface.
ghost use Rattle.std.specs.Prelude.{◌≡◌, ◌&&◌, length, if◌then◌else◌, Some, None, ◌==◌, nat_eq};

use super::kind::ElementKind;

// Reading a written row gives the element.
pub fn written_then_read<K: ElementKind>(x: K, out: &mut [u8]) -> Option<K>
    ensures { result ≡ (if nat_eq (length out.old) K.kind.width then Some x else None) }
{
    match x.write(out) {
        Ok(()) => K::read(out),
        Err(_) => None,
    }
}

// Writing what was read gives the row; says whether it was written.
pub fn read_then_written<K: ElementKind>(row: &[u8], out: &mut [u8]) -> bool
    ensures done { result ≡ K.kind.lawful row.now && (length out.old == K.kind.width) }
    ensures left { out.new ≡ (if K.kind.lawful row.now && length out.old == K.kind.width then row.now else out.old) }
{
    match K::read(row) {
        Some(x) => x.write(out).is_ok(),
        None => false,
    }
}
