// The interface of an element kind: its definition, and elements that keep to it.
ghost use Rattle.std.specs.Prelude.{◌≡◌, ℕ, true, false, List, length, is_ok, if◌then◌else◌, MatchOption, ◌==◌, nat_eq};
ghost use Rattle.kinds.specs.Kind.{Kind, Laws, same_row};

// A row was asked for in more or fewer bytes than it has.
#[derive(Clone, Copy)]
pub struct WrongLength;

pub trait ElementKind: Copy + Eq {
    // By this number a lock says its kind.
    const NUMBER: u8;

    // A row has so many bytes.
    const WIDTH: usize;

    ghost NUMBER: { ℕ };

    ghost WIDTH: { ℕ };

    ghost kind: { Kind };

    ghost row: { Self → List ℕ };

    fn zero() -> Self
        ensures { row result ≡ kind.zero };

    fn sum(self, other: Self) -> Self
        ensures { row result ≡ kind.add (row self) (row other) };

    fn negative(self) -> Self
        ensures { row result ≡ kind.neg (row self) };

    fn product(self, other: Self) -> Self
        ensures { row result ≡ kind.mul (row self) (row other) };

    // The element with this row, if there is one.
    fn read(bytes: &[u8]) -> Option<Self>
        ensures { MatchOption result (kind.lawful bytes.now ≡ false) (λ x. row x ≡ bytes.now) };

    fn write(self, out: &mut [u8]) -> Result<(), WrongLength>
        ensures done { is_ok result ≡ (length out.old == kind.width) }
        ensures left { out.new ≡ (if nat_eq (length out.old) kind.width then row self else out.old) };

    ghost number_is: { NUMBER ≡ kind.number };

    ghost width_is: { WIDTH ≡ kind.width };

    ghost equal: { (x y : Self) → Self.eq x y ≡ same_row (row x) (row y) };

    ghost laws: { Laws kind };

    ghost lawful: { (x : Self) → kind.lawful (row x) ≡ true };

    ghost same: { (x y : Self) → row x ≡ row y → x ≡ y };
}
