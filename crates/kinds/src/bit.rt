// The bit kind: rows 0 and 1, exclusive or, and.
ghost use Rattle.std.specs.Prelude.{◌<◌, [], ◌∷◌, refl};
ghost use Rattle.kinds.specs.Three.{bit_kind};
ghost use Rattle.kinds.specs.BitLaws.{bit_laws};
ghost use Rattle.std.proofs.Common.{rules, arith};

use super::kind::{ElementKind, WrongLength};
use super::name::KindName;

// A byte and no bool: sums of bools compile to slower code.
#[derive(Clone, Copy, PartialEq, Eq)]
pub struct Bit {
    value: u8,
    ghost below: { value < 2 },
}

impl ElementKind for Bit {
    const NUMBER: u8 = KindName::Bit as u8;

    const WIDTH: usize = 1;

    ghost NUMBER = { 1 };

    ghost WIDTH = { 1 };

    ghost number_is = { refl };

    ghost width_is = { refl };

    ghost kind = { bit_kind };

    ghost row = { λ x. x.value ∷ [] };

    ghost equal = { Prim.search rules };

    ghost laws = { bit_laws };

    ghost lawful = { Prim.search rules };

    ghost same = { Prim.grind (arith, Self.row.coded.inj) };

    fn zero() -> Bit {
        Bit { value: 0 }
    }

    fn sum(self, other: Bit) -> Bit {
        Bit {
            value: self.value ^ other.value,
        }
    }

    fn negative(self) -> Bit {
        self
    }

    fn product(self, other: Bit) -> Bit {
        Bit {
            value: self.value & other.value,
        }
    }

    fn read(bytes: &[u8]) -> Option<Bit> {
        match bytes {
            [value] if *value < 2 => Some(Bit { value: *value }),
            _ => None,
        }
    }

    fn write(self, out: &mut [u8]) -> Result<(), WrongLength> {
        if out.len() != 1 {
            return Err(WrongLength);
        }
        out.copy_from_slice(&[self.value]);
        Ok(())
    }
}
