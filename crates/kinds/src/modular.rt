// Arithmetic modulo a number of at most 32 bits, on rows of four bytes.
ghost use Rattle.std.specs.Prelude.{◌≡◌, ℕ, ◌+◌, ◌%◌, ◌<◌, ◌≤◌, refl, ⊤};
ghost use Rattle.kinds.specs.Numbers.{four_bytes};
ghost use Rattle.kinds.specs.Three.{modular};
ghost use Rattle.kinds.specs.ModularLaws.{modular_laws, lawful_four};
ghost use Rattle.kinds.specs.Equal.{same_number};
ghost use Rattle.std.proofs.Math.Bool.{and-true};
ghost use Rattle.std.proofs.Common.{arith, ◌∙◌, lt_of_le_of_lt};

use super::kind::{ElementKind, WrongLength};
use std::alloc::AllocError;
use std::marker::PhantomData;

// The largest remainder, one below the modulus, and the number of the kind that the modulus makes.
pub trait Modulus {
    const NUMBER: u8;

    // Of 32 bits: values compared with it are seen to be small, and the division of a sum becomes a subtraction.
    const LARGEST: u32;

    ghost NUMBER: { ℕ };

    ghost LARGEST: { ℕ };

    ghost most: { LARGEST < 4294967296 };
}

#[derive_where(Copy, PartialEq, Eq)]
pub struct Modular<M: Modulus> {
    value: u32,
    modulus: PhantomData<M>,
    ghost below: { value ≤ M.LARGEST },
}

impl<M: Modulus> Clone for Modular<M> {
    ghost is_clone = { λ x y. y ≡ x };

    ghost is_infallible = { λ _. ⊤ };

    fn clone(&self) -> Result<Self, AllocError> {
        Ok(*self)
    }
}

impl<M: Modulus> Modular<M> {
    fn reduced(n: u64) -> Self
        ensures { result.value ≡ n % (M.LARGEST + 1) }
    {
        Modular {
            value: (n % (M::LARGEST as u64 + 1)) as u32,
            modulus: PhantomData,
        }
    }
}

impl<M: Modulus> ElementKind for Modular<M> {
    const NUMBER: u8 = M::NUMBER;

    const WIDTH: usize = 4;

    ghost NUMBER = { M.NUMBER };

    ghost WIDTH = { 4 };

    ghost number_is = { refl };

    ghost width_is = { refl };

    ghost kind = { modular M.NUMBER (M.LARGEST + 1) };

    ghost row = { λ x. four_bytes x.value };

    ghost equal = { λ x y. and-true _ ∙ same_number x.value y.value (lt_of_le_of_lt x.below M.most) (lt_of_le_of_lt y.below M.most) };

    ghost laws = { modular_laws M.NUMBER (M.LARGEST + 1) (Prim.omega arith) (Prim.omega (arith, M.most)) };

    ghost lawful = { λ x. lawful_four M.NUMBER (M.LARGEST + 1) (Prim.omega arith) (Prim.omega (arith, M.most)) x.value (Prim.omega (arith, x.below)) };

    ghost same = { Prim.grind (arith, Self.row.coded.inj) };

    fn zero() -> Self {
        Modular {
            value: 0,
            modulus: PhantomData,
        }
    }

    fn sum(self, other: Self) -> Self {
        Self::reduced(self.value as u64 + other.value as u64)
    }

    fn negative(self) -> Self {
        Self::reduced(M::LARGEST as u64 + 1 - self.value as u64)
    }

    fn product(self, other: Self) -> Self {
        Self::reduced(self.value as u64 * other.value as u64)
    }

    fn read(bytes: &[u8]) -> Option<Self> {
        let value = u32::from_be_bytes(bytes.try_into().ok()?);
        if value <= M::LARGEST {
            Some(Modular {
                value,
                modulus: PhantomData,
            })
        } else {
            None
        }
    }

    fn write(self, out: &mut [u8]) -> Result<(), WrongLength> {
        if out.len() != 4 {
            return Err(WrongLength);
        }
        out.copy_from_slice(&self.value.to_be_bytes());
        Ok(())
    }
}
