// The residue kind: rows below p = 2,147,483,647, arithmetic modulo p.
ghost use Rattle.std.proofs.Common.{lit≤};

use super::modular::{Modular, Modulus};
use super::name::KindName;

pub type Residue = Modular<Mersenne31>;

pub struct Mersenne31;

// A number of its own, since a pattern takes no constant of a generic type.
impl Residue {
    pub const NUMBER: u8 = Mersenne31::NUMBER;
}

impl Modulus for Mersenne31 {
    const NUMBER: u8 = KindName::Residue as u8;

    const LARGEST: u32 = 2_147_483_646;

    ghost NUMBER = { 3 };

    ghost LARGEST = { 2147483646 };

    ghost most = { lit≤ tt };
}
