// The word kind: every row of four bytes, arithmetic modulo 2^32.
ghost use Rattle.std.proofs.Common.{lit≤};

use super::modular::{Modular, Modulus};
use super::name::KindName;

pub type Word = Modular<TwoTo32>;

pub struct TwoTo32;

// A number of its own, since a pattern takes no constant of a generic type.
impl Word {
    pub const NUMBER: u8 = TwoTo32::NUMBER;
}

impl Modulus for TwoTo32 {
    const NUMBER: u8 = KindName::Word as u8;

    const LARGEST: u32 = 4_294_967_295;

    ghost NUMBER = { 2 };

    ghost LARGEST = { 4294967295 };

    ghost most = { lit≤ tt };
}
