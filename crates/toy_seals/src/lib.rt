// Sealers that forget most of a message, for tests alone: unlike messages share a seal.
#![tactic(auto)]

ghost use Rattle.std.specs.Prelude.{◌≡◌, refl};
ghost use Rattle.toy_seals.specs.Toy.{last_of, lawful, toy};
ghost use Rattle.toy_seals.specs.Sound.{lawful_sound};

use seals::Sealer;

// The last byte's seven low bits; 0 where there is no byte.
fn last(message: &[u8]) -> u8
    ensures { result ≡ last_of message.now }
{
    match message {
        [.., last] => *last % 128,
        [] => 0,
    }
}

// Seals of `SIZE` bytes, or of the nearest length that a seal may have, all alike; for messages of at most `MOST` bytes.
#[derive(Clone, Copy)]
pub struct Toy<const SIZE: usize, const MOST: usize>;

impl<const SIZE: usize, const MOST: usize> Sealer for Toy<SIZE, MOST> {
    const LENGTH: usize = if SIZE < 1 {
        1
    } else if SIZE > 64 {
        64
    } else {
        SIZE
    };

    const LONGEST: usize = MOST;

    ghost LENGTH = { lawful SIZE };

    ghost LONGEST = { MOST };

    ghost sealing = { toy (lawful SIZE) MOST };

    ghost length_is = { refl };

    ghost longest_is = { refl };

    ghost sound = { lawful_sound SIZE MOST };

    fn digest(&self, message: &[u8], out: &mut [u8]) {
        out.fill(last(message));
    }
}

pub type Short = Toy<1, 48>;

pub const SHORT: Short = Toy;

pub type Wide = Toy<64, 65_535>;

pub const WIDE: Wide = Toy;
