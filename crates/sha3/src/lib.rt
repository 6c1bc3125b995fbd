// SHA3-256 (FIPS 202) as a sealer.
#![tactic(auto)]

ghost use Rattle.std.specs.Prelude.{◌≡◌, ◌/◌, ◌%◌, ◌++◌, length, refl};
ghost use Rattle.parts.specs.Blocks.{over_blocks};
ghost use Rattle.sha3.specs.Sha3.{xored, absorbed, padding, longest_message, sha3_256_sealing};
ghost use Rattle.std.proofs.Common.{lit<, lit≤};
ghost use Rattle.sha3.specs.Digest.{length_digest, digest_bytes};

use keccak::permute;
use parts::put;
use parts::states::BlockState;
use parts::words::{Word, write_words};
use seals::Sealer;

mod keccak;

fn mix_in(a: &mut [u64; 25], block: &[u8])
    requires { length block.now ≡ 136 }
    ensures { a.new ≡ xored a.old block.now }
{
    for (i, lane) in a[..17].iter_mut().enumerate() {
        *lane ^= u64::read(block, i);
    }
}

#[derive(Clone, Copy)]
struct Sponge {
    lanes: [u64; 25],
}

impl BlockState for Sponge {
    const BLOCK: usize = 136;

    ghost BLOCK = { 136 };

    ghost words = { λ s. s.lanes };

    ghost step = { absorbed };

    ghost some_block = { lit< tt };

    // A function of its own, so that the loop over blocks takes none of its registers.
    #[inline(never)]
    fn take_in(&mut self, block: &[u8]) {
        mix_in(&mut self.lanes, block);
        permute(&mut self.lanes);
    }
}

impl Sponge {
    // Takes in the last bytes of a message of `total` bytes, with its padding.
    fn finish(&mut self, rest: &[u8], total: usize)
        requires { length rest.now ≡ total % 136 }
        ensures { self.new.lanes ≡ over_blocks absorbed 136 self.old.lanes (length (rest.now ++ padding total) / 136) (rest.now ++ padding total) }
    {
        let mut tail = [0; 136];
        put(&mut tail, 0, rest);
        tail[rest.len()] = 0x06;
        tail[135] |= 0x80;
        self.absorb(&tail);
    }
}

#[derive(Clone, Copy)]
pub struct Sha3_256;

impl Sealer for Sha3_256 {
    const LENGTH: usize = 32;

    const LONGEST: usize = 65_535;

    ghost LENGTH = { 32 };

    ghost LONGEST = { longest_message };

    ghost sealing = { sha3_256_sealing };

    ghost length_is = { refl };

    ghost longest_is = { refl };

    ghost sound = { record { some_size = lit≤ tt; most_size = lit≤ tt; sized = length_digest; bytes = digest_bytes } };

    fn digest(&self, message: &[u8], out: &mut [u8]) {
        let mut sponge = Sponge { lanes: [0; 25] };
        let rest = sponge.absorb(message);
        sponge.finish(rest, message.len());
        write_words(&sponge.lanes[..4], out);
    }
}
