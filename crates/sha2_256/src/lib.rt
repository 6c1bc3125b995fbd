// SHA-256 (FIPS 180-4) as a sealer.
#![tactic(auto)]

ghost use Rattle.std.specs.Prelude.{◌≡◌, ◌/◌, ◌%◌, ◌^◌, ◌<◌, ◌++◌, length, refl};
ghost use Rattle.parts.specs.Blocks.{over_blocks};
ghost use Rattle.sha2_256.specs.Sha256.{compressed, padding, longest_message, sha256_sealing};
ghost use Rattle.std.proofs.Common.{lit≤};
ghost use Rattle.sha2_256.specs.Digest.{length_digest, digest_bytes};

use compression::HashValue;
use parts::put;
use parts::states::BlockState;
use parts::words::write_words;
use seals::Sealer;

mod compression;

const INITIAL: [u32; 8] = [
    0x6a09_e667,
    0xbb67_ae85,
    0x3c6e_f372,
    0xa54f_f53a,
    0x510e_527f,
    0x9b05_688c,
    0x1f83_d9ab,
    0x5be0_cd19,
];

impl HashValue {
    // Takes in the last bytes of a message of `total` bytes, with its padding.
    fn finish(&mut self, rest: &[u8], total: usize)
        requires last { length rest.now ≡ total % 64 }
        requires short { total < 2 ^ 61 }
        ensures { self.new.words ≡ over_blocks compressed 64 self.old.words (length (rest.now ++ padding total) / 64) (rest.now ++ padding total) }
    {
        let used = rest.len();
        let size = 64 * ((used + 72) / 64);
        let mut tail = [0; 128];
        put(&mut tail, 0, rest);
        tail[used] = 0x80;
        let bits = (8 * total as u64).to_be_bytes();
        put(&mut tail, size - 8, &bits);
        self.absorb(&tail[..size]);
    }
}

#[derive(Clone, Copy)]
pub struct Sha256;

impl Sealer for Sha256 {
    const LENGTH: usize = 32;

    const LONGEST: usize = 65_535;

    ghost LENGTH = { 32 };

    ghost LONGEST = { longest_message };

    ghost sealing = { sha256_sealing };

    ghost length_is = { refl };

    ghost longest_is = { refl };

    ghost sound = { record { some_size = lit≤ tt; most_size = lit≤ tt; sized = length_digest; bytes = digest_bytes } };

    fn digest(&self, message: &[u8], out: &mut [u8]) {
        let mut hash = HashValue { words: INITIAL };
        let rest = hash.absorb(message);
        hash.finish(rest, message.len());
        write_words(&hash.words, out);
    }
}
