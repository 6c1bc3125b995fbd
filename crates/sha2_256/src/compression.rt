// The hash value, and what a block makes of it.
ghost use Rattle.std.specs.Prelude.{◌≡◌, ◌≤◌, map, length, take, slice_index_or};
ghost use Rattle.std.specs.List.{range_with_len};
ghost use Rattle.sha2_256.specs.Keyed.{keyed_round, keyed_rounds};
ghost use Rattle.std.proofs.Common.{lit<};
ghost use Rattle.sha2_256.specs.Sha256.{◌⊞◌, ch, maj, Σ0, Σ1, σ0, σ1, k, schedule, rounds, compressed};

use parts::states::BlockState;
use parts::words::Word;
use std::array;

const K: [u32; 64] = [
    0x428a_2f98,
    0x7137_4491,
    0xb5c0_fbcf,
    0xe9b5_dba5,
    0x3956_c25b,
    0x59f1_11f1,
    0x923f_82a4,
    0xab1c_5ed5,
    0xd807_aa98,
    0x1283_5b01,
    0x2431_85be,
    0x550c_7dc3,
    0x72be_5d74,
    0x80de_b1fe,
    0x9bdc_06a7,
    0xc19b_f174,
    0xe49b_69c1,
    0xefbe_4786,
    0x0fc1_9dc6,
    0x240c_a1cc,
    0x2de9_2c6f,
    0x4a74_84aa,
    0x5cb0_a9dc,
    0x76f9_88da,
    0x983e_5152,
    0xa831_c66d,
    0xb003_27c8,
    0xbf59_7fc7,
    0xc6e0_0bf3,
    0xd5a7_9147,
    0x06ca_6351,
    0x1429_2967,
    0x27b7_0a85,
    0x2e1b_2138,
    0x4d2c_6dfc,
    0x5338_0d13,
    0x650a_7354,
    0x766a_0abb,
    0x81c2_c92e,
    0x9272_2c85,
    0xa2bf_e8a1,
    0xa81a_664b,
    0xc24b_8b70,
    0xc76c_51a3,
    0xd192_e819,
    0xd699_0624,
    0xf40e_3585,
    0x106a_a070,
    0x19a4_c116,
    0x1e37_6c08,
    0x2748_774c,
    0x34b0_bcb5,
    0x391c_0cb3,
    0x4ed8_aa4a,
    0x5b9c_ca4f,
    0x682e_6ff3,
    0x748f_82ee,
    0x78a5_636f,
    0x84c8_7814,
    0x8cc7_0208,
    0x90be_fffa,
    0xa450_6ceb,
    0xbef9_a3f7,
    0xc671_78f2,
];

fn choose(x: u32, y: u32, z: u32) -> u32
    ensures { result ≡ ch x y z }
{
    z ^ (x & (y ^ z))
}

fn majority(x: u32, y: u32, z: u32) -> u32
    ensures { result ≡ maj x y z }
{
    (x & y) ^ (x & z) ^ (y & z)
}

fn upper0(x: u32) -> u32
    ensures { result ≡ Σ0 x }
{
    x.rotate_right(2) ^ x.rotate_right(13) ^ x.rotate_right(22)
}

fn upper1(x: u32) -> u32
    ensures { result ≡ Σ1 x }
{
    x.rotate_right(6) ^ x.rotate_right(11) ^ x.rotate_right(25)
}

fn lower0(x: u32) -> u32
    ensures { result ≡ σ0 x }
{
    x.rotate_right(7) ^ x.rotate_right(18) ^ (x >> 3)
}

fn lower1(x: u32) -> u32
    ensures { result ≡ σ1 x }
{
    x.rotate_right(17) ^ x.rotate_right(19) ^ (x >> 10)
}

// The first sixteen words of the schedule: those of the block.
fn first_words(block: &[u8]) -> [u32; 64]
    requires { length block.now ≡ 64 }
    ensures { take 16 result ≡ schedule 16 block.now }
{
    let mut w = [0; 64];
    for (t, word) in w[..16].iter_mut().enumerate() {
        *word = u32::read(block, t);
    }
    w
}

fn expand(block: &[u8]) -> [u32; 64]
    requires { length block.now ≡ 64 }
    ensures { result ≡ schedule 64 block.now }
{
    let mut w = first_words(block);
    for t in 16..64 {
        w[t] = lower1(w[t - 2])
            .wrapping_add(w[t - 7])
            .wrapping_add(lower0(w[t - 15]))
            .wrapping_add(w[t - 16]);
    }
    w
}

// The schedule with the constants added, in an array of its own so that a round reads one word.
fn add_constants(w: &[u32; 64]) -> [u32; 64]
    ensures { result ≡ map (λ t. slice_index_or k t 0 ⊞ slice_index_or w.now t 0) (range_with_len 0 64) }
{
    array::from_fn(|t| K[t].wrapping_add(w[t]))
}

// One round, for the sum of its constant and its word.
fn turn(s: &mut [u32; 8], keyed: u32)
    ensures { s.new ≡ keyed_round s.old keyed }
{
    let [a, b, c, d, e, f, g, h] = *s;
    let t1 = h
        .wrapping_add(upper1(e))
        .wrapping_add(choose(e, f, g))
        .wrapping_add(keyed);
    let t2 = upper0(a).wrapping_add(majority(a, b, c));
    *s = [t1.wrapping_add(t2), a, b, c, d.wrapping_add(t1), e, f, g];
}

// Eight rounds: as many as the compiler writes out, so that the variables change their names and not their places.
fn eight_turns(s: &mut [u32; 8], eight: &[u32])
    requires { 8 ≤ length eight.now }
    ensures { s.new ≡ keyed_rounds s.old (take 8 eight.now) }
{
    for keyed in &eight[..8] {
        turn(s, *keyed);
    }
}

fn mix(w: &[u32; 64], s: &[u32; 8]) -> [u32; 8]
    ensures { result ≡ rounds 64 w.now s.now }
{
    let mut turned = *s;
    for eight in add_constants(w).chunks_exact(8) {
        eight_turns(&mut turned, eight);
    }
    turned
}

#[derive(Clone, Copy)]
pub struct HashValue {
    pub words: [u32; 8],
}

impl BlockState for HashValue {
    const BLOCK: usize = 64;

    ghost BLOCK = { 64 };

    ghost words = { λ h. h.words };

    ghost step = { compressed };

    ghost some_block = { lit< tt };

    fn take_in(&mut self, block: &[u8]) {
        let w = expand(block);
        let v = mix(&w, &self.words);
        self.words = array::from_fn(|i| v[i].wrapping_add(self.words[i]));
    }
}
