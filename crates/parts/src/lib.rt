// The pieces that the hashes share: bytes, words, and states that take in blocks.
#![tactic(auto)]

ghost use Rattle.std.specs.Prelude.{◌≡◌, ◌+◌, ◌≤◌, length};
ghost use Rattle.parts.specs.Blocks.{written};

pub mod states;
pub mod words;

// Copies `src` over `dst` from the place `at` on.
pub fn put(dst: &mut [u8], at: usize, src: &[u8])
    requires { at + length src.now ≤ length dst.old }
    ensures { dst.new ≡ written dst.old at src.now }
{
    dst[at..at + src.len()].copy_from_slice(src);
}
