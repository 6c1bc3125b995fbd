// A hash's words, as bytes.
ghost use Rattle.std.specs.Prelude.{◌≡◌, ℕ, ◌+◌, ◌*◌, ◌≤◌, List, length, refl};
ghost use Rattle.std.specs.List.{flat_map};
ghost use Rattle.parts.specs.Words.{be32, le64, be32_at, le64_at};
ghost use Rattle.parts.specs.Blocks.{written};

use crate::put;

pub trait Word: Copy {
    // How many bytes a word has.
    const SIZE: usize;

    ghost SIZE: { ℕ };

    // The bytes of a word, and the word at a place of a string of bytes.
    ghost spelled: { Self → List ℕ };

    ghost at: { List ℕ → ℕ → Self };

    fn read(bytes: &[u8], t: usize) -> Self
        requires { SIZE * t + SIZE ≤ length bytes.now }
        ensures { result ≡ at bytes.now t };

    fn write(self, out: &mut [u8], t: usize)
        requires { SIZE * t + SIZE ≤ length out.old }
        ensures { out.new ≡ written out.old (SIZE * t) (spelled self) };

    ghost sized: { (x : Self) → length (spelled x) ≡ SIZE };
}

// The highest byte first.
impl Word for u32 {
    const SIZE: usize = 4;

    ghost SIZE = { 4 };

    ghost spelled = { be32 };

    ghost at = { be32_at };

    ghost sized = { λ x. refl };

    fn read(bytes: &[u8], t: usize) -> Self {
        let &[a, b, c, d] = &bytes[4 * t..4 * t + 4] else {
            unreachable!()
        };
        u32::from_be_bytes([a, b, c, d])
    }

    fn write(self, out: &mut [u8], t: usize) {
        put(out, 4 * t, &self.to_be_bytes());
    }
}

// The lowest byte first.
impl Word for u64 {
    const SIZE: usize = 8;

    ghost SIZE = { 8 };

    ghost spelled = { le64 };

    ghost at = { le64_at };

    ghost sized = { λ x. refl };

    fn read(bytes: &[u8], t: usize) -> Self {
        let &[a, b, c, d, e, f, g, h] = &bytes[8 * t..8 * t + 8] else {
            unreachable!()
        };
        u64::from_le_bytes([a, b, c, d, e, f, g, h])
    }

    fn write(self, out: &mut [u8], t: usize) {
        put(out, 8 * t, &self.to_le_bytes());
    }
}

// Writes words over the whole of `out`.
pub fn write_words<W: Word>(words: &[W], out: &mut [u8])
    requires { length out.old ≡ W.SIZE * length words.now }
    ensures { out.new ≡ flat_map W.spelled words.now }
{
    for (t, word) in words.iter().enumerate() {
        word.write(out, t);
    }
}
