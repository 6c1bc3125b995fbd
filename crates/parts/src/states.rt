// A hash's state, which takes in a message block by block.
ghost use Rattle.std.specs.Prelude.{◌≡◌, ℕ, ◌*◌, ◌/◌, ◌<◌, List, length, drop};
ghost use Rattle.parts.specs.Blocks.{over_blocks};

pub trait BlockState {
    // How many bytes a block has.
    const BLOCK: usize;

    ghost BLOCK: { ℕ };

    // The state as numbers, and what a block makes of it.
    ghost words: { Self → List ℕ };

    ghost step: { List ℕ → List ℕ → List ℕ };

    fn take_in(&mut self, block: &[u8])
        requires { length block.now ≡ BLOCK }
        ensures { words self.new ≡ step (words self.old) block.now };

    // Takes in the whole blocks of `bytes`, and returns what is left of it.
    fn absorb<'a>(&mut self, bytes: &'a [u8]) -> &'a [u8]
        ensures state { words self.new ≡ over_blocks step BLOCK (words self.old) (length bytes.now / BLOCK) bytes.now }
        ensures rest { result.now ≡ drop (BLOCK * (length bytes.now / BLOCK)) bytes.now }
    {
        let blocks = bytes.chunks_exact(Self::BLOCK);
        let rest = blocks.remainder();
        for block in blocks {
            self.take_in(block);
        }
        rest
    }

    ghost some_block: { 0 < BLOCK };
}
