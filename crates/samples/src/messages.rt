// First messages and answers of the worked lock over words, made by hand.
ghost use Rattle.std.specs.Prelude.{◌≡◌, ◌+◌, ◌*◌, IfOk, length, vec_len};

use faults::Branch;
use seals::Sealer;
use std::alloc::{AllocError, Global};
use std::test::Fail;

// Products and output shares of the three branches; shares and masks are fixed.
#[derive(Clone, Copy)]
pub struct Round {
    pub products: [u32; 3],
    pub outputs: [u32; 3],
}

// 333, -75 and -246; the first branch adds 5.
pub const HONEST: Round = Round {
    products: [333, 4_294_967_221, 4_294_967_050],
    outputs: [338, 4_294_967_221, 4_294_967_050],
};

// One more in the product and in the output share of branch 1, 2, 3: they sum to 18.
pub const FORGED: [Round; 3] = [
    Round {
        products: [334, 4_294_967_221, 4_294_967_050],
        outputs: [339, 4_294_967_221, 4_294_967_050],
    },
    Round {
        products: [333, 4_294_967_222, 4_294_967_050],
        outputs: [338, 4_294_967_222, 4_294_967_050],
    },
    Round {
        products: [333, 4_294_967_221, 4_294_967_051],
        outputs: [338, 4_294_967_221, 4_294_967_051],
    },
];

// The sum is right, but the output shares of branches 1 and 2 are not what those branches give.
pub const SHIFTED: Round = Round {
    products: [333, 4_294_967_221, 4_294_967_050],
    outputs: [339, 4_294_967_220, 4_294_967_050],
};

// Bytes, and numbers of four bytes behind them.
pub fn joined(heap: Global, head: &[u8], numbers: &[u32]) -> Result<Vec<u8>, AllocError>
    ensures { IfOk result (λ bytes. vec_len bytes ≡ length head.now + 4 * length numbers.now) }
{
    let mut bytes = head.to_vec(heap)?;
    for number in numbers {
        bytes.extend_from_slice(&number.to_be_bytes())?;
    }
    Ok(bytes)
}

impl Round {
    // 32 blind bytes that are alike, two shares, a mask and the product.
    pub fn view(self, heap: Global, branch: Branch, blind: u8) -> Result<Vec<u8>, AllocError>
        ensures { IfOk result (λ view. vec_len view ≡ 48) }
    {
        let [one, two, three] = self.products;
        let numbers = match branch {
            Branch::One => [10, 20, 100, one],
            Branch::Two => [1, 2, 7, two],
            Branch::Three => [4_294_967_288, 4_294_967_278, 50, three],
        };
        joined(heap, &[blind; 32], &numbers)
    }

    // Mark, output shares and seals. The blinds are the branches' numbers.
    pub fn first<S: Sealer>(self, heap: Global, sealer: &S) -> Result<Vec<u8>, Fail>
        ensures { IfOk result (λ first. vec_len first ≡ 14 + 3 * S.sealing.size) }
    {
        let mut bytes = joined(heap, b"FM", &self.outputs)?;
        for branch in [Branch::One, Branch::Two, Branch::Three] {
            let view = self.view(heap, branch, branch.number())?;
            let mut seal = vec![in heap; 0u8; S::LENGTH]?;
            sealer.seal(view.as_slice(), seal.as_mut_slice())?;
            bytes.extend_from_slice(seal.as_slice())?;
        }
        Ok(bytes)
    }

    // Mark, pick, the view of the picked branch and the one after it.
    pub fn answer(self, heap: Global, pick: Branch) -> Result<Vec<u8>, AllocError>
        ensures { IfOk result (λ answer. vec_len answer ≡ 99) }
    {
        let mut bytes = [b'A', b'N', pick.number()].to_vec(heap)?;
        for branch in [pick, pick.after()] {
            let view = self.view(heap, branch, branch.number())?;
            bytes.extend_from_slice(view.as_slice())?;
        }
        Ok(bytes)
    }
}

// Turns the lowest bit of one byte.
pub fn turn(bytes: &mut Vec<u8>, offset: usize) {
    if let Some(byte) = bytes.get_mut(offset) {
        *byte ^= 1;
    }
}
