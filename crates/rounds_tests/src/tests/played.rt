// Rounds that are answered at each pick, until the key comes back.
use keeper::Keeper;
use kinds::bit::Bit;
use kinds::kind::ElementKind;
use kinds::residue::Residue;
use kinds::word::Word;
use plays::{Opening, Works};
use samples::built::squares;
use samples::worked::{BIT_KEY, BIT_NUMBERS, BITS, KEY, NUMBERS, RESIDUES, WORDS, tape};
use seals::Sealer;
use sha2_256::Sha256;
use sha3::Sha3_256;
use std::process::Abort;
use std::test::Fail;
use theory::Extracted;
use toy_seals::{SHORT, Short, WIDE, Wide};

// What is played, and how long its answers are.
#[derive(Clone, Copy)]
struct Play<'a> {
    opening: Opening<'a>,
    answer: usize,
}

impl Play<'_> {
    // One round on a keeper of its own, answered at a pick and verified.
    fn answered<K: ElementKind, S: Sealer>(
        self,
        rt: &(impl Abort + AllocGlobal),
        sealer: &S,
        pick: u8,
        first: &mut [u8],
    ) -> Result<Vec<u8>, Fail> {
        let heap = rt.alloc();
        let view = (self.answer / 2).saturating_sub(1);
        let mut store = vec![in heap; 1u8; self.answer.saturating_mul(2)]?;
        let mut answer = vec![in heap; 0u8; self.answer]?;
        let mut works = Works::new(heap, [self.answer; 3])?;
        let mut keeper = Keeper::new(view, store.as_mut_slice());
        let promised = works.promise::<K, S>(&mut keeper, sealer, self.opening, first);
        assert_eq!(rt; promised, Ok(1));
        assert_eq!(rt; keeper.answer(1, pick, answer.as_mut_slice()), Ok(()));
        let lock = self.opening.lock;
        let verified = works.verify::<K, S>(sealer, lock, first, pick, answer.as_slice());
        assert_eq!(rt; verified, Ok(()));
        Ok(answer)
    }

    // Three rounds with one tape, at picks 1, 2 and 3: each accepted, and the key comes back. The first message has `length` bytes.
    fn gives_key<K: ElementKind, S: Sealer>(
        self,
        rt: &(impl Abort + AllocGlobal),
        sealer: &S,
        length: usize,
    ) -> Result<(), Fail> {
        let Opening { lock, key, .. } = self.opening;
        let mut first = vec![in rt.alloc(); 0u8; length]?;
        let first = first.as_mut_slice();
        let one = self.answered::<K, S>(rt, sealer, 1, first)?;
        let two = self.answered::<K, S>(rt, sealer, 2, first)?;
        let three = self.answered::<K, S>(rt, sealer, 3, first)?;
        let mut works = Works::new(rt.alloc(), [self.answer; 3])?;
        let mut found = vec![in rt.alloc(); 0u8; key.len()]?;
        let extracted = works.extract::<K, S>(
            sealer,
            lock,
            first,
            one.as_slice(),
            two.as_slice(),
            three.as_slice(),
            found.as_mut_slice(),
        );
        assert_eq!(rt; extracted, Ok(Extracted::Key));
        assert!(rt; found.as_slice() == key);
        Ok(())
    }
}

// A lock over words or residues.
fn numbers<'a>(lock: &'a [u8], tape: &'a [u8]) -> Play<'a> {
    Play {
        opening: Opening {
            lock,
            key: &KEY,
            tape,
        },
        answer: 99,
    }
}

fn bits(tape: &[u8]) -> Play<'_> {
    Play {
        opening: Opening {
            lock: &BITS,
            key: &BIT_KEY,
            tape,
        },
        answer: 75,
    }
}

#[test]
fn every_kind_and_sealer(rt: HostRuntime) -> Result<(), Fail> {
    let tape_of_numbers = tape(rt.alloc(), [9; 3], &NUMBERS)?;
    let tape_of_bits = tape(rt.alloc(), [9; 3], &BIT_NUMBERS)?;
    let words = numbers(&WORDS, tape_of_numbers.as_slice());
    words.gives_key::<Word, Sha256>(&rt, &Sha256, 110)?;
    words.gives_key::<Word, Sha3_256>(&rt, &Sha3_256, 110)?;
    let residues = numbers(&RESIDUES, tape_of_numbers.as_slice());
    residues.gives_key::<Residue, Sha256>(&rt, &Sha256, 110)?;
    residues.gives_key::<Residue, Sha3_256>(&rt, &Sha3_256, 110)?;
    let bits = bits(tape_of_bits.as_slice());
    bits.gives_key::<Bit, Sha256>(&rt, &Sha256, 101)?;
    bits.gives_key::<Bit, Sha3_256>(&rt, &Sha3_256, 101)
}

// Seals of 1 and of 64 bytes.
#[test]
fn short_and_long_seals(rt: HostRuntime) -> Result<(), Fail> {
    let tape_of_numbers = tape(rt.alloc(), [9; 3], &NUMBERS)?;
    let tape_of_bits = tape(rt.alloc(), [9; 3], &BIT_NUMBERS)?;
    let words = numbers(&WORDS, tape_of_numbers.as_slice());
    let residues = numbers(&RESIDUES, tape_of_numbers.as_slice());
    let bits = bits(tape_of_bits.as_slice());
    words.gives_key::<Word, Short>(&rt, &SHORT, 17)?;
    residues.gives_key::<Residue, Wide>(&rt, &WIDE, 206)?;
    bits.gives_key::<Bit, Short>(&rt, &SHORT, 8)?;
    bits.gives_key::<Bit, Wide>(&rt, &WIDE, 197)
}

// The shortest view that a lock has, 33 bytes, and the longest, 65,535.
#[test]
fn short_and_long_views(rt: HostRuntime) -> Result<(), Fail> {
    for (products, tape, answer) in [(0, 98, 69), (32_751, 98_351, 131_073)] {
        let lock = squares(rt.alloc(), products, 1)?;
        let tape = vec![in rt.alloc(); 1u8; tape]?;
        let opening = Opening {
            lock: lock.as_slice(),
            key: &[1],
            tape: tape.as_slice(),
        };
        Play { opening, answer }.gives_key::<Bit, Sha256>(&rt, &Sha256, 101)?;
    }
    Ok(())
}
