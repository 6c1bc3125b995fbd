// The calls of a round with work slices of their own, for tests and programs that have a heap.
#![tactic(auto)]

ghost use Rattle.std.specs.Prelude.{◌≡◌, ◌↔◌, IfOk, IsTrue, All, length, slice_index, vec_len};
ghost use Rattle.keeper.specs.Model.{values_of};
ghost use Rattle.theory.specs.Extraction.{by_branch, extracted};
ghost use Rattle.theory.specs.Keeper.{given as given_to, promise_result};
ghost use Rattle.theory.specs.Verdict.{verified};

use extractor::extract::extract;
use faults::Fault;
use keeper::Keeper;
use kinds::kind::ElementKind;
use seals::Sealer;
use std::alloc::{AllocError, Global};
use theory::{Extracted, PickFault};
use verifier::verify::verify;

// A lock, a key and a tape.
#[derive(Clone, Copy)]
pub struct Opening<'a> {
    pub lock: &'a [u8],
    pub key: &'a [u8],
    pub tape: &'a [u8],
}

// Three work slices; each call finds them full.
#[derive(Drop)]
pub struct Works {
    pub one: Vec<u8>,
    pub two: Vec<u8>,
    pub three: Vec<u8>,
}

// Whether every byte is this one.
pub fn all(bytes: &[u8], value: u8) -> bool
    ensures { IsTrue result ↔ All (λ b. b ≡ value) bytes.now }
{
    bytes.iter().all(|byte| *byte == value)
}

impl Works {
    pub fn new(heap: Global, lengths: [usize; 3]) -> Result<Works, AllocError>
        ensures one { IfOk result (λ works. vec_len works.one ≡ slice_index lengths 0) }
        ensures two { IfOk result (λ works. vec_len works.two ≡ slice_index lengths 1) }
        ensures three { IfOk result (λ works. vec_len works.three ≡ slice_index lengths 2) }
    {
        let [one, two, three] = lengths;
        Ok(Works {
            one: vec![in heap; 0u8; one]?,
            two: vec![in heap; 0u8; two]?,
            three: vec![in heap; 0u8; three]?,
        })
    }

    fn fill(&mut self)
        ensures one { vec_len self.new.one ≡ vec_len self.old.one }
        ensures two { vec_len self.new.two ≡ vec_len self.old.two }
        ensures three { vec_len self.new.three ≡ vec_len self.old.three }
    {
        self.one.as_mut_slice().fill(7);
        self.two.as_mut_slice().fill(8);
        self.three.as_mut_slice().fill(9);
    }

    // Whether a call left nothing in them.
    pub fn are_zero(&self) -> bool
        ensures { IsTrue result ↔ (All (λ b. b ≡ 0) self.now.one.items × All (λ b. b ≡ 0) self.now.two.items × All (λ b. b ≡ 0) self.now.three.items) }
    {
        all(self.one.as_slice(), 0) && all(self.two.as_slice(), 0) && all(self.three.as_slice(), 0)
    }

    pub fn promise<K: ElementKind, S: Sealer>(
        &mut self,
        keeper: &mut Keeper<'_>,
        sealer: &S,
        opening: Opening<'_>,
        first: &mut [u8],
    ) -> Result<usize, Fault>
        ensures { result ≡ promise_result (values_of keeper.old) (given_to K.ElementKind.kind S.Sealer.sealing opening.entry.lock.now opening.entry.key.now opening.entry.tape.now (vec_len self.old.one) (vec_len self.old.two) (vec_len self.old.three) (length first.old)) }
    {
        self.fill();
        keeper.promise::<K, S>(
            sealer,
            opening.lock,
            opening.key,
            opening.tape,
            self.one.as_mut_slice(),
            self.two.as_mut_slice(),
            self.three.as_mut_slice(),
            first,
        )
    }

    // The third slice stays as it is.
    pub fn verify<K: ElementKind, S: Sealer>(
        &mut self,
        sealer: &S,
        lock: &[u8],
        first: &[u8],
        pick: u8,
        answer: &[u8],
    ) -> Result<(), Fault>
        ensures { result ≡ verified K.kind S.sealing lock.now first.now pick answer.now (vec_len self.old.one) (vec_len self.old.two) }
    {
        self.fill();
        let (one, two) = (self.one.as_mut_slice(), self.two.as_mut_slice());
        verify::<K, S>(sealer, lock, first, pick, answer, one, two)
    }

    // The answers are those to picks 1, 2 and 3. The third slice stays as it is.
    pub fn extract<'a, K: ElementKind, S: Sealer>(
        &mut self,
        sealer: &S,
        lock: &[u8],
        first: &[u8],
        one: &'a [u8],
        two: &'a [u8],
        three: &'a [u8],
        key: &mut [u8],
    ) -> Result<Extracted, PickFault>
        ensures { result ≡ extracted K.kind S.sealing lock.now first.now (by_branch one.now two.now three.now) (vec_len self.old.one) (vec_len self.old.two) (length key.old) }
    {
        self.fill();
        let (work1, work2) = (self.one.as_mut_slice(), self.two.as_mut_slice());
        extract::<K, S>(sealer, lock, first, one, two, three, work1, work2, key)
    }
}
