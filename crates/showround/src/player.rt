// The engine's calls with buffers of their sizes.
use crate::stop::Stop;
use engine::{Branch, ElementKind, Extracted, Fault, Keeper, Lock, PickFault, Sealer, play_round};
use plays::{Opening, Works};
use std::alloc::{AllocError, Global};

// How long the buffers of a round are.
#[derive(Clone, Copy)]
pub struct Sizes {
    pub view: usize,
    pub first: usize,
    pub answer: usize,
    key: usize,
    work: usize,
}

impl Sizes {
    pub fn of<K: ElementKind, S: Sealer>(lock: Lock<'_>) -> Sizes {
        Sizes {
            view: lock.view_length::<K>(),
            first: lock.first_length::<K>(S::LENGTH as u8),
            answer: lock.answer_length::<K>(),
            key: lock.key_length::<K>(),
            work: lock.work_length::<K>(),
        }
    }
}

// A sealer, what is opened, and the sizes that go with it.
#[derive(Drop)]
pub struct Player<'a, S> {
    pub heap: Global,
    pub sealer: &'a S,
    pub opening: Opening<'a>,
    pub sizes: Sizes,
}

impl<S: Sealer> Player<'_, S> {
    pub fn zeros(&self, n: usize) -> Result<Vec<u8>, AllocError> {
        vec![in self.heap; 0u8; n]
    }

    // Room for the three views of one round.
    pub fn store(&self) -> Result<Vec<u8>, AllocError> {
        self.zeros(self.sizes.view.saturating_mul(3))
    }

    fn works(&self) -> Result<Works, AllocError> {
        Works::new(self.heap, [self.sizes.work; 3])
    }

    // A verifier and an extractor take two slices: the third is empty.
    fn two_works(&self) -> Result<Works, AllocError> {
        let work = self.sizes.work;
        Works::new(self.heap, [work, work, 0])
    }

    pub fn promise<K: ElementKind>(
        &self,
        keeper: &mut Keeper<'_>,
        first: &mut [u8],
    ) -> Result<usize, Stop> {
        let mut works = self.works()?;
        Ok(works.promise::<K, S>(keeper, self.sealer, self.opening, first)?)
    }

    // A whole round at a pick, on a keeper of its own: the answer. The first message goes into `first`.
    pub fn play<K: ElementKind>(&self, pick: Branch, first: &mut [u8]) -> Result<Vec<u8>, Stop> {
        let Opening { lock, key, tape } = self.opening;
        let mut store = self.store()?;
        let mut works = self.works()?;
        let mut answer = self.zeros(self.sizes.answer)?;
        play_round::<K, S>(
            self.sealer,
            lock,
            key,
            tape,
            pick.number(),
            self.sizes.view,
            store.as_mut_slice(),
            works.one.as_mut_slice(),
            works.two.as_mut_slice(),
            works.three.as_mut_slice(),
            first,
            answer.as_mut_slice(),
        )?;
        Ok(answer)
    }

    // The verifier's word.
    pub fn verify<K: ElementKind>(
        &self,
        first: &[u8],
        pick: u8,
        answer: &[u8],
    ) -> Result<Result<(), Fault>, AllocError> {
        let mut works = self.two_works()?;
        Ok(works.verify::<K, S>(self.sealer, self.opening.lock, first, pick, answer))
    }

    // What three answers give, and the key buffer afterwards.
    pub fn extract<K: ElementKind>(
        &self,
        first: &[u8],
        answers: &[Vec<u8>; 3],
    ) -> Result<(Result<Extracted, PickFault>, Vec<u8>), AllocError> {
        let [one, two, three] = answers;
        let mut key = self.zeros(self.sizes.key)?;
        let found = self.two_works()?.extract::<K, S>(
            self.sealer,
            self.opening.lock,
            first,
            one.as_slice(),
            two.as_slice(),
            three.as_slice(),
            key.as_mut_slice(),
        );
        Ok((found, key))
    }
}
