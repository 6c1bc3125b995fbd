// A promise.
ghost use Rattle.std.specs.Prelude.{◌≡◌, [], length};
ghost use Rattle.theory.specs.Tests.{left};
ghost use Rattle.theory.specs.Keeper.{given as given_to, promise_result, first_after, after_promise, kept, work_after};
ghost use Rattle.keeper.specs.Model.{values_of};
ghost use Rattle.keeper.specs.Promise.{next_round, tested, lengths_of, promised_to, views_for, first_for};

use super::Keeper;
use super::parts::store_round;
use super::tests::{Lengths, read_secrets, test_sizes};
use branches::bytes::clear;
use branches::lock::OpenLock;
use faults::{Fault, Reason};
use kinds::kind::ElementKind;
use seals::Sealer;
use theory::RoundState;

impl<'a> Keeper<'a> {
    // The number of the next round, if there is one left.
    fn next_round(&self) -> Result<usize, Fault>
        ensures { result ≡ next_round (values_of self.now) }
    {
        if self.records.len() < self.capacity {
            Ok(self.records.len() + 1)
        } else {
            Err(Fault::at(Reason::KeeperFull, self.capacity))
        }
    }

    // The tests of a promise that look at no secret; gives the round.
    fn test_promise<K: ElementKind, S: Sealer>(
        &self,
        lock: &OpenLock<'_, K>,
        given: Lengths,
    ) -> Result<usize, Fault>
        ensures { result ≡ tested (values_of self.now) K.ElementKind.kind S.Sealer.sealing lock.now given }
    {
        test_sizes::<K, S>(lock, given)?;
        if lock.view_length() != self.view_length {
            return Err(Fault::at(Reason::WrongSize, 7));
        }
        self.next_round()
    }

    // A promise whose lock was read. A refusal leaves all but the first work space as it was.
    fn promise_lock<K: ElementKind, S: Sealer>(
        &mut self,
        sealer: &S,
        lock: &OpenLock<'_, K>,
        key: &[u8],
        tape: &[u8],
        work1: &mut [u8],
        work2: &mut [u8],
        work3: &mut [u8],
        first: &mut [u8],
    ) -> Result<usize, Fault>
        ensures outcome { result ≡ promised_to (values_of self.old) K.ElementKind.kind S.Sealer.sealing lock.now key.now tape.now (lengths_of (length key.now) (length tape.now) (length work1.old) (length work2.old) (length work3.old) (length first.old)) }
        ensures after { values_of self.new ≡ left result (λ n. kept (values_of self.old) n (views_for K.ElementKind.kind lock.now key.now tape.now)) (values_of self.old) }
        ensures shown { first.new ≡ left result (λ _. first_for K.ElementKind.kind lock.now key.now tape.now S.Sealer.sealing) first.old }
        ensures named { self.new.store.ghost_name ≡ self.old.store.ghost_name }
    {
        let given = Lengths {
            key: key.len(),
            tape: tape.len(),
            work1: work1.len(),
            work2: work2.len(),
            work3: work3.len(),
            first: first.len(),
        };
        let round = self.test_promise::<K, S>(lock, given)?;
        let (key, tape) = read_secrets(lock, key, tape, work1)?;
        store_round(
            self.store,
            self.view_length,
            round,
            sealer,
            lock,
            &key,
            &tape,
            work1,
            work2,
            work3,
            first,
        );
        self.records.push(RoundState::Promised);
        Ok(round)
    }

    fn make_round<K: ElementKind, S: Sealer>(
        &mut self,
        sealer: &S,
        lock: &[u8],
        key: &[u8],
        tape: &[u8],
        work1: &mut [u8],
        work2: &mut [u8],
        work3: &mut [u8],
        first: &mut [u8],
    ) -> Result<usize, Fault>
        ensures outcome { result ≡ promise_result (values_of self.old) (given_to K.ElementKind.kind S.Sealer.sealing lock.now key.now tape.now (length work1.old) (length work2.old) (length work3.old) (length first.old)) }
        ensures after { values_of self.new ≡ after_promise (values_of self.old) (given_to K.ElementKind.kind S.Sealer.sealing lock.now key.now tape.now (length work1.old) (length work2.old) (length work3.old) (length first.old)) }
        ensures shown { first.new ≡ first_after (values_of self.old) (given_to K.ElementKind.kind S.Sealer.sealing lock.now key.now tape.now (length work1.old) (length work2.old) (length work3.old) (length first.old)) first.old }
        ensures named { self.new.store.ghost_name ≡ self.old.store.ghost_name }
    {
        let lock = OpenLock::<K>::read(lock)?;
        self.promise_lock(sealer, &lock, key, tape, work1, work2, work3, first)
    }

    // Commits to a run of the key: writes the three views into the round's place and their seals into the first message.
    pub fn promise<K: ElementKind, S: Sealer>(
        &mut self,
        sealer: &S,
        lock: &[u8],
        key: &[u8],
        tape: &[u8],
        work1: &mut [u8],
        work2: &mut [u8],
        work3: &mut [u8],
        first: &mut [u8],
    ) -> Result<usize, Fault>
        ensures outcome { result ≡ promise_result (values_of self.old) (given_to K.ElementKind.kind S.Sealer.sealing lock.now key.now tape.now (length work1.old) (length work2.old) (length work3.old) (length first.old)) }
        ensures after { values_of self.new ≡ after_promise (values_of self.old) (given_to K.ElementKind.kind S.Sealer.sealing lock.now key.now tape.now (length work1.old) (length work2.old) (length work3.old) (length first.old)) }
        ensures shown { first.new ≡ first_after (values_of self.old) (given_to K.ElementKind.kind S.Sealer.sealing lock.now key.now tape.now (length work1.old) (length work2.old) (length work3.old) (length first.old)) first.old }
        ensures work1 { work1.new ≡ work_after work1.old }
        ensures work2 { work2.new ≡ work_after work2.old }
        ensures work3 { work3.new ≡ work_after work3.old }
        ensures named { self.new.store.ghost_name ≡ self.old.store.ghost_name }
    {
        let outcome = self.make_round::<K, S>(sealer, lock, key, tape, work1, work2, work3, first);
        clear(work1);
        clear(work2);
        clear(work3);
        outcome
    }
}
