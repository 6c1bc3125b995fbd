// The keeper's calls: each only tests, takes itself apart, and hands the store on.
ghost use Rattle.std.specs.Prelude.{◌≡◌, ◌≤◌, length};
ghost use Rattle.theory.specs.Keeper.{made_from, state_of, with_state, round_open, answer_branch, answer_result, answer_after, after_answer, drop_result, after_drop};
ghost use Rattle.keeper.specs.Model.{values_of};

use super::Keeper;
use super::parts::{end_round, rounds_in, spend};
use arrayvec::ArrayVec;
use faults::{Branch, Fault, Reason};
use theory::RoundState;

impl<'a> Keeper<'a> {
    // Holds as many rounds of views of that length as the store has room for, which may be none.
    pub fn new(view_length: usize, store: &'a mut [u8]) -> Keeper<'a>
        ensures value { values_of result ≡ made_from view_length store.old }
        ensures named { result.store.ghost_name ≡ store.entry.ghost_name }
    {
        let capacity = rounds_in(view_length, store.len());
        Keeper {
            store,
            view_length,
            capacity,
            records: ArrayVec::new(),
        }
    }

    // The record of a round, if it was promised.
    fn record(&self, round: usize) -> Option<RoundState>
        ensures { result ≡ state_of self.now.records.items round }
    {
        self.records.get(round.checked_sub(1)?).copied()
    }

    // Whether a round is promised, and neither answered nor dropped.
    fn open_round(&self, round: usize) -> Result<(), Fault>
        ensures { result ≡ round_open (values_of self.now) round }
    {
        match self.record(round) {
            None => Err(Fault::at(Reason::UnknownRound, round)),
            Some(RoundState::Promised) => Ok(()),
            Some(RoundState::Answered | RoundState::Dropped) => Err(Fault::at(
                Reason::SpentRound,
                round,
            )),
        }
    }

    // The branch of a pick that a round may answer into a buffer of that size.
    fn answerable(&self, round: usize, pick: u8, size: usize) -> Result<Branch, Fault>
        ensures { result ≡ answer_branch (values_of self.now) round pick size }
    {
        self.open_round(round)?;
        let branch = Branch::try_from(pick)?;
        if size != 3 + 2 * self.view_length {
            return Err(Fault::at(Reason::WrongSize, 1));
        }
        Ok(branch)
    }

    // Changes the record of a promised round.
    fn mark(&mut self, round: usize, state: RoundState)
        requires low { 1 ≤ round }
        requires high { round ≤ length self.old.records.items }
        ensures table { self.new.records.items ≡ with_state self.old.records.items round state }
        ensures view { self.new.view_length ≡ self.old.view_length }
        ensures room { self.new.capacity ≡ self.old.capacity }
        ensures store { self.new.store.now ≡ self.old.store.now }
        ensures named { self.new.store.ghost_name ≡ self.old.store.ghost_name }
    {
        self.records[round - 1] = state;
    }

    // Opens the views of two branches of a round, once.
    pub fn answer(&mut self, round: usize, pick: u8, out: &mut [u8]) -> Result<(), Fault>
        ensures outcome { result ≡ answer_result (values_of self.old) round pick (length out.old) }
        ensures after { values_of self.new ≡ after_answer (values_of self.old) round pick (length out.old) }
        ensures shown { out.new ≡ answer_after (values_of self.old) round pick out.old }
        ensures named { self.new.store.ghost_name ≡ self.old.store.ghost_name }
    {
        let branch = self.answerable(round, pick, out.len())?;
        spend(self.store, self.view_length, round, branch, out);
        self.mark(round, RoundState::Answered);
        Ok(())
    }

    // Gives a round up: nothing of it is ever shown.
    pub fn drop_round(&mut self, round: usize) -> Result<(), Fault>
        ensures outcome { result ≡ drop_result (values_of self.old) round }
        ensures after { values_of self.new ≡ after_drop (values_of self.old) round }
        ensures named { self.new.store.ghost_name ≡ self.old.store.ghost_name }
    {
        self.open_round(round)?;
        end_round(self.store, self.view_length, round);
        self.mark(round, RoundState::Dropped);
        Ok(())
    }
}
