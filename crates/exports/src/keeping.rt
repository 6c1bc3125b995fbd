// A keeper whose state is the caller's: made, answering, dropping.
ghost use Rattle.std.specs.Prelude.{◌≡◌, ℕ, List, length, replicate, Option, Some, None, Result};
ghost use Rattle.faults.specs.declared.Fault.{Fault};
ghost use Rattle.theory.specs.Keeper.{Keeper as Values, made_from, answer_result, answer_after, after_answer, drop_result, after_drop};
ghost use Rattle.keeper.specs.Model.{values_of, resumed_from};
ghost use Rattle.std.proofs.Common.{rules};
ghost use Rattle.std.specs.Option.{option_map_or};
ghost use Rattle.exports.specs.Outcomes.{status_of, fault_of};
ghost use Rattle.exports.specs.State.{keeper_in, state_new};
ghost use Rattle.exports.specs.Kept.{Keeps, drop_keeps, answer_keeps};
ghost use Rattle.exports.specs.Keeping.{Leaves, told_in, store_in, state_in, next_in, buffer_in};

use crate::tell::tell;
use crate::told::{KeeperState, Refusal, ToldFault};
use faults::Fault;
use keeper::Keeper;
use theory::RoundState;

// What is asked of a keeper, with the buffer that it fills.
pub(crate) trait Request {
    ghost outcome: { Self → Values → Result (Unit {0}) Fault };

    ghost after: { Self → Values → Values };

    // How the buffer is left, by a keeper or where there is none.
    ghost Shows: { Option Values → Self → Self → Type 0 };

    fn put(&mut self, keeper: &mut Keeper<'_>) -> Result<(), Fault>
        ensures outcome { result ≡ outcome self.old (values_of keeper.old) }
        ensures after { values_of keeper.new ≡ after self.old (values_of keeper.old) }
        ensures shows { Shows (Some (values_of keeper.old)) self.old self.new }
        ensures named { keeper.new.store.ghost_name ≡ keeper.old.store.ghost_name };

    ghost keeps: { (asked : Self) (keeper : Values) → Keeps keeper (outcome asked keeper) (after asked keeper) };

    ghost untouched: { (asked : Self) → Shows None asked asked };
}

#[derive(Drop)]
struct GivingUp {
    round: usize,
}

impl Request for GivingUp {
    ghost outcome = { λ asked keeper. drop_result keeper asked.round };

    ghost after = { λ asked keeper. after_drop keeper asked.round };

    ghost Shows = { λ _ _ _. Unit {0} };

    ghost keeps = { λ asked keeper. drop_keeps keeper asked.round };

    ghost untouched = { λ _. tt };

    fn put(&mut self, keeper: &mut Keeper<'_>) -> Result<(), Fault> {
        keeper.drop_round(self.round)
    }
}

#[derive(Drop)]
struct Answering<'a> {
    round: usize,
    pick: u8,
    answer: &'a mut [u8],
}

impl Request for Answering<'_> {
    ghost outcome = { λ asked keeper. answer_result keeper asked.round asked.pick (length asked.answer.now) };

    ghost after = { λ asked keeper. after_answer keeper asked.round asked.pick (length asked.answer.now) };

    ghost Shows = { λ held old new. (new.answer.now ≡ option_map_or (λ keeper. answer_after keeper old.round old.pick old.answer.now) held old.answer.now)
        × (new.answer.ghost_name ≡ old.answer.ghost_name) };

    ghost keeps = { λ asked keeper. answer_keeps keeper asked.round asked.pick (length asked.answer.now) };

    ghost untouched = { λ _. Prim.search rules };

    fn put(&mut self, keeper: &mut Keeper<'_>) -> Result<(), Fault> {
        keeper.answer(self.round, self.pick, self.answer)
    }
}

impl KeeperState {
    // Puts a request to the keeper over a store whose rounds have these records.
    fn put_over<R: Request>(
        &mut self,
        table: &[RoundState],
        store: &mut [u8],
        request: &mut R,
    ) -> Result<(), Fault>
        ensures outcome { result ≡ R.outcome request.old (resumed_from self.old.view_length table.now store.old) }
        ensures leaves { Leaves self.old result (R.after request.old (resumed_from self.old.view_length table.now store.old)) self.new store.new }
        ensures shows { R.Shows (Some (resumed_from self.old.view_length table.now store.old)) request.old request.new }
    {
        let mut keeper = Keeper::resumed(self.view_length as usize, table, store);
        request.put(&mut keeper)?;
        self.save(keeper.records());
        Ok(())
    }

    // Puts a request to the keeper that this state and its store stand for.
    fn put<R: Request>(&mut self, store: &mut [u8], request: &mut R) -> Result<(), Refusal>
        ensures outcome { result ≡ told_in self.old store.old (λ k. R.outcome request.old k) }
        ensures store { store.new ≡ store_in self.old store.old (λ k. R.after request.old k) }
        ensures state { self.new ≡ state_in self.old store.old (λ k. R.outcome request.old k) (λ k. R.after request.old k) }
        ensures next { keeper_in self.new store.new ≡ next_in self.old store.old (λ k. R.after request.old k) }
        ensures shows { R.Shows (keeper_in self.old store.old) request.old request.new }
    {
        let table = self.table(store.len()).ok_or(Refusal::BadKeeper)?;
        self.put_over(&table, store, request).map_err(Refusal::from)
    }
}

// A keeper that has promised nothing yet, over any store.
#[unsafe(no_mangle)]
pub extern "C" fn pz_keeper_new(view_length: u64, out: &mut KeeperState)
    ensures state { out.new ≡ state_new view_length }
    ensures made { (store : List ℕ) → keeper_in out.new store ≡ Some (made_from view_length store) }
{
    *out = KeeperState {
        view_length,
        promised: 0,
        records: [0; 64],
    };
}

// Opens the views of two branches of a round, once.
#[unsafe(no_mangle)]
pub extern "C" fn pz_answer(
    state: &mut KeeperState,
    store: &mut [u8],
    round: u64,
    pick: u8,
    answer: &mut [u8],
    fault: &mut ToldFault,
) -> u8
    ensures status { result ≡ status_of (told_in state.old store.old (λ k. answer_result k round pick (length answer.old))) }
    ensures fault { fault.new ≡ fault_of (told_in state.old store.old (λ k. answer_result k round pick (length answer.old))) }
    ensures store { store.new ≡ store_in state.old store.old (λ k. after_answer k round pick (length answer.old)) }
    ensures state { state.new ≡ state_in state.old store.old (λ k. answer_result k round pick (length answer.old)) (λ k. after_answer k round pick (length answer.old)) }
    ensures next { keeper_in state.new store.new ≡ next_in state.old store.old (λ k. after_answer k round pick (length answer.old)) }
    ensures shown { answer.new ≡ buffer_in state.old store.old (λ k. answer_after k round pick answer.old) answer.old }
{
    let mut request = Answering {
        round: round as usize,
        pick,
        answer,
    };
    tell(state.put(store, &mut request), fault)
}

// Gives a round up: nothing of it is ever shown.
#[unsafe(no_mangle)]
pub extern "C" fn pz_drop(
    state: &mut KeeperState,
    store: &mut [u8],
    round: u64,
    fault: &mut ToldFault,
) -> u8
    ensures status { result ≡ status_of (told_in state.old store.old (λ k. drop_result k round)) }
    ensures fault { fault.new ≡ fault_of (told_in state.old store.old (λ k. drop_result k round)) }
    ensures store { store.new ≡ store_in state.old store.old (λ k. after_drop k round) }
    ensures state { state.new ≡ state_in state.old store.old (λ k. drop_result k round) (λ k. after_drop k round) }
    ensures next { keeper_in state.new store.new ≡ next_in state.old store.old (λ k. after_drop k round) }
{
    let mut request = GivingUp {
        round: round as usize,
    };
    tell(state.put(store, &mut request), fault)
}
