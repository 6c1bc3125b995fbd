// What a host knows of its store once its keeper is gone; and the keeper's calls on examples.
#![tactic(auto)]

ghost use Rattle.std.specs.Prelude.{◌≡◌, length};
ghost use Rattle.theory.specs.Keeper.{made_from, drop_result, after_drop, after_answer};

use faults::Fault;
use keeper::Keeper;

pub fn drop_one(store: &mut [u8], view_length: usize, round: usize) -> Result<(), Fault>
    ensures outcome { result ≡ drop_result (made_from view_length store.old) round }
    ensures store { store.new ≡ (after_drop (made_from view_length store.old) round).store }
{
    let mut keeper = Keeper::new(view_length, store);
    keeper.drop_round(round)
}

pub fn drop_then_answer(
    store: &mut [u8],
    view_length: usize,
    round: usize,
    pick: u8,
    out: &mut [u8],
)
    ensures store { store.new ≡ (after_answer (after_drop (made_from view_length store.old) round) round pick (length out.old)).store }
{
    let mut keeper = Keeper::new(view_length, store);
    let _ = keeper.drop_round(round);
    let _ = keeper.answer(round, pick, out);
}

#[cfg(test)]
mod tests;
