// A keeper of rounds, which proves that it knows a lock's key: it promises, answers and drops.
#![tactic(auto)]

ghost use Rattle.std.specs.Prelude.{◌≡◌, ◌*◌, ◌<◌, ◌≤◌, length};
ghost use Rattle.arrayvec.specs.ArrayVec.{array_vec_len};

use arrayvec::ArrayVec;
use theory::RoundState;

mod calls;
mod parts;
mod promise;
mod resume;
pub mod tests;

// The store is the host's: the keeper's rounds lie in it one behind the other, each with its three views. There is a record
// for each round promised so far.
#[derive(Drop)]
pub struct Keeper<'a> {
    store: &'a mut [u8],
    view_length: usize,
    capacity: usize,
    records: ArrayVec<RoundState, 64>,
    ghost within: { array_vec_len records ≤ capacity },
    ghost few: { capacity ≤ 64 },
    ghost short: { (0 < capacity → view_length ≤ 65535) },
    ghost room: { capacity * (3 * view_length) ≤ length store.now },
}
