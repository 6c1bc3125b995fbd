// Rounds in the store: where they lie, what an answer takes from them, and their end.
ghost use Rattle.std.specs.Prelude.{◌≡◌, ◌+◌, ◌*◌, ◌<◌, ◌≤◌, length, replicate};
ghost use Rattle.theory.specs.Runs.{next};
ghost use Rattle.theory.specs.Messages.{answer_bytes};
ghost use Rattle.theory.specs.Store.{rounds_in, round_at, round_length, put};
ghost use Rattle.promises.specs.Drawn.{views_on, first_on};
ghost use Rattle.keeper.specs.Model.{Placed, view_in};
ghost use Rattle.keeper.specs.Promise.{Ready};

use branches::bytes::clear;
use branches::group::Group;
use branches::lock::OpenLock;
use faults::Branch;
use kinds::kind::ElementKind;
use locks::limits::LONGEST_VIEW;
use promises::round::write_round;
use promises::tape::LawfulTape;
use seals::Sealer;

const MOST_ROUNDS: usize = 64;

// A blind and one byte.
const SHORTEST_VIEW: usize = 33;

// How many rounds of views of that length a store of so many bytes holds.
pub(crate) fn rounds_in(view_length: usize, bytes: usize) -> usize
    ensures value { result ≡ rounds_in view_length bytes }
    ensures few { result ≤ 64 }
    ensures short { 0 < result → view_length ≤ 65535 }
    ensures room { result * (3 * view_length) ≤ bytes }
{
    if view_length < SHORTEST_VIEW || view_length > LONGEST_VIEW {
        return 0;
    }
    MOST_ROUNDS.min(bytes / (3 * view_length))
}

// Where a round lies.
pub(crate) fn round_start(view_length: usize, round: usize) -> usize
    requires { (view_length ≤ 65535) × ((1 ≤ round) × (round ≤ 64)) }
    ensures { result ≡ round_at view_length round }
{
    3 * view_length * (round - 1)
}

// A branch's view in the round that begins at `start`.
fn view_at(store: &[u8], start: usize, view_length: usize, branch: Branch) -> &[u8]
    requires { start + 3 * view_length ≤ length store.now }
    ensures { result.now ≡ view_in store.now start view_length branch }
{
    let at = start + view_length * branch.before();
    &store[at..at + view_length]
}

// Mark, pick, and the views of that branch and the one after it, of the round that begins at `start`.
fn write_answer(out: &mut [u8], store: &[u8], start: usize, view_length: usize, branch: Branch)
    requires long { length out.old ≡ 3 + 2 * view_length }
    requires room { start + 3 * view_length ≤ length store.now }
    ensures { out.new ≡ answer_bytes branch (view_in store.now start view_length branch) (view_in store.now start view_length (next branch)) }
{
    let (head, views) = out.split_at_mut(3);
    let (picked, following) = views.split_at_mut(view_length);
    head.copy_from_slice(&[b'A', b'N', branch.number()]);
    picked.copy_from_slice(view_at(store, start, view_length, branch));
    following.copy_from_slice(view_at(store, start, view_length, branch.after()));
}

// Zeroes the round's place.
pub(crate) fn end_round(store: &mut [u8], view_length: usize, round: usize)
    requires placed { Placed view_length round (length store.old) }
    ensures { store.new ≡ put store.old (round_at view_length round) (replicate (round_length view_length) 0) }
{
    let start = round_start(view_length, round);
    clear(&mut store[start..start + 3 * view_length]);
}

// Writes the answer from the round's place, and zeroes that place.
pub(crate) fn spend(
    store: &mut [u8],
    view_length: usize,
    round: usize,
    branch: Branch,
    out: &mut [u8],
)
    requires placed { Placed view_length round (length store.old) }
    requires long { length out.old ≡ 3 + 2 * view_length }
    ensures out { out.new ≡ answer_bytes branch (view_in store.old (round_at view_length round) view_length branch) (view_in store.old (round_at view_length round) view_length (next branch)) }
    ensures store { store.new ≡ put store.old (round_at view_length round) (replicate (round_length view_length) 0) }
{
    write_answer(
        out,
        store,
        round_start(view_length, round),
        view_length,
        branch,
    );
    end_round(store, view_length, round);
}

// Writes a round in its place, and its first message.
pub(crate) fn store_round<K: ElementKind, S: Sealer>(
    store: &mut [u8],
    view_length: usize,
    round: usize,
    sealer: &S,
    lock: &OpenLock<'_, K>,
    key: &Group<'_, K>,
    tape: &LawfulTape<'_, K>,
    work1: &mut [u8],
    work2: &mut [u8],
    work3: &mut [u8],
    first: &mut [u8],
)
    requires placed { Placed view_length round (length store.old) }
    requires ready { Ready K.ElementKind.kind S.Sealer.sealing lock.now view_length key.now tape.now (length work1.old) (length work2.old) (length work3.old) (length first.old) }
    ensures store { store.new ≡ put store.old (round_at view_length round) (views_on K.ElementKind.kind lock.now key.now tape.now) }
    ensures first { first.new ≡ first_on K.ElementKind.kind lock.now key.now tape.now S.Sealer.sealing }
{
    let start = round_start(view_length, round);
    write_round(
        sealer,
        lock,
        key,
        tape,
        work1,
        work2,
        work3,
        &mut store[start..start + 3 * view_length],
        first,
    );
}
