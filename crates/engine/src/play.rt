// A whole round: what a host and a verifier do between them.
ghost use Rattle.std.specs.Prelude.{◌≡◌, ◌+◌, ◌*◌, ◌<◌, length, Ok};
ghost use Rattle.theory.specs.Completeness.{Honest};
ghost use Rattle.theory.specs.Keeper.{made_from, given as given_to, first_after, work_after};
ghost use Rattle.theory.specs.Rules.{IsPick};
ghost use Rattle.theory.specs.Store.{rounds_in};
ghost use Rattle.keeper.specs.Model.{values_of};
ghost use Rattle.engine.specs.Playing.{played, answer_left, keeper_left};

use faults::Fault;
use keeper::Keeper;
use kinds::kind::ElementKind;
use seals::Sealer;
use verifier::verify::verify;

// A keeper promises a round and answers a pick; the verifier judges both messages.
pub fn play_on<K: ElementKind, S: Sealer>(
    keeper: &mut Keeper<'_>,
    sealer: &S,
    lock: &[u8],
    key: &[u8],
    tape: &[u8],
    pick: u8,
    work1: &mut [u8],
    work2: &mut [u8],
    work3: &mut [u8],
    first: &mut [u8],
    answer: &mut [u8],
) -> Result<(), Fault>
    ensures outcome { result ≡ played (values_of keeper.old) (given_to K.ElementKind.kind S.Sealer.sealing lock.now key.now tape.now (length work1.old) (length work2.old) (length work3.old) (length first.old)) pick first.old answer.old }
    ensures after { values_of keeper.new ≡ keeper_left (values_of keeper.old) (given_to K.ElementKind.kind S.Sealer.sealing lock.now key.now tape.now (length work1.old) (length work2.old) (length work3.old) (length first.old)) pick first.old answer.old }
    ensures first { first.new ≡ first_after (values_of keeper.old) (given_to K.ElementKind.kind S.Sealer.sealing lock.now key.now tape.now (length work1.old) (length work2.old) (length work3.old) (length first.old)) first.old }
    ensures answer { answer.new ≡ answer_left (values_of keeper.old) (given_to K.ElementKind.kind S.Sealer.sealing lock.now key.now tape.now (length work1.old) (length work2.old) (length work3.old) (length first.old)) pick first.old answer.old }
    ensures work1 { work1.new ≡ work_after work1.old }
    ensures work2 { work2.new ≡ work_after work2.old }
    ensures work3 { work3.new ≡ work_after work3.old }
    ensures named { keeper.new.store.ghost_name ≡ keeper.old.store.ghost_name }
{
    let round = keeper.promise::<K, S>(sealer, lock, key, tape, work1, work2, work3, first)?;
    keeper.answer(round, pick, answer)?;
    verify::<K, S>(sealer, lock, first, pick, answer, work1, work2)
}

// The same on a keeper that is made for it. With a fitting key, a lawful tape and buffers of their sizes nothing refuses.
pub fn play_round<K: ElementKind, S: Sealer>(
    sealer: &S,
    lock: &[u8],
    key: &[u8],
    tape: &[u8],
    pick: u8,
    view_length: usize,
    store: &mut [u8],
    work1: &mut [u8],
    work2: &mut [u8],
    work3: &mut [u8],
    first: &mut [u8],
    answer: &mut [u8],
) -> Result<(), Fault>
    ensures outcome { result ≡ played (made_from view_length store.old) (given_to K.ElementKind.kind S.Sealer.sealing lock.now key.now tape.now (length work1.old) (length work2.old) (length work3.old) (length first.old)) pick first.old answer.old }
    ensures complete { Honest view_length (given_to K.ElementKind.kind S.Sealer.sealing lock.now key.now tape.now (length work1.old) (length work2.old) (length work3.old) (length first.old)) → 0 < rounds_in view_length (length store.old) → IsPick pick → length answer.old ≡ 3 + 2 * view_length → result ≡ Ok tt }
    ensures store { store.new ≡ (keeper_left (made_from view_length store.old) (given_to K.ElementKind.kind S.Sealer.sealing lock.now key.now tape.now (length work1.old) (length work2.old) (length work3.old) (length first.old)) pick first.old answer.old).store }
    ensures first { first.new ≡ first_after (made_from view_length store.old) (given_to K.ElementKind.kind S.Sealer.sealing lock.now key.now tape.now (length work1.old) (length work2.old) (length work3.old) (length first.old)) first.old }
    ensures answer { answer.new ≡ answer_left (made_from view_length store.old) (given_to K.ElementKind.kind S.Sealer.sealing lock.now key.now tape.now (length work1.old) (length work2.old) (length work3.old) (length first.old)) pick first.old answer.old }
    ensures work1 { work1.new ≡ work_after work1.old }
    ensures work2 { work2.new ≡ work_after work2.old }
    ensures work3 { work3.new ≡ work_after work3.old }
{
    let mut keeper = Keeper::new(view_length, store);
    play_on::<K, S>(
        &mut keeper,
        sealer,
        lock,
        key,
        tape,
        pick,
        work1,
        work2,
        work3,
        first,
        answer,
    )
}
