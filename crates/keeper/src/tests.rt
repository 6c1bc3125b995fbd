// The tests of a promise, but for the keeper's own.
ghost use Rattle.std.specs.Prelude.{◌≡◌, ◌≤◌, length};
ghost use Rattle.faults.specs.Outcomes.{map_ok};
ghost use Rattle.theory.specs.Messages.{key_of, length_of_key, length_of_tape, length_of_work};
ghost use Rattle.promises.specs.Drawn.{drawn_in};
ghost use Rattle.keeper.specs.Promise.{sizes_right, secrets_right};

use branches::checks::size_right;
use branches::group::Group;
use branches::lock::OpenLock;
use faults::Fault;
use kinds::kind::ElementKind;
use promises::key::read_key;
use promises::tape::LawfulTape;
use seals::Sealer;

// The lengths of what a promise is given.
#[derive(Clone, Copy)]
pub struct Lengths {
    pub key: usize,
    pub tape: usize,
    pub work1: usize,
    pub work2: usize,
    pub work3: usize,
    pub first: usize,
}

pub(crate) fn test_sizes<K: ElementKind, S: Sealer>(
    lock: &OpenLock<'_, K>,
    given: Lengths,
) -> Result<(), Fault>
    ensures { result ≡ sizes_right K.ElementKind.kind S.Sealer.sealing lock.now given }
{
    size_right(lock.view_length() <= S::LONGEST, 0)?;
    size_right(given.key == lock.key_length(), 1)?;
    size_right(given.tape == lock.tape_length(), 2)?;
    size_right(given.work1 >= lock.work_length(), 3)?;
    size_right(given.work2 >= lock.work_length(), 4)?;
    size_right(given.work3 >= lock.work_length(), 5)?;
    size_right(given.first == lock.first_length(S::LENGTH as u8), 6)
}

// The key, then the tape.
pub(crate) fn read_secrets<'a, K: ElementKind>(
    lock: &OpenLock<'_, K>,
    key: &'a [u8],
    tape: &'a [u8],
    work: &mut [u8],
) -> Result<(Group<'a, K>, LawfulTape<'a, K>), Fault>
    requires key { length key.now ≡ length_of_key K.kind lock.now }
    requires tape { length tape.now ≡ length_of_tape K.kind lock.now }
    requires room { length_of_work K.kind lock.now ≤ length work.old }
    ensures { result ≡ map_ok (λ _. (key_of K.kind lock.now key.now, drawn_in K.kind lock.now tape.now)) (secrets_right K.kind lock.now key.now tape.now) }
{
    let key = read_key(lock, key, work)?;
    let tape = LawfulTape::read(lock, tape)?;
    Ok((key, tape))
}
