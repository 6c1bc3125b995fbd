// Whether a key fits a lock.
ghost use Rattle.std.specs.Prelude.{◌≡◌, ◌+◌, ◌≤◌, length, [], ◌∷◌};
ghost use Rattle.faults.specs.Outcomes.{map_ok};
ghost use Rattle.theory.specs.Algebra.{ops_of};
ghost use Rattle.theory.specs.Runs.{plain, at_outputs, targets};
ghost use Rattle.theory.specs.Messages.{key_of, length_of_key, length_of_work};
ghost use Rattle.theory.specs.Tests.{unlike};
ghost use Rattle.theory.specs.Keeper.{key_right};

use branches::group::Group;
use branches::lock::OpenLock;
use branches::rows::lawful_row;
use branches::wires::Wires;
use faults::{Fault, Reason};
use kinds::kind::ElementKind;

// Runs a lock's gates on whole values, in the work space.
fn run_plain<'w, K: ElementKind>(
    lock: &OpenLock<'_, K>,
    key: &Group<'_, K>,
    work: &'w mut [u8],
) -> Wires<'w, K>
    requires counted { length key.now ≡ lock.now.inputs }
    requires room { length_of_work K.kind lock.now ≤ length work.old }
    ensures wires { result.rows ≡ plain (ops_of K.kind) lock.now.gates key.now }
    ensures ends { length result.rows ≡ lock.now.inputs + length lock.now.gates }
{
    let mut wires = Wires::start(work, key, lock.input_count() + lock.gate_count());
    for gate in lock.gates() {
        wires.plain_gate(gate);
    }
    wires
}

// The first output whose wire has another value than its target.
fn first_missed<K: ElementKind>(lock: &OpenLock<'_, K>, wires: &Wires<'_, K>) -> Option<usize>
    requires { length wires.now.rows ≡ lock.now.inputs + length lock.now.gates }
    ensures { result ≡ unlike (at_outputs (ops_of K.kind) lock.now.outputs wires.now.rows) (targets (ops_of K.kind) lock.now.outputs) }
{
    for (j, output) in lock.outputs().enumerate() {
        if wires.wire(output.wire) != lawful_row(output.target) {
            return Some(j);
        }
    }
    None
}

// Tests a key: its elements, then its values at the outputs by a plain run in the work space.
pub fn read_key<'a, K: ElementKind>(
    lock: &OpenLock<'_, K>,
    bytes: &'a [u8],
    work: &mut [u8],
) -> Result<Group<'a, K>, Fault>
    requires sized { length bytes.now ≡ length_of_key K.kind lock.now }
    requires room { length_of_work K.kind lock.now ≤ length work.old }
    ensures { result ≡ map_ok (λ _. key_of K.kind lock.now bytes.now) (key_right K.kind lock.now (key_of K.kind lock.now bytes.now)) }
{
    let key = match Group::read(bytes, lock.input_count()) {
        Ok(key) => key,
        Err(i) => return Err(Fault::at(Reason::UnlawfulKey, i)),
    };
    match first_missed(lock, &run_plain(lock, &key, work)) {
        Some(i) => Err(Fault::at(Reason::KeyDoesNotFit, i)),
        None => Ok(key),
    }
}
