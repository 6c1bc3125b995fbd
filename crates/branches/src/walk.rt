// A lock is read, and its records are walked again without a test.
ghost use Rattle.std.specs.Prelude.{◌≡◌, ◌-◌, ◌*◌, ◌≤◌, true, length, is_ok, IfOk, Ok};
ghost use Rattle.faults.specs.Outcomes.{map_ok};
ghost use Rattle.locks.specs.Reading.{gate_in, gate_size, output_in, output_size, lock_of};
ghost use Rattle.locks.specs.Model.{gate_of, output_of, standing, behind};
ghost use Rattle.locks.specs.Locks.{record_bytes};
ghost use Rattle.branches.specs.Walks.{circuit_of, Stands, outputs_place};

use faults::Fault;
use kinds::kind::ElementKind;
use locks::lock::Lock;
use locks::lock::whole::read_lock;
use locks::reader::Reader;
use locks::records::{GateRecord, OutputRecord};

// The lock that the bytes hold, ready to be walked.
pub fn open_lock<'a, K: ElementKind>(bytes: &'a [u8]) -> Result<Lock<'a>, Fault>
    ensures outcome { map_ok (circuit_of K.kind) result ≡ lock_of K.kind bytes.now }
    ensures stands { IfOk result (λ l. Stands K.kind l) }
{
    read_lock::<K>(bytes)
}

// The gate record where a reader stands, which is passed.
pub fn next_gate<'a, K: ElementKind>(reader: &mut Reader<'a>) -> GateRecord<'a>
    requires { is_ok (gate_in K.kind (standing reader.old).at (standing reader.old).rest) ≡ true }
    ensures gate { gate_in K.kind (standing reader.old).at (standing reader.old).rest ≡ Ok (gate_of result) }
    ensures stands { standing reader.new ≡ behind (gate_size K.kind (gate_of result)) (standing reader.old) }
{
    match reader.gate::<K>() {
        Ok(gate) => gate,
        Err(_) => unreachable(),
    }
}

// The output record where a reader stands, which is passed.
pub fn next_output<'a, K: ElementKind>(reader: &mut Reader<'a>) -> OutputRecord<'a>
    requires { is_ok (output_in K.kind (standing reader.old).at (standing reader.old).rest) ≡ true }
    ensures output { output_in K.kind (standing reader.old).at (standing reader.old).rest ≡ Ok (output_of result) }
    ensures stands { standing reader.new ≡ behind (output_size K.kind) (standing reader.old) }
{
    match reader.output::<K>() {
        Ok(output) => output,
        Err(_) => unreachable(),
    }
}

// In front of a lock's outputs: they end with the bytes.
pub fn outputs_reader<'a, K: ElementKind>(lock: Lock<'a>) -> Reader<'a>
    requires { lock.outputs * output_size K.kind ≤ length (record_bytes lock) }
    ensures { standing result ≡ outputs_place K.kind lock.entry }
{
    let size = lock.outputs as usize * (6 + K::WIDTH);
    Reader::over(&lock.records[lock.records.len() - size..])
}
