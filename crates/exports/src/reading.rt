// A lock's counts and lengths.
ghost use Rattle.std.specs.Prelude.{◌≡◌};
ghost use Rattle.faults.specs.Outcomes.{map_ok};
ghost use Rattle.locks.specs.Locks.{summary_of};
ghost use Rattle.locks.specs.Reading.{lock_of};
ghost use Rattle.exports.specs.Outcomes.{told_by, status_of, fault_of, left_by};
ghost use Rattle.exports.specs.Calls.{lengths_by, lengths_of, read_call};

use crate::call::{Call, by_number};
use crate::tell::tell;
use crate::told::{Refusal, ToldFault, ToldLengths};
use kinds::kind::ElementKind;
use locks::lock::Lock;
use locks::lock::whole::read_lock;
use seals::Sealer;

fn lengths_of<K: ElementKind, S: Sealer>(lock: Lock<'_>) -> ToldLengths
    ensures { result ≡ lengths_by K.ElementKind.kind S.Sealer.sealing (summary_of lock.entry) }
{
    ToldLengths {
        inputs: lock.inputs,
        gates: lock.gates,
        outputs: lock.outputs,
        products: lock.products,
        key: lock.key_length::<K>() as u64,
        view: lock.view_length::<K>() as u64,
        tape: lock.tape_length::<K>() as u64,
        first: lock.first_length::<K>(S::LENGTH as u8) as u64,
        answer: lock.answer_length::<K>() as u64,
        work: lock.work_length::<K>() as u64,
    }
}

#[derive(Drop)]
struct Reading<'a> {
    lock: &'a [u8],
}

impl Call for Reading<'_> {
    type Out = ToldLengths;

    ghost outcome = { λ K S reading. told_by (map_ok (lengths_of K S) (lock_of K reading.lock.now)) };

    ghost Leaves = { λ _ _ _. Unit {0} };

    fn run<K: ElementKind, S: Sealer>(&mut self, _sealer: &S) -> Result<ToldLengths, Refusal> {
        let lock = read_lock::<K>(self.lock)?;
        Ok(lengths_of::<K, S>(lock))
    }

    fn refuse(&mut self) {}
}

// Reads a lock with every test. The first message's length is that of the sealer's seals.
#[unsafe(no_mangle)]
pub extern "C" fn pz_read_lock(
    kind: u8,
    sealer: u8,
    lock: &[u8],
    out: &mut ToldLengths,
    fault: &mut ToldFault,
) -> u8
    ensures status { result ≡ status_of (read_call kind sealer lock.now) }
    ensures fault { fault.new ≡ fault_of (read_call kind sealer lock.now) }
    ensures out { out.new ≡ left_by (read_call kind sealer lock.now) (λ n. n) out.old }
{
    let outcome = by_number(kind, sealer, &mut Reading { lock });
    if let Ok(lengths) = outcome {
        *out = lengths;
    }
    tell(outcome, fault)
}
