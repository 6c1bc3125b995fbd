// A verdict.
ghost use Rattle.std.specs.Prelude.{◌≡◌, length};
ghost use Rattle.theory.specs.Keeper.{work_after};
ghost use Rattle.theory.specs.Verdict.{verified};
ghost use Rattle.exports.specs.Outcomes.{told_by, status_of, fault_of};
ghost use Rattle.exports.specs.Calls.{verify_call};

use crate::call::{Call, by_number};
use crate::tell::tell;
use crate::told::{Refusal, ToldFault};
use branches::bytes::clear;
use kinds::kind::ElementKind;
use seals::Sealer;
use verifier::verify::verify;

#[derive(Drop)]
struct Verifying<'a> {
    lock: &'a [u8],
    first: &'a [u8],
    pick: u8,
    answer: &'a [u8],
    work1: &'a mut [u8],
    work2: &'a mut [u8],
}

impl Call for Verifying<'_> {
    type Out = ();

    ghost outcome = { λ K S call. told_by (verified K S call.lock.now call.first.now call.pick call.answer.now (length call.work1.now) (length call.work2.now)) };

    ghost Leaves = { λ _ old new. (new.work1.now ≡ work_after old.work1.now) × (new.work2.now ≡ work_after old.work2.now)
        × (new.work1.ghost_name ≡ old.work1.ghost_name) × (new.work2.ghost_name ≡ old.work2.ghost_name) };

    fn run<K: ElementKind, S: Sealer>(&mut self, sealer: &S) -> Result<(), Refusal> {
        verify::<K, S>(
            sealer,
            self.lock,
            self.first,
            self.pick,
            self.answer,
            self.work1,
            self.work2,
        )
        .map_err(Refusal::from)
    }

    fn refuse(&mut self) {
        clear(self.work1);
        clear(self.work2);
    }
}

// Accepts or refuses a first message and an answer to a pick.
#[unsafe(no_mangle)]
pub extern "C" fn pz_verify(
    kind: u8,
    sealer: u8,
    lock: &[u8],
    first: &[u8],
    pick: u8,
    answer: &[u8],
    work1: &mut [u8],
    work2: &mut [u8],
    fault: &mut ToldFault,
) -> u8
    ensures status { result ≡ status_of (verify_call kind sealer lock.now first.now pick answer.now (length work1.old) (length work2.old)) }
    ensures fault { fault.new ≡ fault_of (verify_call kind sealer lock.now first.now pick answer.now (length work1.old) (length work2.old)) }
    ensures cleared { work1.new ≡ work_after work1.old }
    ensures nextcleared { work2.new ≡ work_after work2.old }
{
    let mut call = Verifying {
        lock,
        first,
        pick,
        answer,
        work1,
        work2,
    };
    tell(by_number(kind, sealer, &mut call), fault)
}
