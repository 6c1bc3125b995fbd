// The key from three accepted answers.
ghost use Rattle.std.specs.Prelude.{◌≡◌, length};
ghost use Rattle.theory.specs.Keeper.{work_after};
ghost use Rattle.theory.specs.Extraction.{by_branch, extracted, key_after};
ghost use Rattle.std.specs.Option.{option_map_or};
ghost use Rattle.exports.specs.Outcomes.{told_beside, status_of, fault_of, left_by};
ghost use Rattle.exports.specs.Calls.{extract_call, key_left, extracted_told};

use crate::call::{Call, by_number};
use crate::tell::tell;
use crate::told::{Refusal, ToldExtracted, ToldFault};
use branches::bytes::clear;
use extractor::extract::extract;
use kinds::kind::ElementKind;
use seals::Sealer;
use theory::Extracted;

#[derive(Drop)]
struct Extracting<'a> {
    lock: &'a [u8],
    first: &'a [u8],
    answer1: &'a [u8],
    answer2: &'a [u8],
    answer3: &'a [u8],
    work1: &'a mut [u8],
    work2: &'a mut [u8],
    key: &'a mut [u8],
}

impl Call for Extracting<'_> {
    type Out = Extracted;

    ghost outcome = { λ K S call. told_beside (extracted K S call.lock.now call.first.now (by_branch call.answer1.now call.answer2.now call.answer3.now) (length call.work1.now) (length call.work2.now) (length call.key.now)) };

    ghost Leaves = { λ chosen old new. (new.work1.now ≡ work_after old.work1.now) × (new.work2.now ≡ work_after old.work2.now)
        × (new.key.now ≡ option_map_or (λ n. key_after n.0 n.1 old.lock.now old.first.now (by_branch old.answer1.now old.answer2.now old.answer3.now) (length old.work1.now) (length old.work2.now) old.key.now) chosen old.key.now)
        × (new.work1.ghost_name ≡ old.work1.ghost_name) × (new.work2.ghost_name ≡ old.work2.ghost_name) × (new.key.ghost_name ≡ old.key.ghost_name) };

    fn run<K: ElementKind, S: Sealer>(&mut self, sealer: &S) -> Result<Extracted, Refusal> {
        extract::<K, S>(
            sealer,
            self.lock,
            self.first,
            self.answer1,
            self.answer2,
            self.answer3,
            self.work1,
            self.work2,
            self.key,
        )
        .map_err(Refusal::from)
    }

    fn refuse(&mut self) {
        clear(self.work1);
        clear(self.work2);
    }
}

impl From<Extracted> for ToldExtracted {
    ghost from_gives = { λ found told. told ≡ extracted_told found };

    fn from(found: Extracted) -> ToldExtracted {
        match found {
            Extracted::Key => ToldExtracted {
                offset: 0,
                branch: 0,
            },
            Extracted::Collision { branch, offset } => ToldExtracted {
                offset: offset as u64,
                branch: branch.number(),
            },
        }
    }
}

// The answers are those to picks 1, 2 and 3.
#[unsafe(no_mangle)]
pub extern "C" fn pz_extract(
    kind: u8,
    sealer: u8,
    lock: &[u8],
    first: &[u8],
    answer1: &[u8],
    answer2: &[u8],
    answer3: &[u8],
    work1: &mut [u8],
    work2: &mut [u8],
    key: &mut [u8],
    out: &mut ToldExtracted,
    fault: &mut ToldFault,
) -> u8
    ensures status { result ≡ status_of (extract_call kind sealer lock.now first.now answer1.now answer2.now answer3.now (length work1.old) (length work2.old) key.old) }
    ensures fault { fault.new ≡ fault_of (extract_call kind sealer lock.now first.now answer1.now answer2.now answer3.now (length work1.old) (length work2.old) key.old) }
    ensures out { out.new ≡ left_by (extract_call kind sealer lock.now first.now answer1.now answer2.now answer3.now (length work1.old) (length work2.old) key.old) extracted_told out.old }
    ensures key { key.new ≡ key_left kind sealer lock.now first.now answer1.now answer2.now answer3.now (length work1.old) (length work2.old) key.old }
    ensures cleared { work1.new ≡ work_after work1.old }
    ensures nextcleared { work2.new ≡ work_after work2.old }
{
    let mut call = Extracting {
        lock,
        first,
        answer1,
        answer2,
        answer3,
        work1,
        work2,
        key,
    };
    let outcome = by_number(kind, sealer, &mut call);
    if let Ok(found) = outcome {
        *out = found.into();
    }
    tell(outcome, fault)
}
