// The extractor: a key, or two views with one seal, from three accepted answers.
ghost use Rattle.std.specs.Prelude.{◌≡◌, length};
ghost use Rattle.theory.specs.Keeper.{work_after};
ghost use Rattle.theory.specs.Extraction.{by_branch, extracted, key_after};
ghost use Rattle.extractor.specs.Picks.{accepted_at, Ready};

use crate::accepted::Accepted;
use crate::picks::at_pick;
use crate::sizes::sizes_right;
use branches::bytes::clear;
use branches::lock::OpenLock;
use faults::Branch;
use kinds::kind::ElementKind;
use seals::Sealer;
use theory::{Extracted, PickFault};
use verifier::answer::Answer;
use verifier::messages::messages_right;

// The answer to a pick, where the verifier accepts it.
fn accepted<'a, K: ElementKind, S: Sealer>(
    sealer: &S,
    lock: &OpenLock<'a, K>,
    first: &'a [u8],
    branch: Branch,
    answer: &'a [u8],
    work1: &mut [u8],
    work2: &mut [u8],
) -> Result<Answer<'a, K>, PickFault>
    requires { Ready K.kind S.sealing lock.now first.now answer.now (length work1.old) (length work2.old) }
    ensures { result ≡ accepted_at K.kind S.sealing lock.entry.now first.entry.now branch answer.entry.now }
{
    at_pick(
        messages_right(sealer, lock, first, branch, answer, work1, work2),
        Some(branch),
    )
}

// May fail anywhere, and leaves what it wrote in the work slices.
fn outcome<'a, K: ElementKind, S: Sealer>(
    sealer: &S,
    lock: &'a [u8],
    first: &'a [u8],
    answer1: &'a [u8],
    answer2: &'a [u8],
    answer3: &'a [u8],
    work1: &mut [u8],
    work2: &mut [u8],
    key: &mut [u8],
) -> Result<Extracted, PickFault>
    ensures outcome { result ≡ extracted K.kind S.sealing lock.entry.now first.entry.now (by_branch answer1.entry.now answer2.entry.now answer3.entry.now) (length work1.old) (length work2.old) (length key.old) }
    ensures key { key.new ≡ key_after K.kind S.sealing lock.entry.now first.entry.now (by_branch answer1.entry.now answer2.entry.now answer3.entry.now) (length work1.old) (length work2.old) key.old }
{
    let lock = at_pick(OpenLock::<K>::read(lock), None)?;
    let sizes = sizes_right::<K, S>(
        &lock,
        first.len(),
        answer1.len(),
        answer2.len(),
        answer3.len(),
        work1.len(),
        work2.len(),
        key.len(),
    );
    at_pick(sizes, None)?;
    let answers = Accepted {
        one: accepted(sealer, &lock, first, Branch::One, answer1, work1, work2)?,
        two: accepted(sealer, &lock, first, Branch::Two, answer2, work1, work2)?,
        three: accepted(sealer, &lock, first, Branch::Three, answer3, work1, work2)?,
    };
    Ok(answers.give(key))
}

// The answers are those to picks 1, 2 and 3. Both work slices are zero afterwards; the key buffer is written only where a key is found.
pub fn extract<'a, K: ElementKind, S: Sealer>(
    sealer: &S,
    lock: &[u8],
    first: &[u8],
    answer1: &'a [u8],
    answer2: &'a [u8],
    answer3: &'a [u8],
    work1: &mut [u8],
    work2: &mut [u8],
    key: &mut [u8],
) -> Result<Extracted, PickFault>
    ensures outcome { result ≡ extracted K.kind S.sealing lock.now first.now (by_branch answer1.now answer2.now answer3.now) (length work1.old) (length work2.old) (length key.old) }
    ensures key { key.new ≡ key_after K.kind S.sealing lock.now first.now (by_branch answer1.now answer2.now answer3.now) (length work1.old) (length work2.old) key.old }
    ensures cleared { work1.new ≡ work_after work1.old }
    ensures nextcleared { work2.new ≡ work_after work2.old }
{
    let found = outcome::<K, S>(
        sealer, lock, first, answer1, answer2, answer3, work1, work2, key,
    );
    clear(work1);
    clear(work2);
    found
}
