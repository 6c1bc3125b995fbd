// The verdict on a first message and an answer.
ghost use Rattle.std.specs.Prelude.{◌≡◌, length};
ghost use Rattle.theory.specs.Keeper.{work_after};
ghost use Rattle.theory.specs.Verdict.{verified};

use crate::messages::messages_right;
use crate::sizes::sizes_right;
use branches::bytes::clear;
use branches::lock::OpenLock;
use faults::{Branch, Fault};
use kinds::kind::ElementKind;
use seals::Sealer;

// May fail anywhere, and leaves what it wrote in the work slices.
fn verdict<K: ElementKind, S: Sealer>(
    sealer: &S,
    lock: &[u8],
    first: &[u8],
    pick: u8,
    answer: &[u8],
    work1: &mut [u8],
    work2: &mut [u8],
) -> Result<(), Fault>
    ensures { result ≡ verified K.kind S.sealing lock.now first.now pick answer.now (length work1.old) (length work2.old) }
{
    let lock = OpenLock::<K>::read(lock)?;
    sizes_right::<K, S>(&lock, first.len(), answer.len(), work1.len(), work2.len())?;
    let branch = Branch::try_from(pick)?;
    messages_right(sealer, &lock, first, branch, answer, work1, work2)?;
    Ok(())
}

// Accepts or refuses a first message and an answer to a pick; both work slices are zero afterwards.
pub fn verify<K: ElementKind, S: Sealer>(
    sealer: &S,
    lock: &[u8],
    first: &[u8],
    pick: u8,
    answer: &[u8],
    work1: &mut [u8],
    work2: &mut [u8],
) -> Result<(), Fault>
    ensures outcome { result ≡ verified K.kind S.sealing lock.now first.now pick answer.now (length work1.old) (length work2.old) }
    ensures cleared { work1.new ≡ work_after work1.old }
    ensures nextcleared { work2.new ≡ work_after work2.old }
{
    let outcome = verdict::<K, S>(sealer, lock, first, pick, answer, work1, work2);
    clear(work1);
    clear(work2);
    outcome
}
