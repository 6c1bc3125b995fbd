// The sizes of a verifier's buffers.
ghost use Rattle.std.specs.Prelude.{◌≡◌};
ghost use Rattle.theory.specs.Verdict.{verify_sizes};

use branches::checks::size_right;
use branches::lock::OpenLock;
use faults::Fault;
use kinds::kind::ElementKind;
use seals::Sealer;

pub(crate) fn sizes_right<K: ElementKind, S: Sealer>(
    lock: &OpenLock<'_, K>,
    first: usize,
    answer: usize,
    work1: usize,
    work2: usize,
) -> Result<(), Fault>
    ensures { result ≡ verify_sizes K.kind S.sealing lock.now first answer work1 work2 }
{
    size_right(lock.view_length() <= S::LONGEST, 0)?;
    size_right(first == lock.first_length(S::LENGTH as u8), 1)?;
    size_right(answer == lock.answer_length(), 2)?;
    size_right(work1 >= lock.work_length(), 3)?;
    size_right(work2 >= lock.work_length(), 4)
}
