// The sizes of an extractor's buffers.
ghost use Rattle.std.specs.Prelude.{◌≡◌};
ghost use Rattle.theory.specs.Extraction.{extract_sizes};

use branches::checks::size_right;
use branches::lock::OpenLock;
use faults::Fault;
use kinds::kind::ElementKind;
use seals::Sealer;

pub(crate) fn sizes_right<K: ElementKind, S: Sealer>(
    lock: &OpenLock<'_, K>,
    first: usize,
    answer1: usize,
    answer2: usize,
    answer3: usize,
    work1: usize,
    work2: usize,
    key: usize,
) -> Result<(), Fault>
    ensures { result ≡ extract_sizes K.kind S.sealing lock.now first answer1 answer2 answer3 work1 work2 key }
{
    let answer = lock.answer_length();
    let work = lock.work_length();
    size_right(lock.view_length() <= S::LONGEST, 0)?;
    size_right(first == lock.first_length(S::LENGTH as u8), 1)?;
    size_right(answer1 == answer, 2)?;
    size_right(answer2 == answer, 3)?;
    size_right(answer3 == answer, 4)?;
    size_right(work1 >= work, 5)?;
    size_right(work2 >= work, 6)?;
    size_right(key == lock.key_length(), 7)
}
