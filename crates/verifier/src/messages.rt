// A first message and an answer to a pick, for a lock that was read.
ghost use Rattle.std.specs.Prelude.{◌≡◌, ◌≤◌, length};
ghost use Rattle.faults.specs.Outcomes.{map_ok};
ghost use Rattle.theory.specs.Messages.{length_of_view, length_of_first, length_of_answer, length_of_work};
ghost use Rattle.theory.specs.Verdict.{messages_right};
ghost use Rattle.verifier.specs.Shown.{answer_in};

use crate::answer::Answer;
use crate::figure::Messages;
use crate::first::FirstMessage;
use branches::lock::OpenLock;
use faults::{Branch, Fault};
use kinds::kind::ElementKind;
use seals::Sealer;

// The answer, where it is right; leaves shares and wires in the work slices.
pub fn messages_right<'a, K: ElementKind, S: Sealer>(
    sealer: &S,
    lock: &OpenLock<'a, K>,
    first: &'a [u8],
    branch: Branch,
    answer: &'a [u8],
    work1: &mut [u8],
    work2: &mut [u8],
) -> Result<Answer<'a, K>, Fault>
    requires sealable { length_of_view K.kind lock.now ≤ S.sealing.longest }
    requires firstsized { length first.now ≡ length_of_first K.kind lock.now S.sealing.size }
    requires answersized { length answer.now ≡ length_of_answer K.kind lock.now }
    requires room { length_of_work K.kind lock.now ≤ length work1.old }
    requires nextroom { length_of_work K.kind lock.now ≤ length work2.old }
    ensures { result ≡ map_ok (λ _. answer_in K.kind lock.entry.now branch answer.entry.now) (messages_right K.kind S.sealing lock.entry.now first.entry.now branch answer.entry.now) }
{
    let first = FirstMessage::read::<S>(lock, first)?;
    let answer = Answer::read(lock, branch, answer)?;
    let messages = Messages {
        sealer,
        lock,
        first,
        answer,
    };
    messages.figure_holds(work1, work2)?;
    Ok(messages.answer)
}
