// What the tests share: a lock and messages that are judged, and the verdicts on a round at each pick.
use faults::{Branch, Fault, Reason};
use kinds::kind::ElementKind;
use kinds::word::Word;
use plays::Works;
use samples::messages::Round;
use seals::Sealer;
use std::process::Abort;
use std::test::Fail;

mod damaged;
mod refused;
mod worked;

type Verdict = Result<(), Fault>;

const BRANCHES: [Branch; 3] = [Branch::One, Branch::Two, Branch::Three];

fn told(reason: Reason, place: usize) -> Verdict {
    Err(Fault::at(reason, place))
}

fn told_in(branch: Branch, reason: Reason, place: usize) -> Verdict {
    Err(Fault::in_branch(branch, reason, place))
}

// What a verifier is given.
#[derive(Clone, Copy)]
struct Given<'a> {
    lock: &'a [u8],
    first: &'a [u8],
    pick: u8,
    answer: &'a [u8],
}

impl Given<'_> {
    // The verdict with work slices of these lengths, which are zero afterwards.
    fn judged_in<K: ElementKind, S: Sealer>(
        self,
        rt: &(impl Abort + AllocGlobal),
        sealer: &S,
        lengths: [usize; 2],
    ) -> Result<Verdict, Fail> {
        let [one, two] = lengths;
        let mut works = Works::new(rt.alloc(), [one, two, 0])?;
        let Given {
            lock,
            first,
            pick,
            answer,
        } = self;
        let verdict = works.verify::<K, S>(sealer, lock, first, pick, answer);
        assert!(rt; works.are_zero());
        Ok(verdict)
    }

    fn judged<S: Sealer>(
        self,
        rt: &(impl Abort + AllocGlobal),
        sealer: &S,
    ) -> Result<Verdict, Fail> {
        self.judged_in::<Word, S>(rt, sealer, [16, 20])
    }
}

// A round has these verdicts at the three picks.
fn verdicts<S: Sealer>(
    rt: &(impl Abort + AllocGlobal),
    sealer: &S,
    lock: &[u8],
    round: Round,
    expected: [Verdict; 3],
) -> Result<(), Fail> {
    let first = round.first(rt.alloc(), sealer)?;
    for (pick, verdict) in BRANCHES.into_iter().zip(expected) {
        let answer = round.answer(rt.alloc(), pick)?;
        let given = Given {
            lock,
            first: first.as_slice(),
            pick: pick.number(),
            answer: answer.as_slice(),
        };
        assert!(rt; given.judged(rt, sealer)? == verdict);
    }
    Ok(())
}
