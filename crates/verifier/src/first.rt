// A first message that was read: the output shares, which are lawful, and the seal of each branch.
ghost use Rattle.std.specs.Prelude.{◌≡◌, ◌≤◌, length, slice_index};
ghost use Rattle.faults.specs.Outcomes.{map_ok};
ghost use Rattle.faults.specs.declared.Reason.{Reason};
ghost use Rattle.kinds.specs.Kind.{same_row};
ghost use Rattle.locks.specs.Reading.{marked};
ghost use Rattle.theory.specs.Algebra.{ops_of};
ghost use Rattle.theory.specs.Messages.{length_of_first, outs_at, outs_in};
ghost use Rattle.theory.specs.Runs.{sum_of, targets};
ghost use Rattle.theory.specs.Tests.{lawful_at, unlike};
ghost use Rattle.theory.specs.Verdict.{first_formed};
ghost use Rattle.verifier.specs.Shown.{shown_of, shown_in, first_in, outs_of, Counted};

use crate::view::OpenedView;
use branches::bytes::same_bytes;
use branches::group::Group;
use branches::groups::group_length;
use branches::lock::OpenLock;
use branches::rows::lawful_row;
use faults::{Branch, Fault, Reason};
use kinds::kind::ElementKind;
use seals::Sealer;
use std::marker::Model;

// The longest seal.
const MOST_SEAL: usize = 64;

// What a first message has of one branch.
#[derive(Drop)]
pub(crate) struct BranchShares<'a, K: ElementKind> {
    shares: Group<'a, K>,
    seal: &'a [u8],
}

impl<'a, K: ElementKind> Model for BranchShares<'a, K> {
    ghost use Rattle.verifier.specs.Shown.{Shown};

    ghost Value = { Shown };

    ghost view = { λ b. record { outs = b.shares; seal = b.seal.now } };
}

impl<'a, K: ElementKind> BranchShares<'a, K> {
    fn read<S: Sealer>(
        lock: &OpenLock<'_, K>,
        first: &'a [u8],
        branch: Branch,
    ) -> Result<BranchShares<'a, K>, Fault>
        requires sized { length first.now ≡ length_of_first K.kind lock.now S.sealing.size }
        ensures { result ≡ map_ok (λ _. shown_in K.kind lock.now S.sealing.size first.now branch) (lawful_at K.kind Reason.MalformedFirstMessage (outs_at K.kind lock.now branch) (outs_in K.kind lock.now first.now branch)) }
    {
        let count = lock.output_count();
        let length = group_length::<K>(count);
        let shares_at = 2 + branch.before() * length;
        let seal_at = 2 + 3 * length + branch.before() * S::LENGTH;
        Ok(BranchShares {
            shares: Group::read_at(
                &first[shares_at..],
                count,
                Reason::MalformedFirstMessage,
                shares_at,
            )?,
            seal: &first[seal_at..seal_at + S::LENGTH],
        })
    }

    pub(crate) fn shares(&self) -> &Group<'a, K>
        ensures { result.now ≡ self.now.outs }
    {
        &self.shares
    }

    // Is the view of the branch sealed by its seal?
    pub(crate) fn seals<S: Sealer>(&self, sealer: &S, view: &OpenedView<'_, K>) -> bool
        requires short { length view.now.bytes ≤ S.sealing.longest }
        requires sized { length self.now.seal ≡ S.sealing.size }
        ensures { result ≡ same_row (S.sealing.seal view.now.bytes) self.now.seal }
    {
        let mut made = [0; MOST_SEAL];
        let made = &mut made[..S::LENGTH];
        sealer.digest(view.bytes(), made);
        same_bytes(made, self.seal)
    }
}

#[derive(Drop)]
pub(crate) struct FirstMessage<'a, K: ElementKind> {
    one: BranchShares<'a, K>,
    two: BranchShares<'a, K>,
    three: BranchShares<'a, K>,
}

impl<'a, K: ElementKind> Model for FirstMessage<'a, K> {
    ghost use Rattle.verifier.specs.Shown.{First};

    ghost Value = { First };

    ghost view = { λ f. record { one_shown = f.one; two_shown = f.two; three_shown = f.three } };
}

// Do the bytes begin with the mark?
pub(crate) fn is_marked(bytes: &[u8], mark: &[u8; 2]) -> bool
    requires { 2 ≤ length bytes.now }
    ensures { result ≡ marked (slice_index mark.now 0) (slice_index mark.now 1) bytes.now }
{
    bytes[0] == mark[0] && bytes[1] == mark[1]
}

impl<'a, K: ElementKind> FirstMessage<'a, K> {
    pub(crate) fn read<S: Sealer>(
        lock: &OpenLock<'_, K>,
        bytes: &'a [u8],
    ) -> Result<FirstMessage<'a, K>, Fault>
        requires sized { length bytes.now ≡ length_of_first K.kind lock.now S.sealing.size }
        ensures { result ≡ map_ok (λ _. first_in K.kind lock.now S.sealing.size bytes.now) (first_formed K.kind S.sealing lock.now bytes.now) }
    {
        if !is_marked(bytes, b"FM") {
            return Err(Fault::at(Reason::MalformedFirstMessage, 0));
        }
        Ok(FirstMessage {
            one: BranchShares::read::<S>(lock, bytes, Branch::One)?,
            two: BranchShares::read::<S>(lock, bytes, Branch::Two)?,
            three: BranchShares::read::<S>(lock, bytes, Branch::Three)?,
        })
    }

    pub(crate) fn of(&self, branch: Branch) -> &BranchShares<'a, K>
        ensures { result.now ≡ shown_of self.now branch }
    {
        match branch {
            Branch::One => &self.one,
            Branch::Two => &self.two,
            Branch::Three => &self.three,
        }
    }

    // The first output whose shares miss its target.
    pub(crate) fn missed_target(&self, lock: &OpenLock<'_, K>) -> Option<usize>
        requires { Counted lock.now self.now }
        ensures { result ≡ unlike (sum_of (ops_of K.kind) (outs_of self.now)) (targets (ops_of K.kind) lock.now.outputs) }
    {
        let one = self.one.shares().elements();
        let two = self.two.shares().elements();
        let three = self.three.shares().elements();
        for (j, (((a, b), c), output)) in one.zip(two).zip(three).zip(lock.outputs()).enumerate() {
            if a.sum(b).sum(c) != lawful_row(output.target) {
                return Some(j);
            }
        }
        None
    }
}
