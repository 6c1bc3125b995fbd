// The checks of the two opened branches, Figure 6 of the ZKBoo paper, on messages whose elements are lawful.
ghost use Rattle.std.specs.Prelude.{◌≡◌, ◌≤◌, length, Ok};
ghost use Rattle.faults.specs.Numbers.{fault_in};
ghost use Rattle.theory.specs.Messages.{length_of_work};
ghost use Rattle.theory.specs.Tests.{first_at};
ghost use Rattle.verifier.specs.Running.{Ends};
ghost use Rattle.verifier.specs.Checks.{targets_met, after_seal, gives_shares, runs_hold, figure_holds};

use crate::answer::Answer;
use crate::first::FirstMessage;
use crate::rerun::Rerun;
use crate::view::OpenedView;
use branches::lock::OpenLock;
use faults::{Branch, Fault, Reason};
use kinds::kind::ElementKind;
use seals::Sealer;
use std::marker::Model;

// A first message and an answer, read for one lock.
#[derive(Drop)]
pub(crate) struct Messages<'m, 'a, K: ElementKind, S: Sealer> {
    pub(crate) sealer: &'m S,
    pub(crate) lock: &'m OpenLock<'a, K>,
    pub(crate) first: FirstMessage<'a, K>,
    pub(crate) answer: Answer<'a, K>,
}

impl<'m, 'a, K: ElementKind, S: Sealer> Model for Messages<'m, 'a, K, S> {
    ghost use Rattle.verifier.specs.Shown.{Read, Fitting};

    ghost Value = { Read };

    ghost view = { λ m. record { circuit = m.lock.now; first = m.first; answer = m.answer } };

    ghost invariant = { λ m. Fitting S.sealing m.lock.now m.first m.answer };
}

// No fault, or that of the first wrong place in a branch.
fn first_wrong(wrong: Option<usize>, branch: Branch, reason: Reason) -> Result<(), Fault>
    ensures { result ≡ first_at wrong (λ i. fault_in branch reason i) }
{
    match wrong {
        Some(place) => Err(Fault::in_branch(branch, reason, place)),
        None => Ok(()),
    }
}

impl<K: ElementKind, S: Sealer> Messages<'_, '_, K, S> {
    // The shares of each output sum to its target.
    fn targets_met(&self) -> Result<(), Fault>
        ensures { result ≡ targets_met K.kind self.now }
    {
        match self.first.missed_target(self.lock) {
            Some(output) => Err(Fault::at(Reason::MissedTarget, output)),
            None => Ok(()),
        }
    }

    // The view of a branch is sealed by the branch's seal.
    fn sealed(&self, branch: Branch, view: &OpenedView<'_, K>) -> Result<(), Fault>
        requires { length view.now.bytes ≤ S.sealing.longest }
        ensures { result ≡ after_seal S.sealing self.now branch view.now (Ok tt) }
    {
        if !self.first.of(branch).seals(self.sealer, view) {
            return Err(Fault::in_branch(branch, Reason::WrongSeal, 0));
        }
        Ok(())
    }

    // The wires of a branch give its output shares.
    fn gives_shares(&self, run: &Rerun<'_, '_, K>) -> Result<(), Fault>
        requires { Ends self.now.circuit run.now }
        ensures { result ≡ gives_shares K.kind self.now run.now.branch run.now.view.wires }
    {
        let branch = run.branch();
        let wrong = run.wrong_share(self.lock, self.first.of(branch).shares());
        first_wrong(wrong, branch, Reason::WrongOutputShare)
    }

    // Both branches give their output shares, and each product of the picked view is right.
    fn runs_hold(&self, work1: &mut [u8], work2: &mut [u8]) -> Result<(), Fault>
        requires room { length_of_work K.kind self.now.circuit ≤ length work1.old }
        requires nextroom { length_of_work K.kind self.now.circuit ≤ length work2.old }
        ensures { result ≡ runs_hold K.kind self.now }
    {
        let branch = self.answer.branch();
        let mut picked = Rerun::start(self.lock, branch, self.answer.picked(), work1);
        let mut following = Rerun::start(self.lock, branch.after(), self.answer.following(), work2);
        let wrong = picked.run(&mut following, self.lock);
        self.gives_shares(&picked)?;
        self.gives_shares(&following)?;
        first_wrong(wrong, branch, Reason::WrongProduct)
    }

    // Targets, then the seals of both views, the picked one first, then the runs.
    pub(crate) fn figure_holds(&self, work1: &mut [u8], work2: &mut [u8]) -> Result<(), Fault>
        requires room { length_of_work K.kind self.now.circuit ≤ length work1.old }
        requires nextroom { length_of_work K.kind self.now.circuit ≤ length work2.old }
        ensures { result ≡ figure_holds K.kind S.sealing self.now }
    {
        let branch = self.answer.branch();
        self.targets_met()?;
        self.sealed(branch, self.answer.picked())?;
        self.sealed(branch.after(), self.answer.following())?;
        self.runs_hold(work1, work2)
    }
}
