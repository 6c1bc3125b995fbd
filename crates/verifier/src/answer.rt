// An answer that was read: the branch that was picked, and the views of it and of the one after it.
ghost use Rattle.std.specs.Prelude.{◌≡◌, length};
ghost use Rattle.faults.specs.Outcomes.{map_ok};
ghost use Rattle.theory.specs.Messages.{length_of_answer};
ghost use Rattle.theory.specs.Verdict.{answer_formed};
ghost use Rattle.verifier.specs.Shown.{unsealed, answer_in};

use crate::first::is_marked;
use crate::view::OpenedView;
use branches::lock::OpenLock;
use faults::{Branch, Fault, Reason};
use kinds::kind::ElementKind;
use std::marker::Model;

#[derive(Drop)]
pub struct Answer<'a, K: ElementKind> {
    branch: Branch,
    picked: OpenedView<'a, K>,
    following: OpenedView<'a, K>,
}

impl<'a, K: ElementKind> Model for Answer<'a, K> {
    ghost use Rattle.verifier.specs.Shown.{Answered};

    ghost Value = { Answered };

    ghost view = { λ a. record { branch = a.branch; picked = a.picked; following = a.following } };
}

impl<'a, K: ElementKind> Answer<'a, K> {
    // An answer to the pick of a branch.
    pub(crate) fn read(
        lock: &OpenLock<'_, K>,
        branch: Branch,
        bytes: &'a [u8],
    ) -> Result<Answer<'a, K>, Fault>
        requires sized { length bytes.now ≡ length_of_answer K.kind lock.now }
        ensures { result ≡ map_ok (λ _. answer_in K.kind lock.now branch bytes.now) (answer_formed K.kind unsealed lock.now branch bytes.now) }
    {
        if !is_marked(bytes, b"AN") {
            return Err(Fault::at(Reason::MalformedAnswer, 0));
        }
        if bytes[2] != branch.number() {
            return Err(Fault::at(Reason::MalformedAnswer, 2));
        }
        let (picked, following) = lock.answer_views(bytes);
        Ok(Answer {
            branch,
            picked: OpenedView::read(lock, picked, 3)?,
            following: OpenedView::read(lock, following, 3 + lock.view_length())?,
        })
    }

    pub(crate) fn branch(&self) -> Branch
        ensures { result ≡ self.now.branch }
    {
        self.branch
    }

    pub fn picked(&self) -> &OpenedView<'a, K>
        ensures { result.now ≡ self.now.picked }
    {
        &self.picked
    }

    pub fn following(&self) -> &OpenedView<'a, K>
        ensures { result.now ≡ self.now.following }
    {
        &self.following
    }
}
