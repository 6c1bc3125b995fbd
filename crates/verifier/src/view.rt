// A view that was read from an answer: contracts see its bytes, and its parts without the blind.
ghost use Rattle.std.specs.Prelude.{◌≡◌, ◌≤◌, length};
ghost use Rattle.faults.specs.Outcomes.{map_ok};
ghost use Rattle.theory.specs.Messages.{length_of_view, view_of};
ghost use Rattle.theory.specs.Verdict.{view_formed};
ghost use Rattle.verifier.specs.Shown.{unsealed, opened_in};

use branches::group::Group;
use branches::lock::OpenLock;
use branches::view::View;
use faults::{Fault, Reason};
use kinds::kind::ElementKind;
use std::marker::Model;

#[derive(Drop)]
pub struct OpenedView<'a, K: ElementKind> {
    bytes: &'a [u8],
    parts: View<'a, K>,
}

impl<'a, K: ElementKind> Model for OpenedView<'a, K> {
    ghost use Rattle.verifier.specs.Shown.{Opened};

    ghost Value = { Opened };

    ghost view = { λ v. record { bytes = v.bytes.now; parts = v.parts } };
}

impl<'a, K: ElementKind> OpenedView<'a, K> {
    // A view that begins at an offset of the answer.
    pub(crate) fn read(
        lock: &OpenLock<'_, K>,
        bytes: &'a [u8],
        at: usize,
    ) -> Result<OpenedView<'a, K>, Fault>
        requires sized { length bytes.now ≡ length_of_view K.kind lock.now }
        requires near { at ≤ 4294967296 }
        ensures { result ≡ map_ok (λ _. opened_in K.kind lock.now bytes.now) (view_formed K.kind unsealed lock.now at (view_of K.kind lock.now bytes.now).1) }
    {
        Ok(OpenedView {
            bytes,
            parts: lock.read_view(bytes, Reason::MalformedAnswer, at)?,
        })
    }

    pub fn bytes(&self) -> &'a [u8]
        ensures { result.now ≡ self.now.bytes }
    {
        self.bytes
    }

    pub fn shares(&self) -> &Group<'a, K>
        ensures { result.now ≡ self.now.parts.wires }
    {
        let parts = &self.parts;
        &parts.shares
    }

    pub(crate) fn masks(&self) -> &Group<'a, K>
        ensures { result.now ≡ self.now.parts.masks }
    {
        let parts = &self.parts;
        &parts.masks
    }

    pub(crate) fn products(&self) -> &Group<'a, K>
        ensures { result.now ≡ self.now.parts.products }
    {
        let parts = &self.parts;
        &parts.products
    }
}
