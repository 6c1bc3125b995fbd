// A view without its blind, and a lock's views in messages: contracts see the rows.
ghost use Rattle.std.specs.Prelude.{◌≡◌, ◌+◌, ◌≤◌, length, IfOk};
ghost use Rattle.faults.specs.Outcomes.{map_ok};
ghost use Rattle.locks.specs.Circuit.{mus};
ghost use Rattle.kinds.specs.Groups.{group_length};
ghost use Rattle.theory.specs.Groups.{group};
ghost use Rattle.theory.specs.Lawfulness.{ViewLawful};
ghost use Rattle.theory.specs.Messages.{length_of_view, length_of_answer, view_of, masks_at, products_at, picked_view, next_view};
ghost use Rattle.branches.specs.Views.{lawful_view_at};

use crate::group::Group;
use crate::groups::group_length;
use crate::lock::OpenLock;
use crate::views::{BLIND_LENGTH, ViewParts};
use faults::{Fault, Reason};
use kinds::kind::ElementKind;
use std::marker::Model;

#[derive(Drop)]
pub struct View<'a, K: ElementKind> {
    pub shares: Group<'a, K>,
    pub masks: Group<'a, K>,
    pub products: Group<'a, K>,
}

impl<'a, K: ElementKind> Model for View<'a, K> {
    ghost use Rattle.std.specs.Prelude.{ℕ, List};
    ghost use Rattle.theory.specs.Runs.{View as Rows};

    ghost Value = { Rows (List ℕ) };

    ghost view = { λ v. record { wires = v.shares; masks = v.masks; products = v.products } };
}

impl<K: ElementKind> OpenLock<'_, K> {
    // Where a view's masks begin.
    pub fn masks_at(&self) -> usize
        ensures place { result ≡ masks_at K.kind self.now }
        ensures within { result + group_length K.kind (mus self.now.gates) ≤ 65535 }
    {
        BLIND_LENGTH + group_length::<K>(self.input_count())
    }

    pub fn products_at(&self) -> usize
        ensures place { result ≡ products_at K.kind self.now }
        ensures within { result + group_length K.kind (mus self.now.gates) ≤ 65535 }
    {
        self.masks_at() + group_length::<K>(self.product_count())
    }

    // The bytes from each part of a view on.
    fn view_parts<'a>(&self, bytes: &'a [u8]) -> ViewParts<'a>
        requires { length bytes.now ≡ length_of_view K.kind self.now }
        ensures shares { group K.kind self.now.inputs result.shares.now ≡ (view_of K.kind self.now bytes.now).1.wires }
        ensures masks { group K.kind (mus self.now.gates) result.masks.now ≡ (view_of K.kind self.now bytes.now).1.masks }
        ensures products { group K.kind (mus self.now.gates) result.products.now ≡ (view_of K.kind self.now bytes.now).1.products }
        ensures sharesroom { group_length K.kind self.now.inputs ≤ length result.shares.now }
        ensures masksroom { group_length K.kind (mus self.now.gates) ≤ length result.masks.now }
        ensures productsroom { group_length K.kind (mus self.now.gates) ≤ length result.products.now }
    {
        let masks = self.masks_at();
        let products = self.products_at();
        ViewParts {
            shares: &bytes[BLIND_LENGTH..],
            masks: &bytes[masks..],
            products: &bytes[products..],
        }
    }

    // The view in these bytes, which begin at the offset `at` of a message: an unlawful element is told by its place there.
    pub fn read_view<'a>(
        &self,
        bytes: &'a [u8],
        reason: Reason,
        at: usize,
    ) -> Result<View<'a, K>, Fault>
        requires sized { length bytes.now ≡ length_of_view K.kind self.now }
        requires near { at ≤ 4294967296 }
        ensures verdict { map_ok (λ _. tt) result ≡ lawful_view_at K.kind self.now reason at (view_of K.kind self.now bytes.now).1 }
        ensures view { IfOk result (λ v. v ≡ (view_of K.kind self.now bytes.now).1) }
    {
        let parts = self.view_parts(bytes);
        let inputs = self.input_count();
        let products = self.product_count();
        Ok(View {
            shares: Group::read_at(parts.shares, inputs, reason, at + BLIND_LENGTH)?,
            masks: Group::read_at(parts.masks, products, reason, at + self.masks_at())?,
            products: Group::read_at(parts.products, products, reason, at + self.products_at())?,
        })
    }

    // The view in bytes that are known to be lawful.
    pub fn lawful_view<'a>(&self, bytes: &'a [u8]) -> View<'a, K>
        requires sized { length bytes.now ≡ length_of_view K.kind self.now }
        requires lawful { ViewLawful K.kind (view_of K.kind self.now bytes.now).1 }
        ensures { result ≡ (view_of K.kind self.now bytes.now).1 }
    {
        let parts = self.view_parts(bytes);
        let products = self.product_count();
        View {
            shares: Group::lawful(parts.shares, self.input_count()),
            masks: Group::lawful(parts.masks, products),
            products: Group::lawful(parts.products, products),
        }
    }

    // The two views of an answer: of the picked branch, and of the one after it.
    pub fn answer_views<'a>(&self, answer: &'a [u8]) -> (&'a [u8], &'a [u8])
        requires sized { length answer.now ≡ length_of_answer K.kind self.now }
        ensures picked { result.0.now ≡ picked_view K.kind self.now answer.now }
        ensures following { result.1.now ≡ next_view K.kind self.now answer.now }
        ensures sizes { (length result.0.now ≡ length_of_view K.kind self.now) × (length result.1.now ≡ length_of_view K.kind self.now) }
    {
        let end = 3 + self.view_length();
        (&answer[3..end], &answer[end..])
    }
}
