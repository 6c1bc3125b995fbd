// A view's parts.
ghost use Rattle.std.specs.Prelude.{◌≡◌, ◌+◌, ◌≤◌, length};
ghost use Rattle.kinds.specs.Groups.{group_length};
ghost use Rattle.locks.specs.Lengths.{view_length, answer_length};
ghost use Rattle.theory.specs.Messages.{view_of, masks_at, products_at, picked_view, next_view};
ghost use Rattle.branches.specs.Walks.{circuit_of, Stands};
ghost use Rattle.branches.specs.Views.{view_in};

use crate::groups::group_length;
use kinds::kind::ElementKind;
use locks::lock::Lock;

// How many bytes the blind has, in front of the parts.
pub const BLIND_LENGTH: usize = 32;

// Each slice begins where its part of the view does, and may go on behind it.
#[derive(Clone, Copy)]
pub struct ViewParts<'a> {
    pub shares: &'a [u8],
    pub masks: &'a [u8],
    pub products: &'a [u8],
}

// Where a view's masks and products begin.
#[derive(Clone, Copy)]
pub struct ViewPlaces {
    pub masks: usize,
    pub products: usize,
}

pub fn view_places<K: ElementKind>(lock: Lock<'_>) -> ViewPlaces
    requires { Stands K.kind lock }
    ensures masks { result.masks ≡ masks_at K.kind (circuit_of K.kind lock.entry) }
    ensures products { result.products ≡ products_at K.kind (circuit_of K.kind lock.entry) }
    ensures within { result.products + group_length K.kind lock.entry.products ≤ 65535 }
{
    let masks = BLIND_LENGTH + group_length::<K>(lock.inputs as usize);
    ViewPlaces {
        masks,
        products: masks + group_length::<K>(lock.products as usize),
    }
}

// The parts of a view of a lock.
pub fn view_parts<'a, K: ElementKind>(lock: Lock<'_>, view: &'a [u8]) -> ViewParts<'a>
    requires stands { Stands K.kind lock }
    requires sized { length view.now ≡ view_length K.kind lock.inputs lock.products }
    ensures parts { view_in K.kind lock.entry.inputs lock.entry.products result ≡ (view_of K.kind (circuit_of K.kind lock.entry) view.now).1 }
    ensures shares { group_length K.kind lock.entry.inputs ≤ length result.shares.now }
    ensures masks { group_length K.kind lock.entry.products ≤ length result.masks.now }
    ensures products { group_length K.kind lock.entry.products ≤ length result.products.now }
{
    let ViewPlaces { masks, products } = view_places::<K>(lock);
    ViewParts {
        shares: &view[BLIND_LENGTH..],
        masks: &view[masks..],
        products: &view[products..],
    }
}

// The two views of an answer: of the picked branch, and of the one after it.
pub fn answer_views<'a, K: ElementKind>(lock: Lock<'_>, answer: &'a [u8]) -> (&'a [u8], &'a [u8])
    requires stands { Stands K.kind lock }
    requires sized { length answer.now ≡ answer_length K.kind lock.inputs lock.products }
    ensures picked { result.0.now ≡ picked_view K.kind (circuit_of K.kind lock.entry) answer.now }
    ensures following { result.1.now ≡ next_view K.kind (circuit_of K.kind lock.entry) answer.now }
    ensures sizes { (length result.0.now ≡ view_length K.kind lock.entry.inputs lock.entry.products) × (length result.1.now ≡ view_length K.kind lock.entry.inputs lock.entry.products) }
{
    let end = 3 + lock.view_length::<K>();
    (&answer[3..end], &answer[end..])
}
