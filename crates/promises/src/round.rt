// A whole round: its views in their part of the store, and its first message.
ghost use Rattle.std.specs.Prelude.{◌≡◌, ◌+◌, ◌*◌, ◌≤◌, ◌++◌, length};
ghost use Rattle.faults.specs.declared.Branch.{Branch as Name};
ghost use Rattle.faults.specs.declared.Branch.TheVariants.{One as one, Two as two, Three as three};
ghost use Rattle.theory.specs.Messages.{length_of_view, length_of_work, length_of_first, outs_length};
ghost use Rattle.promises.specs.Drawn.{Fitting, view_on, views_on, outs_on, first_on};

use crate::first::write_seals;
use crate::fronts::{write_front, write_third_front};
use crate::run::Trio;
use crate::tape::LawfulTape;
use branches::group::Group;
use branches::groups::group_length;
use branches::lock::OpenLock;
use branches::views::BLIND_LENGTH;
use kinds::kind::ElementKind;
use seals::Sealer;

// The views of a round, and the output shares of its branches.
fn write_views<K: ElementKind>(
    lock: &OpenLock<'_, K>,
    key: &Group<'_, K>,
    tape: &LawfulTape<'_, K>,
    work1: &mut [u8],
    work2: &mut [u8],
    work3: &mut [u8],
    views: &mut [u8],
    outs: &mut [u8],
)
    requires fitting { Fitting lock.now key.now tape.now }
    requires room1 { length_of_work K.kind lock.now ≤ length work1.old }
    requires room2 { length_of_work K.kind lock.now ≤ length work2.old }
    requires room3 { length_of_work K.kind lock.now ≤ length work3.old }
    requires long { length views.old ≡ 3 * length_of_view K.kind lock.now }
    requires sized { length outs.old ≡ 3 * outs_length K.kind lock.now }
    ensures views { views.new ≡ views_on K.kind lock.now key.now tape.now }
    ensures each { (i : Name) → length (view_on K.kind lock.now key.now tape.now i) ≡ length_of_view K.kind lock.now }
    ensures outs { outs.new ≡ outs_on K.kind lock.now key.now tape.now one ++ (outs_on K.kind lock.now key.now tape.now two ++ outs_on K.kind lock.now key.now tape.now three) }
{
    let (view1, rest) = views.split_at_mut(lock.view_length());
    let (view2, view3) = rest.split_at_mut(lock.view_length());
    let (front1, products1) = view1.split_at_mut(lock.products_at());
    let (front2, products2) = view2.split_at_mut(lock.products_at());
    let (front3, products3) = view3.split_at_mut(lock.products_at());
    write_front(front1, tape.blind1, tape.share1.bytes(), tape.mask1.bytes());
    write_front(front2, tape.blind2, tape.share2.bytes(), tape.mask2.bytes());
    write_third_front(lock, key, tape, front3);
    let third_shares = Group::lawful(&front3[BLIND_LENGTH..], lock.input_count());
    let mut trio = Trio::start(lock, tape, &third_shares, work1, work2, work3);
    trio.run(lock, products1, products2, products3);
    trio.write_outputs(lock, outs);
}

// Writes a round for lock, key and tape.
pub fn write_round<K: ElementKind, S: Sealer>(
    sealer: &S,
    lock: &OpenLock<'_, K>,
    key: &Group<'_, K>,
    tape: &LawfulTape<'_, K>,
    work1: &mut [u8],
    work2: &mut [u8],
    work3: &mut [u8],
    views: &mut [u8],
    first: &mut [u8],
)
    requires fitting { Fitting lock.now key.now tape.now }
    requires short { length_of_view K.ElementKind.kind lock.now ≤ S.Sealer.sealing.longest }
    requires room1 { length_of_work K.ElementKind.kind lock.now ≤ length work1.old }
    requires room2 { length_of_work K.ElementKind.kind lock.now ≤ length work2.old }
    requires room3 { length_of_work K.ElementKind.kind lock.now ≤ length work3.old }
    requires long { length views.old ≡ 3 * length_of_view K.ElementKind.kind lock.now }
    requires sized { length first.old ≡ length_of_first K.ElementKind.kind lock.now S.Sealer.sealing.size }
    ensures views { views.new ≡ views_on K.ElementKind.kind lock.now key.now tape.now }
    ensures first { first.new ≡ first_on K.ElementKind.kind lock.now key.now tape.now S.Sealer.sealing }
{
    let (mark, rest) = first.split_at_mut(2);
    let (outs, seals) = rest.split_at_mut(3 * group_length::<K>(lock.output_count()));
    mark.copy_from_slice(b"FM");
    write_views(lock, key, tape, work1, work2, work3, views, outs);
    write_seals(sealer, views, lock.view_length(), seals);
}
