// The seals of a first message.
ghost use Rattle.std.specs.Prelude.{◌≡◌, ◌+◌, ◌*◌, ◌++◌, ◌≤◌, length, take, drop};
ghost use Rattle.promises.specs.Drawn.{third_of};
ghost use Rattle.faults.specs.declared.Branch.TheVariants.{One as one, Two as two, Three as three};

use seals::Sealer;

// Writes the seals of three views of one length over the whole of `seals`.
pub(crate) fn write_seals<S: Sealer>(sealer: &S, views: &[u8], view_length: usize, seals: &mut [u8])
    requires short { (view_length ≤ S.sealing.longest) × (view_length ≤ 65535) }
    requires long { length views.now ≡ 3 * view_length }
    requires sized { length seals.old ≡ 3 * S.sealing.size }
    ensures { seals.new ≡ S.sealing.seal (third_of view_length views.now one) ++ (S.sealing.seal (third_of view_length views.now two) ++ S.sealing.seal (third_of view_length views.now three)) }
{
    let (view1, rest) = views.split_at(view_length);
    let (view2, view3) = rest.split_at(view_length);
    let (seal1, rest) = seals.split_at_mut(S::LENGTH);
    let (seal2, seal3) = rest.split_at_mut(S::LENGTH);
    sealer.digest(view1, seal1);
    sealer.digest(view2, seal2);
    sealer.digest(view3, seal3);
}
