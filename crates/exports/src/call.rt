// A call of the engine for the kind and the sealer that its caller names by number.
ghost use Rattle.std.specs.Prelude.{◌≡◌, Result, Option, Some, None};
ghost use Rattle.kinds.specs.Kind.{Kind};
ghost use Rattle.seals.specs.Sealing.{Sealing};
ghost use Rattle.exports.specs.declared.told.Refusal.{Refusal};
ghost use Rattle.kinds.specs.Names.{kind_of};
ghost use Rattle.exports.specs.Numbered.{sealing_of, chosen, by_number};

use crate::names::{SealerName, names};
use crate::told::Refusal;
use kinds::bit::Bit;
use kinds::kind::ElementKind;
use kinds::name::KindName;
use kinds::residue::Residue;
use kinds::word::Word;
use seals::Sealer;
use sha2_256::Sha256;
use sha3::Sha3_256;

// What is asked, with the buffers that it fills.
pub(crate) trait Call {
    type Out: Copy;

    ghost outcome: { Kind → Sealing → Self → Result Self.Out Refusal };

    // How the call leaves its buffers, for a kind and a sealer or where none is named.
    ghost Leaves: { Option (Kind × Sealing) → Self → Self → Type 0 };

    fn run<K: ElementKind, S: Sealer>(&mut self, sealer: &S) -> Result<Self::Out, Refusal>
        ensures outcome { result ≡ outcome K.kind S.sealing self.old }
        ensures leaves { Leaves (Some (K.kind, S.sealing)) self.old self.new };

    // Leaves nothing of what lay in the work slices.
    fn refuse(&mut self)
        ensures { Leaves None self.old self.new };
}

fn run_for<K: ElementKind, C: Call>(sealer: SealerName, call: &mut C) -> Result<C::Out, Refusal>
    ensures outcome { result ≡ C.outcome K.kind (sealing_of sealer) call.old }
    ensures leaves { C.Leaves (Some (K.kind, sealing_of sealer)) call.old call.new }
{
    match sealer {
        SealerName::Sha256 => call.run::<K, Sha256>(&Sha256),
        SealerName::Sha3_256 => call.run::<K, Sha3_256>(&Sha3_256),
    }
}

fn run_named<C: Call>(kind: KindName, sealer: SealerName, call: &mut C) -> Result<C::Out, Refusal>
    ensures outcome { result ≡ C.outcome (kind_of kind) (sealing_of sealer) call.old }
    ensures leaves { C.Leaves (Some (kind_of kind, sealing_of sealer)) call.old call.new }
{
    match kind {
        KindName::Bit => run_for::<Bit, C>(sealer, call),
        KindName::Word => run_for::<Word, C>(sealer, call),
        KindName::Residue => run_for::<Residue, C>(sealer, call),
    }
}

pub(crate) fn by_number<C: Call>(kind: u8, sealer: u8, call: &mut C) -> Result<C::Out, Refusal>
    ensures outcome { result ≡ by_number kind sealer (λ K S. C.outcome K S call.old) }
    ensures leaves { C.Leaves (chosen kind sealer) call.old call.new }
{
    match names(kind, sealer) {
        Ok((kind, sealer)) => run_named(kind, sealer, call),
        Err(refusal) => {
            call.refuse();
            Err(refusal)
        }
    }
}
