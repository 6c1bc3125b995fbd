// The engine's public face: one place to import from, and the promises that hold of what is imported (docs/PROOFS.md).
#![tactic(auto)]

ghost use Rattle.theory.specs.Soundness.{Soundness};
ghost use Rattle.theory.specs.Completeness.{Completeness};
ghost use Rattle.theory.specs.Hiding.{Hiding};
ghost use Rattle.theory.specs.Worked.{Worked, Witness};

pub use extractor::extract::extract;
pub use faults::{Branch, Fault, Reason};
pub use keeper::Keeper;
pub use kinds::bit::Bit;
pub use kinds::kind::ElementKind;
pub use kinds::name::KindName;
pub use kinds::residue::Residue;
pub use kinds::word::Word;
pub use locks::lock::Lock;
pub use locks::lock::whole::read_lock;
pub use locks::reader::Reader;
pub use play::{play_on, play_round};
pub use seals::Sealer;
pub use sha2_256::Sha256;
pub use sha3::Sha3_256;
use theory::promises;
pub use theory::{Extracted, PickFault};

mod play;

pub use verifier::verify::verify;

// The promises, of the very definitions that the contracts of `promise`, `answer`, `drop_round`, `verify` and `extract` cite;
// the worked example; and that the promises' premises can be met.
pub fn promises_stand()
    ensures sound { Soundness }
    ensures complete { Completeness }
    ensures hides { Hiding }
    ensures example { Worked }
    ensures met { Witness }
{
    promises::promises_stand();
    promises::worked_stands();
}
