// A fault beside the pick that it speaks of, if any.
ghost use Rattle.std.specs.Prelude.{◌≡◌};
ghost use Rattle.theory.specs.Extraction.{at_pick};

use faults::{Branch, Fault};
use theory::PickFault;

// The fault stays whole.
pub(crate) fn at_pick<T>(outcome: Result<T, Fault>, pick: Option<Branch>) -> Result<T, PickFault>
    ensures { result ≡ at_pick pick outcome }
{
    outcome.map_err(|fault| PickFault { pick, fault })
}
