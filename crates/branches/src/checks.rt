// A size that is wrong.
ghost use Rattle.std.specs.Prelude.{◌≡◌, Ok};
ghost use Rattle.faults.specs.Numbers.{fault};
ghost use Rattle.faults.specs.Outcomes.{check};
ghost use Rattle.faults.specs.declared.Reason.{Reason};

use faults::{Fault, Reason};

// The size of a call's argument is refused by the argument's place.
pub fn size_right(right: bool, place: usize) -> Result<(), Fault>
    ensures { result ≡ check right (fault Reason.WrongSize place) (Ok tt) }
{
    if right {
        Ok(())
    } else {
        Err(Fault::at(Reason::WrongSize, place))
    }
}
