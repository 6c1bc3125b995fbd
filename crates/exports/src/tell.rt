// An outcome as C is told it: a status, and a fault.
ghost use Rattle.std.specs.Prelude.{◌≡◌, None};
ghost use Rattle.theory.specs.Extraction.{beside};
ghost use Rattle.exports.specs.declared.told.Refusal.{Refusal};
ghost use Rattle.exports.specs.Outcomes.{fault_told, status_by, refusal_told, status_of, fault_of};

use crate::told::{Refusal, ToldFault};
use faults::{Branch, Fault};
use theory::PickFault;

const NO_FAULT: ToldFault = ToldFault {
    place: 0,
    number: 0,
    branch: 0,
    pick: 0,
};

impl From<PickFault> for Refusal {
    ghost from_gives = { λ fault refusal. refusal ≡ Refusal.Refused fault };

    fn from(fault: PickFault) -> Refusal {
        Refusal::Refused(fault)
    }
}

// A fault that speaks of no pick.
impl From<Fault> for Refusal {
    ghost from_gives = { λ fault refusal. refusal ≡ Refusal.Refused (beside None fault) };

    fn from(fault: Fault) -> Refusal {
        Refusal::Refused(PickFault { pick: None, fault })
    }
}

impl From<PickFault> for ToldFault {
    ghost from_gives = { λ fault told. told ≡ fault_told fault };

    fn from(fault: PickFault) -> ToldFault {
        ToldFault {
            place: fault.fault.place as u64,
            number: fault.fault.reason.number(),
            branch: Branch::told(fault.fault.branch),
            pick: Branch::told(fault.pick),
        }
    }
}

impl From<Refusal> for ToldFault {
    ghost from_gives = { λ refusal told. told ≡ refusal_told refusal };

    fn from(refusal: Refusal) -> ToldFault {
        match refusal {
            Refusal::Refused(fault) => fault.into(),
            Refusal::NoKind | Refusal::NoSealer | Refusal::BadKeeper => NO_FAULT,
        }
    }
}

impl Refusal {
    // What a call returns that was not done; one that was done returns 0.
    fn status(self) -> u8
        ensures { result ≡ status_by self }
    {
        match self {
            Refusal::Refused(_) => 1,
            Refusal::NoKind => 2,
            Refusal::NoSealer => 3,
            Refusal::BadKeeper => 4,
        }
    }
}

// Writes the fault, and gives the status.
pub(crate) fn tell<T: Copy>(outcome: Result<T, Refusal>, fault: &mut ToldFault) -> u8
    ensures status { result ≡ status_of outcome }
    ensures fault { fault.new ≡ fault_of outcome }
{
    match outcome {
        Ok(_) => {
            *fault = NO_FAULT;
            0
        }
        Err(refusal) => {
            *fault = refusal.into();
            refusal.status()
        }
    }
}
