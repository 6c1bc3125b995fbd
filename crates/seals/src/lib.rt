// Sealers: what commits to a message by a value of fixed length.
#![tactic(auto)]

ghost use Rattle.std.specs.Prelude.{◌≡◌, ℕ, ◌≤◌, length};
ghost use Rattle.seals.specs.Sealing.{Sealing, Sound};
ghost use Rattle.seals.specs.Outcome.{admitted, seal_answer, seal_left};

use faults::{Fault, Reason};

pub trait Sealer {
    // How many bytes a seal has, and the longest message.
    const LENGTH: usize;

    const LONGEST: usize;

    ghost LENGTH: { ℕ };

    ghost LONGEST: { ℕ };

    // The function that the sealer computes.
    ghost sealing: { Sealing };

    // Writes the seal of `message` over `out`, for lengths that `seal` takes.
    fn digest(&self, message: &[u8], out: &mut [u8])
        requires short { length message.now ≤ sealing.longest }
        requires sized { length out.old ≡ sealing.size }
        ensures { out.new ≡ sealing.seal message.now };

    // Writes the seal of `message` over `out`, or refuses and leaves `out` as it was.
    fn seal(&self, message: &[u8], out: &mut [u8]) -> Result<(), Fault>
        ensures answer { result ≡ seal_answer sealing (length message.now) (length out.old) }
        ensures left { out.new ≡ seal_left sealing message.now out.old }
    {
        admit(Self::LONGEST, Self::LENGTH, message.len(), out.len())?;
        self.digest(message, out);
        Ok(())
    }

    ghost length_is: { LENGTH ≡ sealing.size };

    ghost longest_is: { LONGEST ≡ sealing.longest };

    ghost sound: { Sound sealing };
}

// Whether a message and a buffer of these lengths are taken by a sealer: the refusals of every sealer.
pub fn admit(longest: usize, size: usize, message: usize, out: usize) -> Result<(), Fault>
    ensures { result ≡ admitted longest size message out }
{
    if message > longest {
        return Err(Fault::at(Reason::WrongSize, 0));
    }
    if out != size {
        return Err(Fault::at(Reason::WrongSize, 1));
    }
    Ok(())
}
