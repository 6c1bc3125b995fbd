// Round records by number.
ghost use Rattle.std.specs.Prelude.{◌≡◌};
ghost use Rattle.theory.specs.Records.{record_numbered, record_number};

use crate::{RoundState, UnknownRecord};

impl TryFrom<u8> for RoundState {
    type Error = UnknownRecord;

    ghost try_from_gives = { λ number outcome. outcome ≡ record_numbered number };

    fn try_from(number: u8) -> Result<RoundState, UnknownRecord> {
        match number {
            0 => Ok(RoundState::Promised),
            1 => Ok(RoundState::Answered),
            2 => Ok(RoundState::Dropped),
            _ => Err(UnknownRecord),
        }
    }
}

impl RoundState {
    pub fn number(self) -> u8
        ensures { result ≡ record_number self }
    {
        self as u8
    }
}
