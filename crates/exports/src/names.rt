// Kinds and sealers, by the numbers that a caller gives.
ghost use Rattle.std.specs.Prelude.{◌≡◌, ok_or};
ghost use Rattle.exports.specs.declared.told.Refusal.{Refusal};
ghost use Rattle.exports.specs.Numbered.{sealer_named, names};

use crate::told::Refusal;
use kinds::name::{KindName, NoKind};

#[derive(Clone, Copy)]
pub(crate) enum SealerName {
    Sha256,
    Sha3_256,
}

impl TryFrom<u8> for SealerName {
    type Error = Refusal;

    ghost try_from_gives = { λ number outcome. outcome ≡ ok_or (sealer_named number) Refusal.NoSealer };

    fn try_from(number: u8) -> Result<SealerName, Refusal> {
        match number {
            1 => Ok(SealerName::Sha256),
            2 => Ok(SealerName::Sha3_256),
            _ => Err(Refusal::NoSealer),
        }
    }
}

impl From<NoKind> for Refusal {
    ghost from_gives = { λ _ refusal. refusal ≡ Refusal.NoKind };

    fn from(_no_kind: NoKind) -> Refusal {
        Refusal::NoKind
    }
}

pub(crate) fn names(kind: u8, sealer: u8) -> Result<(KindName, SealerName), Refusal>
    ensures { result ≡ names kind sealer }
{
    Ok((KindName::try_from(kind)?, SealerName::try_from(sealer)?))
}
