// The kinds by name, for what learns a kind from a number.
ghost use Rattle.std.specs.Prelude.{◌≡◌, ok_or};
ghost use Rattle.kinds.specs.Kind.{Kind};
ghost use Rattle.kinds.specs.Names.{kind_of, named};

// Each has its kind's number.
#[derive(Clone, Copy, PartialEq, Eq, Debug)]
pub enum KindName {
    Bit = 1,
    Word = 2,
    Residue = 3,
}

#[derive(Clone, Copy, PartialEq, Eq, Debug)]
pub struct NoKind;

impl KindName {
    pub fn number(self) -> u8
        ensures { result ≡ (kind_of self).number }
    {
        self as u8
    }
}

impl TryFrom<u8> for KindName {
    type Error = NoKind;

    ghost try_from_gives = { λ number outcome. outcome ≡ ok_or (named number) (record {}) };

    fn try_from(number: u8) -> Result<KindName, NoKind> {
        match number {
            1 => Ok(KindName::Bit),
            2 => Ok(KindName::Word),
            3 => Ok(KindName::Residue),
            _ => Err(NoKind),
        }
    }
}
