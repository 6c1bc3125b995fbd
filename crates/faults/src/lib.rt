// Why a call refuses, and where.
#![tactic(auto)]

ghost use Rattle.std.specs.Prelude.{◌≡◌, Some};
ghost use Rattle.faults.specs.Branches.{next, behind, pick_byte, told_branch, picked};
ghost use Rattle.faults.specs.Numbers.{number_of, fault, fault_in, NumbersDiffer};
ghost use Rattle.faults.specs.Texts.{refused_text};

use std::error::Error;
use std::fmt;

// One of the three branches that a run is split into, with the number by which it is told outside.
#[derive(Clone, Copy, PartialEq, Eq, Debug)]
pub enum Branch {
    One = 1,
    Two = 2,
    Three = 3,
}

// Each case says which rule was broken, and has the number by which it is told outside; docs/FAULTS.md tells who can cause it
// and what branch and place mean.
#[derive(Clone, Copy, PartialEq, Eq, Debug)]
pub enum Reason {
    // the lock's author
    Truncated = 1,
    WrongMark = 2,
    OutsideLimits = 3,
    WireTooHigh = 4,
    UnlawfulConstant = 5,
    TrailingBytes = 6,
    // the host
    WrongSize = 7,
    WrongPick = 8,
    UnknownRound = 9,
    SpentRound = 10,
    KeeperFull = 11,
    // the key's owner and whoever draws the tape
    UnlawfulKey = 12,
    KeyDoesNotFit = 13,
    UnlawfulTape = 14,
    // the sender
    MalformedFirstMessage = 15,
    MalformedAnswer = 16,
    MissedTarget = 17,
    WrongSeal = 18,
    WrongOutputShare = 19,
    WrongProduct = 20,
}

// A refusal: its reason, the branch that it speaks of, if any, and the place.
#[derive(Clone, Copy, PartialEq, Eq, Debug)]
pub struct Fault {
    pub reason: Reason,
    pub branch: Option<Branch>,
    pub place: usize,
}

impl Branch {
    // The branch after it, which a pick of it opens too.
    pub fn after(self) -> Branch
        ensures { result ≡ next self }
    {
        match self {
            Branch::One => Branch::Two,
            Branch::Two => Branch::Three,
            Branch::Three => Branch::One,
        }
    }

    // How many branches stand before it.
    pub fn before(self) -> usize
        ensures { result ≡ behind self }
    {
        self as usize - 1
    }

    pub fn number(self) -> u8
        ensures { result ≡ pick_byte self }
    {
        self as u8
    }

    // A branch as it is told outside: its number, or 0 for none.
    pub fn told(branch: Option<Branch>) -> u8
        ensures { result ≡ told_branch branch }
    {
        branch.map_or(0, Branch::number)
    }
}

// The branch that a pick opens first.
impl TryFrom<u8> for Branch {
    type Error = Fault;

    ghost try_from_gives = { λ pick outcome. outcome ≡ picked pick };

    fn try_from(pick: u8) -> Result<Branch, Fault> {
        match pick {
            1 => Ok(Branch::One),
            2 => Ok(Branch::Two),
            3 => Ok(Branch::Three),
            _ => Err(Fault::at(Reason::WrongPick, pick as usize)),
        }
    }
}

impl Reason {
    // The number by which the reason is told outside.
    pub fn number(self) -> u8
        ensures value { result ≡ number_of self }
        ensures apart { NumbersDiffer }
    {
        self as u8
    }
}

impl Fault {
    // A refusal that speaks of no branch.
    pub fn at(reason: Reason, place: usize) -> Fault
        ensures { result ≡ fault reason place }
    {
        Fault {
            reason,
            branch: None,
            place,
        }
    }

    pub fn in_branch(branch: Branch, reason: Reason, place: usize) -> Fault
        ensures { result ≡ fault_in branch reason place }
    {
        Fault {
            reason,
            branch: Some(branch),
            place,
        }
    }
}

impl fmt::Display for Fault {
    ghost output = { λ f. Some (refused_text f) };

    fn fmt<W: fmt::Write>(&self, f: &mut fmt::Formatter<W>) -> fmt::Result {
        let number = self.reason.number();
        let branch = Branch::told(self.branch);
        let place = self.place;
        write!(f, "refused {number} {branch} {place}")
    }
}

impl Error for Fault {}
