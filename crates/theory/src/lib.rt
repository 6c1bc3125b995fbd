// The protocol as definitions (specs/), and what is proved of them (docs/PROOFS.md); here are the types of its outcomes.
#![tactic(auto)]

pub use faults::Branch;
use faults::Fault;

pub mod laws;
pub mod promises;
mod records;

// What three accepted answers give: a key, or a branch whose two views differ first at an offset.
#[derive(Clone, Copy, PartialEq, Eq, Debug)]
pub enum Extracted {
    Key,
    Collision { branch: Branch, offset: usize },
}

// The fault of the verifier, or of the extractor's own tests, beside the pick that it speaks of, if any.
#[derive(Clone, Copy, PartialEq, Eq, Debug)]
pub struct PickFault {
    pub pick: Option<Branch>,
    pub fault: Fault,
}

// What a keeper remembers of a round, with the number by which it is told outside.
#[derive(Clone, Copy, PartialEq, Eq, Debug, Default)]
pub enum RoundState {
    #[default]
    Promised = 0,
    Answered = 1,
    Dropped = 2,
}

// A number that no record has.
#[derive(Clone, Copy, PartialEq, Eq, Debug)]
pub struct UnknownRecord;
