// Locks: the records in their bytes, the reader with every refusal, and the lengths that follow from the counts.
#![tactic(auto)]

ghost use Rattle.locks.specs.Encoding.{ReadingLaw};
ghost use Rattle.locks.specs.Refusing.{RefusalLaw};

mod header;
mod lengths;
pub mod limits;
pub mod lock;
pub mod reader;
pub mod records;

// The laws of reading, for every kind that keeps its laws: what is accepted, and what a fault tells.
pub fn reading_stands()
    ensures accepted { ReadingLaw }
    ensures refused { RefusalLaw }
{}
