// Element kinds: the interface, three kinds, and what follows for every kind.
#![tactic(auto)]

pub mod bit;
pub mod kind;
mod modular;
pub mod name;
pub mod residue;
pub mod trips;
pub mod word;
