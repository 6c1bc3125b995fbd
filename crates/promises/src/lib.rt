// A round is written: three branches of a run of the key, their views in the keeper's store, and the first message.
#![tactic(auto)]

mod first;
mod fronts;
pub mod key;
mod outputs;
pub mod round;
mod run;
mod shares;
pub mod tape;
