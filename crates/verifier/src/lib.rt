// The verifier: a first message and an answer, accepted or refused.
#![tactic(auto)]

pub mod answer;
mod figure;
mod first;
pub mod messages;
mod rerun;
mod sizes;
pub mod verify;
pub mod view;
