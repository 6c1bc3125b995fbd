// Three accepted answers to one first message give a key, or two views with one seal.
#![tactic(auto)]

mod accepted;
pub mod extract;
mod picks;
mod sizes;
