// What keeper and verifier share: wires in a work space, elements of groups, one gate in one branch, a lock's records walked again.
#![tactic(auto)]

pub mod bytes;
pub mod checks;
pub mod gates;
pub mod group;
pub mod groups;
pub mod lock;
pub mod rows;
pub mod view;
pub mod views;
pub mod walk;
pub mod wires;
