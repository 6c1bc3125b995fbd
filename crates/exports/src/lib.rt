// The engine for a caller in C (include/pozhuntaka.h). A byte slice is a pointer and then a length.
#![tactic(auto)]

mod call;
pub mod extracting;
pub mod keeping;
mod names;
pub mod reading;
mod state;
mod tell;
pub mod told;
pub mod verifying;
