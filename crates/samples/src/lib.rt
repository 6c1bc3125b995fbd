// What the tests of the calls share: small locks with their keys and tapes, locks of many records, messages made by hand, digests.
#![tactic(auto)]

pub mod built;
pub mod digests;
pub mod messages;
pub mod worked;
