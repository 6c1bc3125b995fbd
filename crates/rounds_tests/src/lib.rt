// Whole rounds: what a keeper promises and answers, a verifier accepts, and three answers give the key back.
#![tactic(auto)]

#[cfg(test)]
mod tests;
