// The verifier on the worked word lock, on one case for each of its faults, and on damaged messages.
#![tactic(auto)]

#[cfg(test)]
mod tests;
