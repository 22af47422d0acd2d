// Tests of rankings and draws, in a crate of their own so that those crates are proved once.
#![tactic(auto)]

#[cfg(test)]
mod examples;
