// Tests by example of what stands below the market: units at the bounds of their ranges, and frames.
#![tactic(auto)]

#[cfg(test)]
mod frames;
#[cfg(test)]
mod ranges;
