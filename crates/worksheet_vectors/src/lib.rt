#![tactic(auto)]

// Worked examples of the worksheet. The expected values were computed by another program, or by hand.
#[cfg(test)]
mod lines;
#[cfg(test)]
mod narrow;
#[cfg(test)]
mod pasts;
#[cfg(test)]
mod tables;
