//! Worked examples of settling.
#![tactic(auto)]

#[cfg(test)]
mod pieces;
#[cfg(test)]
mod transfers;
