//! Tests of the store over files in memory: stops at each write, and files of other programs.
#![tactic(auto)]

#[cfg(test)]
mod by_hand;
#[cfg(test)]
mod disk;
#[cfg(test)]
mod found;
#[cfg(test)]
mod items;
#[cfg(test)]
mod stops;
#[cfg(test)]
mod work;
