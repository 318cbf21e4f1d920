//! Worked examples: timers, attempts, clients, calls, and what waits of tenants.
#![tactic(auto)]

#[cfg(test)]
mod lanes;
#[cfg(test)]
mod outlet;
#[cfg(test)]
mod serving;
#[cfg(test)]
mod timer;
