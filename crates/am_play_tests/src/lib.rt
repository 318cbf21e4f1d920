//! Worked examples of what fails while a scenario is played or clients are served: a call of a link, or of a store. The
//! program itself plays whole scenarios (`tests/`).
#![tactic(auto)]

#[cfg(test)]
mod gateways;
#[cfg(test)]
mod links;
#[cfg(test)]
mod playing;
#[cfg(test)]
mod stores;
