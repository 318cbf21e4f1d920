//! Worked examples: items, what is held of them, posts, silences and messages.
#![tactic(auto)]

#[cfg(test)]
mod alert;
#[cfg(test)]
mod item;
#[cfg(test)]
mod parts;
#[cfg(test)]
mod payload;
#[cfg(test)]
mod silence;
#[cfg(test)]
mod wire;
