//! Worked examples of what no scenario shows: command lines, bytes that are no text, connections that are closed, and
//! identifiers that are all held.
#![tactic(auto)]

#[cfg(test)]
mod http;
#[cfg(test)]
mod options;
#[cfg(test)]
mod words;
