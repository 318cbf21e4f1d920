//! Worked examples of what a scenario would need megabytes for: the greatest configurations, and matchers after many
//! refused patterns.
#![tactic(auto)]

#[cfg(test)]
mod config;
#[cfg(test)]
mod judging;
#[cfg(test)]
mod labels;
#[cfg(test)]
mod matchers;
