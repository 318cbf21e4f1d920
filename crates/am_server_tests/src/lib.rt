//! Worked examples of the engine: what it does with the hands of both clocks, and with notices that give way.
#![tactic(auto)]

#[cfg(test)]
mod engine;
