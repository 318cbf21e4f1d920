//! A metric and its values, as text.

use std::alloc::{AllocError, Global};

/// A metric: its name, its type, and what it tells.
#[derive(Clone, Copy)]
pub struct Metric {
    pub name: &'static str,
    pub kind: &'static str,
    pub help: &'static str,
}

/// Adds what stands before a metric's values.
///
/// # Errors
/// Out of memory.
pub(crate) fn add_head(alloc: Global, text: &mut String, metric: Metric) -> Result<(), AllocError> {
    let Metric { name, kind, help } = metric;
    let head = format!(in alloc; "# HELP {name} {help}\n# TYPE {name} {kind}\n")?;
    text.push_str(&head)
}

/// Adds a value of a metric, with labels in braces or none.
///
/// # Errors
/// Out of memory.
pub(crate) fn add_value(
    alloc: Global,
    text: &mut String,
    metric: Metric,
    labels: &str,
    value: u64,
) -> Result<(), AllocError> {
    let name = metric.name;
    let line = format!(in alloc; "{name}{labels} {value}\n")?;
    text.push_str(&line)
}

/// Adds a metric that has one value, with labels in braces or none.
///
/// # Errors
/// Out of memory.
pub fn add(
    alloc: Global,
    text: &mut String,
    metric: Metric,
    labels: &str,
    value: u64,
) -> Result<(), AllocError> {
    add_head(alloc, text, metric)?;
    add_value(alloc, text, metric, labels, value)
}

/// Adds a metric that is 1 for some of the eight instances and 0 for the others, in order of number.
///
/// # Errors
/// Out of memory.
pub fn add_each(
    alloc: Global,
    text: &mut String,
    metric: Metric,
    values: [bool; 8],
) -> Result<(), AllocError> {
    add_head(alloc, text, metric)?;
    for (place, value) in values.iter().enumerate() {
        let number = place.saturating_add(1);
        let labels = format!(in alloc; "{{instance=\"{number}\"}}")?;
        add_value(alloc, text, metric, &labels, u64::from(*value))?;
    }
    Ok(())
}
