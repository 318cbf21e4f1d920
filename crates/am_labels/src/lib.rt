//! Labels: label sets and annotations, and the hashes of label sets and tenant names.
#![tactic(auto)]

mod annotations;
mod flat;
mod hash;
mod label_set;
mod names;
mod pairs;

ghost use Rattle.std.specs.Prelude.{◌≡◌, IfOk, Some};
ghost use Rattle.am_labels.specs.Sets.{code_of};

use am_text::Text;
pub use annotations::Annotations;
pub use hash::{place, print_fingerprint};
pub use label_set::LabelSet;
pub use names::is_label_name;
use std::alloc::{AllocError, Global};
use std::error::Error;
use std::fmt;

/// A name and its value. Labels are ordered by name, then by value, each by bytes.
#[derive(PartialEq, Eq, PartialOrd, Ord, Drop)]
pub struct Label {
    /// The name.
    pub name: Text,
    /// The value.
    pub value: Text,
}

impl Label {
    /// A copy of the label.
    pub fn copy(&self, alloc: Global) -> Result<Label, AllocError>
        ensures { IfOk result (λ label. label ≡ self.now) }
    {
        Ok(Label {
            name: self.name.copy(alloc)?,
            value: self.value.copy(alloc)?,
        })
    }
}

/// Why pairs of names and values make no label set and no annotations.
#[derive(Clone, Copy, Debug, PartialEq, Eq)]
pub enum LabelRefusal {
    /// A name is no label name.
    BadName,
    /// A name is given twice.
    Repeated,
}

impl LabelRefusal {
    /// The code of the refusal, `L1` or `L2`.
    pub fn code(self) -> &'static str
        ensures { result.now ≡ code_of self }
    {
        match self {
            LabelRefusal::BadName => "L1",
            LabelRefusal::Repeated => "L2",
        }
    }
}

impl fmt::Display for LabelRefusal {
    ghost use Rattle.std.specs.Prelude.{Some};

    ghost output = { λ refusal. Some (code_of refusal) };

    fn fmt<W: fmt::Write>(&self, f: &mut fmt::Formatter<W>) -> fmt::Result {
        f.pad(self.code())
    }
}

impl Error for LabelRefusal {}
