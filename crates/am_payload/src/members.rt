//! Members of objects.

ghost use Rattle.std.specs.Prelude.{◌≡◌, ◌++◌, OnOk, map};
ghost use Rattle.std.specs.List.Sorted.{IsStrictlySortedBy};
ghost use Rattle.serde_json.specs.Data.{string};
ghost use Rattle.am_labels.specs.Labels.{name_cmp};
ghost use Rattle.am_json.specs.Written.{labels_data, member_tokens};

use am_json::JsonWriter;
use am_labels::Label;
use std::alloc::AllocError;

/// A member whose value is a text.
pub fn string_member(text: &mut JsonWriter, name: &str, value: &str) -> Result<(), AllocError>
    ensures { OnOk result (text.new ≡ text.old ++ member_tokens name.now (string value.now)) }
{
    text.key(name)?;
    text.string(value)
}

/// A member whose value is an object of these names and values, which are in order of name.
pub fn pairs_member(text: &mut JsonWriter, name: &str, pairs: &[&Label]) -> Result<(), AllocError>
    requires { IsStrictlySortedBy name_cmp (map (λ pair. pair.now) pairs.now) }
    ensures { OnOk result (text.new ≡ text.old ++ member_tokens name.now (labels_data (map (λ pair. pair.now) pairs.now))) }
{
    text.key(name)?;
    text.begin_object()?;
    for pair in pairs {
        text.text_member(pair.name.as_str(), &pair.value)?;
    }
    text.end_object()
}
