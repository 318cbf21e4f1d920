//! Writes compact JSON.

ghost use Rattle.std.specs.Prelude.{◌≡◌, ◌++◌, ◌∷◌, [], OnOk};
ghost use Rattle.std.specs.List.Sorted.{IsStrictlySortedBy};
ghost use Rattle.json.specs.Token.{begin_object, end_object, begin_array, end_array, key};
ghost use Rattle.serde_json.specs.Data.{Data, boolean, number, string, unsigned};
ghost use Rattle.serde_json.specs.Written.{compact_text};
ghost use Rattle.am_text.specs.Printing.{moment_text};
ghost use Rattle.am_labels.specs.Hashes.{fingerprint, fingerprint_text};
ghost use Rattle.am_labels.specs.Labels.{name_cmp};
ghost use Rattle.am_json.specs.Written.{data_tokens, member_tokens, labels_data};

use am_labels::{Annotations, Label, LabelSet, print_fingerprint};
use am_text::{Moment, Octets, Text, print_moment};
use json::Writer;
use std::alloc::{AllocError, Global};
use std::marker::Model;

/// One JSON text (RFC 8259) that is being written, with no spaces, into one buffer. A clause sees the tokens so far.
///
/// The caller sees to it that objects and arrays are closed and that each member begins with its key. A call fails
/// only where memory runs out; what it leaves then is part of a text, to be dropped.
#[derive(Drop)]
pub struct JsonWriter {
    alloc: Global,
    writer: Writer,
}

impl Model for JsonWriter {
    ghost use Rattle.std.specs.Prelude.{◌≡◌, List, []};
    ghost use Rattle.json.specs.Token.{Token, tokens_code};

    ghost Value = { List Token };

    ghost coded = { tokens_code };

    ghost view = { λ text. text.writer.tokens };

    ghost invariant = { λ text. text.writer.before ≡ [] };
}

impl JsonWriter {
    /// A text with nothing written.
    pub fn new(alloc: Global) -> JsonWriter
        ensures { result ≡ [] }
    {
        JsonWriter {
            alloc,
            writer: Writer::new(Vec::new(alloc)),
        }
    }

    /// The bytes of the text. Where the tokens are those of a value, they are what `serde_json` writes of it.
    pub fn finish(self) -> Octets
        ensures { (d : Data) → self ≡ data_tokens d → result ≡ compact_text d }
    {
        let JsonWriter { writer, .. } = self;
        Octets::from_vec(writer.into_inner())
    }

    /// Begins an object.
    pub fn begin_object(&mut self) -> Result<(), AllocError>
        ensures { OnOk result (self.new ≡ self.old ++ begin_object ∷ []) }
    {
        self.writer.begin_object()
    }

    /// Ends the object that was begun last.
    pub fn end_object(&mut self) -> Result<(), AllocError>
        ensures { OnOk result (self.new ≡ self.old ++ end_object ∷ []) }
    {
        self.writer.end_object()
    }

    /// Begins an array.
    pub fn begin_array(&mut self) -> Result<(), AllocError>
        ensures { OnOk result (self.new ≡ self.old ++ begin_array ∷ []) }
    {
        self.writer.begin_array()
    }

    /// Ends the array that was begun last.
    pub fn end_array(&mut self) -> Result<(), AllocError>
        ensures { OnOk result (self.new ≡ self.old ++ end_array ∷ []) }
    {
        self.writer.end_array()
    }

    /// The key of a member, whose value comes next.
    pub fn key(&mut self, name: &str) -> Result<(), AllocError>
        ensures { OnOk result (self.new ≡ self.old ++ key name.now ∷ []) }
    {
        self.writer.key(name)
    }

    /// A text.
    pub fn string(&mut self, text: &str) -> Result<(), AllocError>
        ensures { OnOk result (self.new ≡ self.old ++ data_tokens (string text.now)) }
    {
        self.writer.string(text)
    }

    /// A whole number.
    pub fn number(&mut self, count: u64) -> Result<(), AllocError>
        ensures { OnOk result (self.new ≡ self.old ++ data_tokens (number (unsigned count))) }
    {
        self.writer.u64(count)
    }

    /// A truth value.
    pub fn boolean(&mut self, flag: bool) -> Result<(), AllocError>
        ensures { OnOk result (self.new ≡ self.old ++ data_tokens (boolean flag)) }
    {
        self.writer.boolean(flag)
    }

    /// A member whose value is a text.
    pub fn text_member(&mut self, name: &str, text: &Text) -> Result<(), AllocError>
        ensures { OnOk result (self.new ≡ self.old ++ member_tokens name.now (string text.now)) }
    {
        self.key(name)?;
        self.string(text.as_str())
    }

    /// A member whose value is a moment, as a text in UTC with three digits of a fraction (RFC 3339 section 5.6).
    pub fn moment_member(&mut self, name: &str, moment: Moment) -> Result<(), AllocError>
        ensures { OnOk result (self.new ≡ self.old ++ member_tokens name.now (string (moment_text moment))) }
    {
        let text = print_moment(self.alloc, moment)?;
        self.text_member(name, &text)
    }

    /// A member whose value is the fingerprint of a label set, as sixteen lower hexadecimal digits.
    pub fn fingerprint_member(&mut self, name: &str, labels: &LabelSet) -> Result<(), AllocError>
        ensures { OnOk result (self.new ≡ self.old ++ member_tokens name.now (string (fingerprint_text (fingerprint labels.now)))) }
    {
        let text = print_fingerprint(self.alloc, labels.fingerprint())?;
        self.text_member(name, &text)
    }

    /// A member whose value is an object of the labels, in order of name.
    pub fn labels_member(&mut self, name: &str, labels: &LabelSet) -> Result<(), AllocError>
        ensures { OnOk result (self.new ≡ self.old ++ member_tokens name.now (labels_data labels.now)) }
    {
        self.pairs_member(name, labels.labels())
    }

    /// A member whose value is an object of the annotations, in order of name.
    pub fn annotations_member(
        &mut self,
        name: &str,
        annotations: &Annotations,
    ) -> Result<(), AllocError>
        ensures { OnOk result (self.new ≡ self.old ++ member_tokens name.now (labels_data annotations.now)) }
    {
        self.pairs_member(name, annotations.labels())
    }

    // A member whose value is an object of these names and values.
    fn pairs_member(&mut self, name: &str, pairs: &[Label]) -> Result<(), AllocError>
        requires { IsStrictlySortedBy name_cmp pairs.now }
        ensures { OnOk result (self.new ≡ self.old ++ member_tokens name.now (labels_data pairs.now)) }
    {
        self.key(name)?;
        self.begin_object()?;
        for pair in pairs {
            self.text_member(pair.name.as_str(), &pair.value)?;
        }
        self.end_object()
    }
}
