//! Reading from left to right: bytes, numbers and texts.

ghost use Rattle.std.specs.Prelude.{◌≡◌, ◌++◌, ◌∷◌, ◌≤◌, ◌<◌, IsTrue, IsUtf8, IfOk, length};
ghost use Rattle.am_ring.specs.Instances.{is_instance};
ghost use Rattle.am_text.specs.Moment.{greatest_moment};
ghost use Rattle.am_text.specs.Outcome.{Gives};
ghost use Rattle.am_wire.specs.Bytes.{AreBytes};
ghost use Rattle.am_wire.specs.Fields.{bytes_at, byte_at, number_at, flag_at, instance_at, moment_at, text_at, number_bytes, text_bytes, flag_bytes};

use crate::refusal::WireRefusal;
use am_ring::Instance;
use am_text::{Failure, Moment, Text};
use byteorder::{BigEndian, ByteOrder};
use std::alloc::Global;
use std::marker::Model;
use std::str;

/// The bytes that are left to be read. Each call reads a field at their front.
#[derive(Drop)]
pub(crate) struct Reader<'a> {
    left: &'a [u8],
}

impl<'a> Model for Reader<'a> {
    ghost use Rattle.std.specs.Prelude.{ℕ, List};
    ghost use Rattle.am_wire.specs.Bytes.{AreBytes};

    ghost Value = { List ℕ };

    ghost view = { λ reader. reader.left.now };

    ghost invariant = { λ reader. AreBytes reader.left.now };
}

impl<'a> Reader<'a> {
    /// A reader of these bytes.
    pub fn new(left: &'a [u8]) -> Reader<'a>
        ensures { result ≡ left.now }
    {
        Reader { left }
    }

    /// How many bytes are left.
    pub fn len(&self) -> usize
        ensures { result ≡ length self.now }
    {
        self.left.len()
    }

    /// So many bytes.
    #[tactic(auto, unfolding(crate::specs::Fields::bytes_at))]
    pub fn bytes(&mut self, n: usize) -> Result<&'a [u8], Failure<WireRefusal>>
        ensures read { Gives (λ field. (field.now, self.new)) result (bytes_at n self.old) }
        ensures found { IfOk result (λ field. self.old ≡ field.now ++ self.new) }
        ensures length { IfOk result (λ field. length field.now ≡ n) }
        ensures bytes { IfOk result (λ field. AreBytes field.now) }
    {
        if n > self.left.len() {
            return Err(Failure::Refused(WireRefusal::FieldPastEnd));
        }
        let (field, left) = self.left.split_at(n);
        self.left = left;
        Ok(field)
    }

    /// A byte.
    pub fn byte(&mut self) -> Result<u8, Failure<WireRefusal>>
        ensures read { Gives (λ byte. (byte, self.new)) result (byte_at self.old) }
        ensures found { IfOk result (λ byte. self.old ≡ byte ∷ self.new) }
    {
        match self.left {
            [] => Err(Failure::Refused(WireRefusal::FieldPastEnd)),
            [byte, left @ ..] => {
                let byte = *byte;
                self.left = left;
                Ok(byte)
            }
        }
    }

    /// A number in 2 bytes.
    #[tactic(auto, unfolding(crate::specs::Fields::number_at))]
    pub fn u16(&mut self) -> Result<u16, Failure<WireRefusal>>
        ensures read { Gives (λ number. (number, self.new)) result (number_at 2 self.old) }
        ensures found { IfOk result (λ number. self.old ≡ number_bytes 2 number ++ self.new) }
    {
        let field = self.bytes(2)?;
        Ok(BigEndian::read_u16(field))
    }

    /// A number in 4 bytes.
    #[tactic(auto, unfolding(crate::specs::Fields::number_at))]
    pub fn u32(&mut self) -> Result<u32, Failure<WireRefusal>>
        ensures read { Gives (λ number. (number, self.new)) result (number_at 4 self.old) }
        ensures found { IfOk result (λ number. self.old ≡ number_bytes 4 number ++ self.new) }
    {
        let field = self.bytes(4)?;
        Ok(BigEndian::read_u32(field))
    }

    /// A number in 8 bytes.
    #[tactic(auto, unfolding(crate::specs::Fields::number_at))]
    pub fn u64(&mut self) -> Result<u64, Failure<WireRefusal>>
        ensures read { Gives (λ number. (number, self.new)) result (number_at 8 self.old) }
        ensures found { IfOk result (λ number. self.old ≡ number_bytes 8 number ++ self.new) }
    {
        let field = self.bytes(8)?;
        Ok(BigEndian::read_u64(field))
    }

    /// Whether something holds.
    #[tactic(auto, unfolding(crate::specs::Fields::flag_at))]
    pub fn flag(&mut self) -> Result<bool, Failure<WireRefusal>>
        ensures read { Gives (λ flag. (flag, self.new)) result (flag_at self.old) }
        ensures found { IfOk result (λ flag. self.old ≡ flag_bytes flag ++ self.new) }
    {
        match self.byte()? {
            0 => Ok(false),
            1 => Ok(true),
            _ => Err(Failure::Refused(WireRefusal::BadValue)),
        }
    }

    /// The number of an instance.
    #[tactic(auto, unfolding(crate::specs::Fields::instance_at))]
    pub fn instance(&mut self) -> Result<Instance, Failure<WireRefusal>>
        ensures read { Gives (λ instance. (instance, self.new)) result (instance_at self.old) }
        ensures found { IfOk result (λ instance. self.old ≡ instance ∷ self.new) }
        ensures valid { IfOk result (λ instance. IsTrue (is_instance instance)) }
    {
        match Instance::new(self.byte()?) {
            Some(instance) => Ok(instance),
            None => Err(Failure::Refused(WireRefusal::BadValue)),
        }
    }

    /// A moment.
    #[tactic(auto, unfolding(crate::specs::Fields::moment_at))]
    pub fn moment(&mut self) -> Result<Moment, Failure<WireRefusal>>
        ensures read { Gives (λ moment. (moment, self.new)) result (moment_at self.old) }
        ensures found { IfOk result (λ moment. self.old ≡ number_bytes 8 moment ++ self.new) }
        ensures valid { IfOk result (λ moment. moment ≤ greatest_moment) }
    {
        match Moment::from_milliseconds(self.u64()?) {
            Some(moment) => Ok(moment),
            None => Err(Failure::Refused(WireRefusal::BadValue)),
        }
    }

    /// A text, borrowed.
    #[tactic(auto, unfolding(crate::specs::Fields::text_at, crate::specs::Fields::text_bytes))]
    pub fn str(&mut self) -> Result<&'a str, Failure<WireRefusal>>
        ensures read { Gives (λ text. (text.now, self.new)) result (text_at self.old) }
        ensures found { IfOk result (λ text. self.old ≡ text_bytes text.now ++ self.new) }
        ensures valid { IfOk result (λ text. IsUtf8 text.now) }
    {
        let length = self.u32()?;
        let field = self.bytes(length as usize)?;
        match str::from_utf8(field) {
            Ok(text) => Ok(text),
            Err(_) => Err(Failure::Refused(WireRefusal::BadValue)),
        }
    }

    /// A text.
    pub fn text(&mut self, alloc: Global) -> Result<Text, Failure<WireRefusal>>
        ensures read { Gives (λ text. (text, self.new)) result (text_at self.old) }
        ensures found { IfOk result (λ text. self.old ≡ text_bytes text ++ self.new) }
        ensures valid { IfOk result (λ text. IsUtf8 text) }
    {
        let text = self.str()?;
        Ok(Text::read(alloc, text)?)
    }
}
