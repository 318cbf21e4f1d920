//! What spells messages: laws, which no program needs to call.

ghost use Rattle.std.specs.Prelude.{◌≡◌, ℕ, ◌<◌, List, ◌∷◌, ◌++◌, length, take, Ok, Err};
ghost use Rattle.am_item.specs.Lengths.{spelled_length};
ghost use Rattle.am_item.specs.declared.item.Item.{Item};
ghost use Rattle.am_match.specs.Matchers.{MatcherText};
ghost use Rattle.am_match.specs.Spelling.{spelling as spelled_matchers};
ghost use Rattle.am_wire.specs.Bytes.{AreBytes};
ghost use Rattle.am_wire.specs.ItemFields.{item_bytes, matchers_bytes};
ghost use Rattle.am_wire.specs.Messages.{Spells, message_of};
ghost use Rattle.am_wire.specs.declared.message.Message.{Message};

use crate::refusal::WireRefusal;

/// A message has at most one spelling, and no spelling begins another. A spelling is read, and bytes that are read are
/// one; a proper beginning of it is cut short, and what stands behind it is left over.
pub fn spellings()
    ensures one { (m : Message) (a b : List ℕ) → Spells a m → Spells b m → a ≡ b }
    ensures apart { (m k : Message) (a b x y : List ℕ) → Spells a m → Spells b k → a ++ x ≡ b ++ y → (m ≡ k) × (a ≡ b) × (x ≡ y) }
    ensures read { (m : Message) (bytes : List ℕ) → Spells bytes m → message_of bytes ≡ Ok m }
    ensures found { (m : Message) (bytes : List ℕ) → AreBytes bytes → message_of bytes ≡ Ok m → Spells bytes m }
    ensures cut { (m : Message) (bytes : List ℕ) (k : ℕ) → Spells bytes m → k < length bytes →
        message_of (take k bytes) ≡ Err WireRefusal.CutShort }
    ensures more { (m : Message) (bytes behind : List ℕ) (byte : ℕ) → Spells bytes m →
        message_of (bytes ++ byte ∷ behind) ≡ Err WireRefusal.BytesLeft }
{}

/// Matchers are spelled as they are stored.
pub fn matchers()
    ensures { (ms : List MatcherText) → matchers_bytes ms ≡ spelled_matchers ms }
{}

/// An item is spelled in as many bytes as it knows of itself.
#[tactic(auto, using(crate::proofs::Counted::item_spelled))]
pub fn lengths()
    ensures { (item : Item) → length (item_bytes item) ≡ spelled_length item }
{}
