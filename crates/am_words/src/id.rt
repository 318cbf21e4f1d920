//! Identifiers as text.

ghost use Rattle.std.specs.Prelude.{◌≡◌, ℕ, List, Some, IfSome};
ghost use Rattle.std.specs.Str.{bytes_eq};
ghost use Rattle.am_words.specs.Ids.{IsId, id_in, id_text};

use am_item::SilenceId;
use uuid::Uuid;

/// The length of an identifier's text, in bytes.
pub const ID_LENGTH: usize = 36;

/// The text of an identifier, which is written into the buffer: its bytes as hexadecimal digits in lower case, with
/// hyphens after the fourth, sixth, eighth and tenth byte. No memory is taken.
#[tactic(auto, using(crate::proofs::IdLemmas::text_is_read))]
pub fn print_id<'b>(id: &SilenceId, buffer: &'b mut [u8; ID_LENGTH]) -> &'b str
    ensures text { result.now ≡ id_text id.now }
    ensures back { id_in result.now ≡ Some id.now }
{
    Uuid::from_bytes(*id.as_bytes())
        .hyphenated()
        .encode_lower(buffer)
}

/// The identifier that has this text, where one has: [`print_id`] of it is the text, byte for byte. Another case,
/// braces or a text without hyphens are no identifier's. No memory is taken.
pub fn read_id(text: &str) -> Option<SilenceId>
    ensures id { result ≡ id_in text.now }
    ensures text { IfSome result (λ id. id_text id ≡ text.now) }
    ensures each { (id : List ℕ) → IsId id → id_text id ≡ text.now → result ≡ Some id }
{
    let Ok(uuid) = Uuid::try_parse(text) else {
        return None;
    };
    let id = SilenceId::from_bytes(uuid.into_bytes());
    if is_text_of(&id, text) {
        Some(id)
    } else {
        None
    }
}

// Whether this is the identifier's text.
fn is_text_of(id: &SilenceId, text: &str) -> bool
    ensures { result ≡ bytes_eq (id_text id.now) text.now }
{
    print_id(id, &mut [0; ID_LENGTH]) == text
}
