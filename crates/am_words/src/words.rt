//! The random words of a tenant, and the identifiers that are drawn from them.

ghost use Rattle.std.specs.Prelude.{◌≡◌, ◌++◌, ◌<◌, ◌^◌, MatchResult, IfOk, None, Some, slice_index, false};
ghost use Rattle.rand_chacha.specs.ChaCha.{ChaCha, key_of};
ghost use Rattle.sha2.specs.Sha256.{sha256};
ghost use Rattle.uuid.specs.Parts.{variant_of};
ghost use Rattle.uuid.specs.Uuid.{version_num};
ghost use Rattle.uuid.specs.declared.Variant.TheVariants.{RFC4122};
ghost use Rattle.am_words.specs.Draws.{id_from, is_held, new_id, place_drawn, words_of_id};
ghost use Rattle.am_words.specs.Words.{generator_of, place_after, stream_of, words_in};

use crate::places::Place;
use crate::refusal::WordsRefusal;
use am_item::{Held, SilenceId};
use am_tenant::TenantName;
use rand_chacha::ChaCha20Rng;
use rand_core::SeedableRng;
use rand_core::utils::fill_bytes_via_u32;
use sha2::{Digest, Sha256};
use std::marker::Model;
use uuid::Builder;

/// How many identifiers are drawn at most for one that isn't held.
pub const MOST_DRAWS: u32 = 8;

/// The random words of a tenant at an instance in an incarnation, and the place of the next one.
#[derive(Drop)]
pub struct Words {
    service_key: [u8; 32],
    tenant: TenantName,
    instance: u8,
    incarnation: u32,
    place: Place,
}

impl Model for Words {
    ghost use Rattle.rand_chacha.specs.ChaCha.{ChaCha};
    ghost use Rattle.am_words.specs.Words.{generator_of};

    ghost Value = { ChaCha };

    ghost view = { λ w. generator_of w.service_key w.tenant w.instance w.incarnation w.place };
}

impl Words {
    /// The words of a tenant from a place on. Nothing is computed before a draw.
    pub fn new(
        service_key: &[u8; 32],
        tenant: &TenantName,
        instance: u8,
        incarnation: u32,
        place: Place,
    ) -> Words
        ensures { result ≡ generator_of service_key.now tenant.now instance incarnation place }
    {
        Words {
            service_key: *service_key,
            tenant: *tenant,
            instance,
            incarnation,
            place,
        }
    }

    /// The place of the next word.
    pub fn place(&self) -> Place
        ensures { result ≡ self.now.word_pos }
    {
        self.place
    }

    /// Draws a new identifier of version 4: 16 bytes of the next four words, each least byte first. One that a silence
    /// of those held has is drawn again, at most eight times in all. No memory is taken.
    ///
    /// # Errors
    /// `NoIdentifier`, where each of the eight is held. Their words are used.
    pub fn draw_id(&mut self, held: &Held) -> Result<SilenceId, WordsRefusal>
        ensures id { MatchResult result (λ id. new_id (words_in self.old) self.old.word_pos held.now ≡ Some id)
            (λ _. new_id (words_in self.old) self.old.word_pos held.now ≡ None) }
        ensures place { self.new ≡ record self.old { word_pos = place_drawn (words_in self.old) self.old.word_pos held.now } }
        ensures unheld { IfOk result (λ id. is_held held.now id ≡ false) }
        ensures version { IfOk result (λ id. version_num id ≡ 4) }
        ensures variant { IfOk result (λ id. variant_of (slice_index id 8) ≡ RFC4122) }
    {
        let key = key_for(&self.service_key, &self.tenant);
        let mut words = words_from(key, self.instance, self.incarnation, self.place);
        let drawn = draw_unheld(&mut words, held);
        self.place = Place::at(words.get_word_pos());
        drawn
    }
}

// The key of a tenant's words.
fn key_for(service_key: &[u8; 32], tenant: &TenantName) -> [u8; 32]
    ensures { result ≡ sha256 (service_key.now ++ tenant.now) }
{
    let mut hasher = Sha256::new();
    hasher.update(service_key.as_slice());
    hasher.update(tenant.as_bytes());
    hasher.finalize()
}

// The words under a key from a place on.
fn words_from(key: [u8; 32], instance: u8, incarnation: u32, place: Place) -> ChaCha20Rng
    ensures { result ≡ record { key = key_of key; stream = stream_of instance incarnation; word_pos = place } }
{
    let mut words = ChaCha20Rng::from_seed(key);
    words.set_stream(u64::from(instance) * (1 << 32) + u64::from(incarnation));
    words.set_word_pos(place.word());
    words
}

// Draws identifiers until one isn't held.
fn draw_unheld(words: &mut ChaCha20Rng, held: &Held) -> Result<SilenceId, WordsRefusal>
    requires { words.old.word_pos < 2 ^ 68 }
    ensures id { MatchResult result (λ id. new_id (words_in words.old) words.old.word_pos held.now ≡ Some id)
        (λ _. new_id (words_in words.old) words.old.word_pos held.now ≡ None) }
    ensures place { words.new ≡ record words.old { word_pos = place_drawn (words_in words.old) words.old.word_pos held.now } }
    ensures unheld { IfOk result (λ id. is_held held.now id ≡ false) }
    ensures version { IfOk result (λ id. version_num id ≡ 4) }
    ensures variant { IfOk result (λ id. variant_of (slice_index id 8) ≡ RFC4122) }
{
    for _draw in 0..MOST_DRAWS {
        let id = draw(words);
        if !is_held(held, &id) {
            return Ok(id);
        }
    }
    Err(WordsRefusal::NoIdentifier)
}

// Whether a silence of this identifier is held.
fn is_held(held: &Held, id: &SilenceId) -> bool
    ensures { result ≡ is_held held.now id.now }
{
    held.silences().get(id).is_some()
}

// Draws an identifier.
fn draw(words: &mut ChaCha20Rng) -> SilenceId
    ensures id { result ≡ id_from (words_in words.old) words.old.word_pos }
    ensures words { words.new ≡ record words.old { word_pos = place_after words.old.word_pos words_of_id } }
    ensures version { version_num result ≡ 4 }
    ensures variant { variant_of (slice_index result 8) ≡ RFC4122 }
{
    let mut bytes = [0; 16];
    fill_bytes_via_u32(words, &mut bytes);
    SilenceId::from_bytes(Builder::from_random_bytes(bytes).into_uuid().into_bytes())
}
