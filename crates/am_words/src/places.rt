//! How far the words of all tenants are used.

ghost use Rattle.std.specs.Prelude.{◌≡◌, ◌%◌, ◌^◌, ◌<◌, ℕ, List, [], OnErr, OnOk, if◌then◌else◌};
ghost use Rattle.am_tenant.specs.Names.{same};
ghost use Rattle.am_words.specs.Places.{place_of};

use am_tenant::TenantName;
use std::alloc::{AllocError, Global};
use std::collections::BTreeMap;
use std::marker::Model;

/// How far the words of a tenant are used at an instance in an incarnation: the place of the next one. The words begin
/// again after 2^68.
#[derive(Clone, Copy, Debug, PartialEq, Eq)]
pub struct Place {
    word: u128,
}

impl Model for Place {
    ghost use Rattle.std.specs.Prelude.{ℕ, ◌<◌, ◌^◌};

    ghost Value = { ℕ };

    ghost view = { λ place. place.word };

    ghost invariant = { λ place. place.word < 2 ^ 68 };

    ghost inverse = { λ word. record { word = word } };
}

impl Place {
    /// Where no word is used.
    pub fn first() -> Place
        ensures { result ≡ 0 }
    {
        Place { word: 0 }
    }

    // The place of this word.
    pub(crate) fn at(word: u128) -> Place
        ensures { result ≡ word % 2 ^ 68 }
    {
        Place {
            word: word % (1 << 68),
        }
    }

    // The number of the word.
    pub(crate) fn word(self) -> u128
        ensures word { result ≡ self }
        ensures within { result < 2 ^ 68 }
    {
        self.word
    }
}

/// How far the words of each tenant are used.
#[derive(Drop)]
pub struct Places {
    used: BTreeMap<TenantName, Place>,
}

impl Model for Places {
    ghost use Rattle.std.specs.Prelude.{ℕ, List};

    ghost Value = { List (List ℕ × ℕ) };

    ghost view = { λ places. places.used.entries };
}

impl Places {
    /// No word used by any tenant.
    pub fn new(alloc: Global) -> Places
        ensures { result ≡ [] }
    {
        Places {
            used: BTreeMap::new(alloc),
        }
    }

    /// The place of a tenant's next word: the first before any draw.
    pub fn place(&self, tenant: &TenantName) -> Place
        ensures { result ≡ place_of tenant.now self.now }
    {
        self.used.get(tenant).copied().unwrap_or(Place::first())
    }

    /// Sets the place of a tenant's next word. Other tenants' places stay. An error, which is out of memory, leaves all
    /// places as they were.
    pub fn set(
        &mut self,
        _alloc: Global,
        tenant: &TenantName,
        place: Place,
    ) -> Result<(), AllocError>
        ensures placed { OnOk result ((t : List ℕ) → place_of t self.new ≡ (if same t tenant.now then place else place_of t self.old)) }
        ensures err { OnErr result ((t : List ℕ) → place_of t self.new ≡ place_of t self.old) }
    {
        self.used.insert(*tenant, place)?;
        Ok(())
    }
}
