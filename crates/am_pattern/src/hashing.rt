//! How texts are hashed that strangers choose.

ghost use Rattle.std.specs.Prelude.{◌≡◌};
ghost use Rattle.std.specs.Hash.DefaultHasher.{initial, write};

use std::hash::{BuildHasher, DefaultHasher, Hasher};

/// Makes hashers that begin with secret bytes, so that nobody who doesn't know them can choose texts that collide.
#[derive(Clone, Copy)]
pub(crate) struct KeyedHashing {
    // what has read the secret bytes
    keyed: DefaultHasher,
}

impl KeyedHashing {
    pub(crate) fn new(key: [u8; 16]) -> KeyedHashing
        ensures { result.keyed ≡ write initial key }
    {
        let mut keyed = DefaultHasher::new();
        keyed.write(&key);
        KeyedHashing { keyed }
    }
}

impl BuildHasher for KeyedHashing {
    type Hasher = DefaultHasher;

    ghost build_hasher = { λ hashing. hashing.keyed };

    fn build_hasher(&self) -> DefaultHasher {
        self.keyed
    }
}
