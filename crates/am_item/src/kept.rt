//! Keys and stamped values that several holdings share. How many bytes spell the item of one stands beside the pointer
//! to it, so that the lengths of a list are read one behind the other.

ghost use Rattle.std.specs.Prelude.{◌≡◌, ◌+◌, IfOk};
ghost use Rattle.am_length.specs.Capped.{capped};
ghost use Rattle.am_item.specs.Lengths.{head_length, kept_length};

use crate::spelled::HEAD_LEN;
use crate::stamp::Stamped;
use am_length::Spelled;
use std::alloc::{AllocError, Global};
use std::marker::Model;
use std::rc::Rc;

/// A key and what stands under it, shared by those who hold it.
#[derive(Drop)]
pub struct Kept<K: Spelled, V: Spelled> {
    entry: Rc<(K, Stamped<V>)>,
    // How many bytes spell the item of both.
    spelled: u64,
}

impl<K: Spelled, V: Spelled> Model for Kept<K, V> {
    ghost use Rattle.std.specs.Prelude.{◌≡◌};
    ghost use Rattle.am_length.specs.Capped.{capped};
    ghost use Rattle.am_item.specs.Lengths.{kept_length};
    ghost use Rattle.am_item.specs.declared.stamp.Stamped.{Stamped};

    ghost Value = { K × Stamped V };

    ghost view = { λ kept. (kept.entry.value.0, kept.entry.value.1) };

    ghost invariant = { λ kept. kept.spelled
        ≡ capped (kept_length K.spelled V.spelled (kept.entry.value.0, kept.entry.value.1)) };
}

impl<K: Spelled, V: Spelled> Kept<K, V> {
    /// The key.
    pub fn key(&self) -> &K
        ensures { result.now ≡ self.now.0 }
    {
        let (key, _) = self.entry.as_ref();
        key
    }

    /// What stands under it.
    pub fn value(&self) -> &Stamped<V>
        ensures { result.now ≡ self.now.1 }
    {
        let (_, value) = self.entry.as_ref();
        value
    }

    /// How many bytes spell the item of which this is held.
    pub(crate) fn spelled_len(&self) -> u64
        ensures { result ≡ capped (kept_length K.spelled V.spelled self.now) }
    {
        self.spelled
    }
}

impl<K: Spelled + Drop, V: Spelled + Drop> Kept<K, V> {
    /// A key and what stands under it.
    pub fn new(alloc: Global, key: K, value: Stamped<V>) -> Result<Kept<K, V>, AllocError>
        ensures { IfOk result (λ kept. kept ≡ (key, value)) }
    {
        let spelled = HEAD_LEN
            .saturating_add(key.spelled_len())
            .saturating_add(value.value.spelled_len());
        let entry = Rc::new(alloc, (key, value))?;
        Ok(Kept { entry, spelled })
    }

    /// The same entry, held once more.
    pub fn copy(&self) -> Result<Kept<K, V>, AllocError>
        ensures { IfOk result (λ kept. kept ≡ self.now) }
    {
        let entry = self.entry.clone()?;
        let spelled = self.spelled;
        Ok(Kept { entry, spelled })
    }
}

// For the copies of lists that are shared and change.
impl<K: Spelled + Drop, V: Spelled + Drop> Clone for Kept<K, V> {
    ghost is_clone = { λ kept copy. copy ≡ kept };

    fn clone(&self) -> Result<Kept<K, V>, AllocError> {
        self.copy()
    }
}

/// A stamped value, shared by those who hold it.
#[derive(Drop)]
pub struct KeptValue<V: Spelled> {
    shared: Rc<Stamped<V>>,
    // How many bytes spell the item of it.
    spelled: u64,
}

impl<V: Spelled> Model for KeptValue<V> {
    ghost use Rattle.std.specs.Prelude.{◌≡◌, ◌+◌};
    ghost use Rattle.am_length.specs.Capped.{capped};
    ghost use Rattle.am_item.specs.Lengths.{head_length};
    ghost use Rattle.am_item.specs.declared.stamp.Stamped.{Stamped};

    ghost Value = { Stamped V };

    ghost view = { λ kept. kept.shared.value };

    ghost invariant = { λ kept. kept.spelled ≡ capped (head_length + V.spelled kept.shared.value.value) };
}

impl<V: Spelled + Drop> KeptValue<V> {
    /// A value.
    pub fn new(alloc: Global, value: Stamped<V>) -> Result<KeptValue<V>, AllocError>
        ensures { IfOk result (λ kept. kept ≡ value) }
    {
        let spelled = HEAD_LEN.saturating_add(value.value.spelled_len());
        let shared = Rc::new(alloc, value)?;
        Ok(KeptValue { shared, spelled })
    }

    /// The value.
    pub fn get(&self) -> &Stamped<V>
        ensures { result.now ≡ self.now }
    {
        self.shared.as_ref()
    }

    /// How many bytes spell the item of which this is held.
    pub(crate) fn spelled_len(&self) -> u64
        ensures { result ≡ capped (head_length + V.spelled self.now.value) }
    {
        self.spelled
    }

    /// The same value, held once more.
    pub fn copy(&self) -> Result<KeptValue<V>, AllocError>
        ensures { IfOk result (λ kept. kept ≡ self.now) }
    {
        let shared = self.shared.clone()?;
        let spelled = self.spelled;
        Ok(KeptValue { shared, spelled })
    }
}
