//! Stamped values by their keys, as a list in order that is shared until it changes.

ghost use Rattle.std.specs.Prelude.{◌≡◌, [], ◌∷◌, ◌++◌, length, sum_by, IfOk, MatchResult, OnErr, OnOk, if◌then◌else◌};
ghost use Rattle.std.specs.BTreeMap.{is_at};
ghost use Rattle.std.specs.List.Sorted.{IsStrictlySortedBy};
ghost use Rattle.std.specs.Map.{keys_of, lookup, remove_entry};
ghost use Rattle.std.specs.Option.{option_copied, option_map};
ghost use Rattle.am_length.specs.Capped.{capped};
ghost use Rattle.am_item.specs.Lengths.{kept_length};
ghost use Rattle.am_item.specs.Retirement.{held_standing, put_over};
ghost use Rattle.am_item.specs.Newest.{newer, newest};
ghost use Rattle.am_item.specs.Stamp.{stamp_cmp};
ghost use Rattle.std.specs.Ordering.{is_gt};
ghost use Rattle.am_item.specs.Places.{IsGap, IsPlace};

use crate::edits::{append, insert_at, remove_at, replace_at, total_len};
use crate::held::Put;
use crate::kept::Kept;
use crate::retirement::Retiring;
use crate::stamp::Stamped;
use am_length::Spelled;
use std::alloc::{AllocError, Global};
use std::cmp::Ordering;
use std::marker::Model;
use std::rc::Rc;

/// Stamped values by their keys, in order of the keys. A snapshot shares its entries with the map that it is of, and
/// the list of them too until one of the two changes.
#[derive(Drop)]
pub struct SharedMap<K: Ord + Spelled, V: Spelled> {
    list: Rc<Vec<Kept<K, V>>>,
    // How many bytes spell the entries as items.
    spelled: u128,
}

impl<K: Ord + Spelled, V: Spelled> Model for SharedMap<K, V> {
    ghost use Rattle.std.specs.Prelude.{◌≡◌, List};
    ghost use Rattle.std.specs.List.Sorted.{IsStrictlySortedBy};
    ghost use Rattle.std.specs.Map.{keys_of};
    ghost use Rattle.am_item.specs.Lengths.{total_length};
    ghost use Rattle.am_item.specs.declared.stamp.Stamped.{Stamped};

    ghost Value = { List (K × Stamped V) };

    ghost view = { λ map. map.list.value.items };

    ghost invariant = { λ map. IsStrictlySortedBy K.cmp (keys_of map.list.value.items)
        × (map.spelled ≡ total_length K.spelled V.spelled map.list.value.items) };
}

impl<K: Ord + Spelled, V: Spelled> SharedMap<K, V> {
    /// The entries in order of their keys.
    pub fn entries(&self) -> &[Kept<K, V>]
        ensures entries { result.now ≡ self.now }
        ensures ordered { IsStrictlySortedBy K.cmp (keys_of self.now) }
    {
        self.list.as_ref().as_slice()
    }

    /// How many entries there are.
    pub fn len(&self) -> usize
        ensures { result ≡ length self.now }
    {
        self.entries().len()
    }

    /// How many bytes spell the entries as items. It takes the same time however many there are.
    pub(crate) fn spelled_len(&self) -> u64
        ensures { result ≡ capped (sum_by (kept_length K.spelled V.spelled) self.now) }
    {
        self.spelled.min(u64::MAX as u128) as u64
    }

    /// What stands under a key.
    pub fn get(&self, key: &K) -> Option<&Stamped<V>>
        ensures { option_copied result ≡ lookup (is_at (K.cmp key.now)) self.now }
    {
        let entries = self.entries();
        match place(entries, key) {
            Ok(at) => Some(entries[at].value()),
            Err(_) => None,
        }
    }
}

impl<K: Ord + Spelled + Drop, V: Spelled + Drop> SharedMap<K, V> {
    /// No entry.
    pub fn new(alloc: Global) -> Result<SharedMap<K, V>, AllocError>
        ensures { IfOk result (λ map. map ≡ []) }
    {
        let list = Rc::new(alloc, Vec::new(alloc))?;
        Ok(SharedMap { list, spelled: 0 })
    }

    /// What the map is now, whatever becomes of it. It takes as long as counting one owner more.
    pub fn snapshot(&self) -> Result<SharedMap<K, V>, AllocError>
        ensures { IfOk result (λ map. map ≡ self.now) }
    {
        let list = self.list.clone()?;
        let spelled = self.spelled;
        Ok(SharedMap { list, spelled })
    }

    /// Removes what stands under a key. An error, which is out of memory, leaves all as it was; it comes only where the
    /// list of entries is shared, which is then copied.
    pub fn remove(&mut self, key: &K) -> Result<(), AllocError>
        ensures entries { OnOk result (self.new ≡ remove_entry (is_at (K.cmp key.now)) self.old) }
        ensures err { OnErr result (self.new ≡ self.old) }
        ensures ordered { IsStrictlySortedBy K.cmp (keys_of self.new) }
    {
        match place(self.list.as_ref().as_slice(), key) {
            Ok(at) => {
                remove_at(&mut self.list, &mut self.spelled, at)?;
                Ok(())
            }
            Err(_) => Ok(()),
        }
    }

    /// The two maps' entries, of each key the one with the greater stamp, of two with one stamp the own. It takes as
    /// long as walking both once.
    pub fn merged(
        &self,
        alloc: Global,
        other: &SharedMap<K, V>,
    ) -> Result<SharedMap<K, V>, AllocError>
        ensures newer { IfOk result (λ map. (q : K) → lookup (is_at (K.cmp q)) map ≡ newer (lookup (is_at (K.cmp q)) self.now) (lookup (is_at (K.cmp q)) other.now)) }
        ensures ordered { IfOk result (λ map. IsStrictlySortedBy K.cmp (keys_of map)) }
    {
        let items = merge(alloc, self.entries(), other.entries())?;
        let spelled = total_len(items.as_slice());
        let list = Rc::new(alloc, items)?;
        Ok(SharedMap { list, spelled })
    }
}

impl<K: Ord + Spelled + Drop, V: Retiring + Spelled + Drop> SharedMap<K, V> {
    /// Puts an entry, unless one of its key stands there whose stamp is no smaller. An error, which is out of memory,
    /// leaves all as it was. Where the list of entries is shared, it is copied, and no entry.
    pub(crate) fn put(&mut self, kept: Kept<K, V>) -> Result<Put, AllocError>
        ensures put { IfOk result (λ put. put ≡ put_over (option_map (held_standing V.retires) (lookup (is_at (K.cmp kept.0)) self.old)) kept.1.stamp) }
        ensures newest { OnOk result ((q : K) → lookup (is_at (K.cmp q)) self.new ≡ (if is_at (K.cmp kept.0) q then newest (lookup (is_at (K.cmp q)) self.old) kept.1 else lookup (is_at (K.cmp q)) self.old)) }
        ensures err { OnErr result (self.new ≡ self.old) }
        ensures ordered { IsStrictlySortedBy K.cmp (keys_of self.new) }
    {
        match place(self.list.as_ref().as_slice(), kept.key()) {
            Ok(at) => {
                let old = self.list.as_ref()[at].value();
                if kept.value().stamp.exceeds(&old.stamp) {
                    let standing = old.standing();
                    replace_at(&mut self.list, &mut self.spelled, at, kept)?;
                    Ok(Put::Replaced(standing))
                } else {
                    Ok(Put::Older)
                }
            }
            Err(at) => {
                insert_at(&mut self.list, &mut self.spelled, at, kept)?;
                Ok(Put::New)
            }
        }
    }
}

// Where a key stands, or would stand.
fn place<K: Ord + Spelled, V: Spelled>(entries: &[Kept<K, V>], key: &K) -> Result<usize, usize>
    requires { IsStrictlySortedBy K.cmp (keys_of entries.now) }
    ensures { MatchResult result (IsPlace K.cmp key.now entries.now) (IsGap K.cmp key.now entries.now) }
{
    entries.binary_search_by(|kept| kept.key().cmp(key))
}

// The entries of two lists in order, of each key the one with the greater stamp.
fn merge<K: Ord + Spelled + Drop, V: Spelled + Drop>(
    alloc: Global,
    own: &[Kept<K, V>],
    others: &[Kept<K, V>],
) -> Result<Vec<Kept<K, V>>, AllocError>
    requires own { IsStrictlySortedBy K.cmp (keys_of own.now) }
    requires others { IsStrictlySortedBy K.cmp (keys_of others.now) }
    ensures newer { IfOk result (λ out. (q : K) → lookup (is_at (K.cmp q)) out.items ≡ newer (lookup (is_at (K.cmp q)) own.now) (lookup (is_at (K.cmp q)) others.now)) }
    ensures ordered { IfOk result (λ out. IsStrictlySortedBy K.cmp (keys_of out.items)) }
{
    let mut out = Vec::with_capacity(alloc, own.len().max(others.len()))?;
    let mut left = own;
    let mut right = others;
    while let Some((x, xs)) = left.split_first() {
        let Some((y, ys)) = right.split_first() else {
            append(&mut out, left)?;
            return Ok(out);
        };
        match x.key().cmp(y.key()) {
            Ordering::Less => {
                out.push(x.copy()?)?;
                left = xs;
            }
            Ordering::Greater => {
                out.push(y.copy()?)?;
                right = ys;
            }
            Ordering::Equal => {
                let kept = later(x, y)?;
                out.push(kept)?;
                left = xs;
                right = ys;
            }
        }
    }
    append(&mut out, right)?;
    Ok(out)
}

// The entry with the greater stamp, of two with one stamp the first.
fn later<K: Spelled + Drop, V: Spelled + Drop>(
    x: &Kept<K, V>,
    y: &Kept<K, V>,
) -> Result<Kept<K, V>, AllocError>
    ensures { IfOk result (λ kept. kept ≡ (if is_gt (stamp_cmp y.now.1.stamp x.now.1.stamp) then y.now else x.now)) }
{
    if y.value().stamp.exceeds(&x.value().stamp) {
        y.copy()
    } else {
        x.copy()
    }
}
