//! Edits of a list that others may hold too: they keep theirs. Beside the list stands how many bytes spell its entries
//! as items.

ghost use Rattle.std.specs.Prelude.{◌≡◌, ◌<◌, ◌≤◌, ◌++◌, length, OnErr, OnOk, slice_set};
ghost use Rattle.std.specs.List.{insert, remove};
ghost use Rattle.am_item.specs.Lengths.{total_length};

use crate::kept::Kept;
use am_length::Spelled;
use std::alloc::AllocError;
use std::rc::Rc;

/// How many bytes spell entries as items. Each counts with no more than 64 bits, so that its part can be taken from the
/// sum again.
pub(crate) fn total_len<K: Spelled, V: Spelled>(entries: &[Kept<K, V>]) -> u128
    ensures { result ≡ total_length K.spelled V.spelled entries.now }
{
    let mut total = 0u128;
    for kept in entries {
        total += kept.spelled_len() as u128;
    }
    total
}

/// Puts an entry between others.
pub(crate) fn insert_at<K: Spelled + Drop, V: Spelled + Drop>(
    list: &mut Rc<Vec<Kept<K, V>>>,
    total: &mut u128,
    at: usize,
    kept: Kept<K, V>,
) -> Result<(), AllocError>
    requires within { at ≤ length list.old.value.items }
    requires counted { total.old ≡ total_length K.spelled V.spelled list.old.value.items }
    ensures ok { OnOk result (list.new.value.items ≡ insert list.old.value.items at kept) }
    ensures err { OnErr result (list.new.value.items ≡ list.old.value.items) }
    ensures counted { total.new ≡ total_length K.spelled V.spelled list.new.value.items }
{
    // parts of 64 bits, no more of them than 64 bits can count, leave room for one more in 128 bits
    prove!(entries_of(list).len() <= usize::MAX);
    let more = kept.spelled_len() as u128;
    insert_in(list, at, kept)?;
    *total += more;
    Ok(())
}

/// Puts an entry in the place of another.
pub(crate) fn replace_at<K: Spelled + Drop, V: Spelled + Drop>(
    list: &mut Rc<Vec<Kept<K, V>>>,
    total: &mut u128,
    at: usize,
    kept: Kept<K, V>,
) -> Result<(), AllocError>
    requires within { at < length list.old.value.items }
    requires counted { total.old ≡ total_length K.spelled V.spelled list.old.value.items }
    ensures ok { OnOk result (list.new.value.items ≡ slice_set list.old.value.items at kept) }
    ensures err { OnErr result (list.new.value.items ≡ list.old.value.items) }
    ensures counted { total.new ≡ total_length K.spelled V.spelled list.new.value.items }
{
    prove!(entries_of(list).len() <= usize::MAX);
    let less = entries_of(list)[at].spelled_len() as u128;
    let more = kept.spelled_len() as u128;
    replace_in(list, at, kept)?;
    *total = *total - less + more;
    Ok(())
}

/// Takes an entry out.
pub(crate) fn remove_at<K: Spelled + Drop, V: Spelled + Drop>(
    list: &mut Rc<Vec<Kept<K, V>>>,
    total: &mut u128,
    at: usize,
) -> Result<(), AllocError>
    requires within { at < length list.old.value.items }
    requires counted { total.old ≡ total_length K.spelled V.spelled list.old.value.items }
    ensures ok { OnOk result (list.new.value.items ≡ remove list.old.value.items at) }
    ensures err { OnErr result (list.new.value.items ≡ list.old.value.items) }
    ensures counted { total.new ≡ total_length K.spelled V.spelled list.new.value.items }
{
    let less = entries_of(list)[at].spelled_len() as u128;
    remove_in(list, at)?;
    *total -= less;
    Ok(())
}

/// Puts entries behind others.
pub(crate) fn append<K: Spelled + Drop, V: Spelled + Drop>(
    list: &mut Vec<Kept<K, V>>,
    rest: &[Kept<K, V>],
) -> Result<(), AllocError>
    ensures { OnOk result (list.new.items ≡ list.old.items ++ rest.now) }
{
    list.extend_with_clones(rest)
}

// The entries of a list.
fn entries_of<K: Spelled, V: Spelled>(list: &Rc<Vec<Kept<K, V>>>) -> &[Kept<K, V>]
    ensures { result.now ≡ list.now.value.items }
{
    list.as_ref().as_slice()
}

// The same three edits, of the list alone.

fn insert_in<K: Spelled + Drop, V: Spelled + Drop>(
    list: &mut Rc<Vec<Kept<K, V>>>,
    at: usize,
    kept: Kept<K, V>,
) -> Result<(), AllocError>
    requires { at ≤ length list.old.value.items }
    ensures ok { OnOk result (list.new.value.items ≡ insert list.old.value.items at kept) }
    ensures err { OnErr result (list.new.value.items ≡ list.old.value.items) }
{
    let items = Rc::make_mut(list)?;
    items.insert(at, kept)?;
    Ok(())
}

fn replace_in<K: Spelled + Drop, V: Spelled + Drop>(
    list: &mut Rc<Vec<Kept<K, V>>>,
    at: usize,
    kept: Kept<K, V>,
) -> Result<(), AllocError>
    requires { at < length list.old.value.items }
    ensures ok { OnOk result (list.new.value.items ≡ slice_set list.old.value.items at kept) }
    ensures err { OnErr result (list.new.value.items ≡ list.old.value.items) }
{
    let items = Rc::make_mut(list)?;
    items[at] = kept;
    Ok(())
}

fn remove_in<K: Spelled + Drop, V: Spelled + Drop>(
    list: &mut Rc<Vec<Kept<K, V>>>,
    at: usize,
) -> Result<(), AllocError>
    requires { at < length list.old.value.items }
    ensures ok { OnOk result (list.new.value.items ≡ remove list.old.value.items at) }
    ensures err { OnErr result (list.new.value.items ≡ list.old.value.items) }
{
    let items = Rc::make_mut(list)?;
    drop(items.remove(at));
    Ok(())
}
