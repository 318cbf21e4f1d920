//! The store.

ghost use Rattle.std.specs.Prelude.{◌≡◌, ◌&&◌, ◌≤◌, filter, not, false, true, IfErr};
ghost use Rattle.am_item.specs.Key.{SilenceKey, has_key};
ghost use Rattle.am_rows.specs.Refusing.{IsCaused, MayRefuse};
ghost use Rattle.am_rows.specs.Rows.{is_among};
ghost use Rattle.am_test_store.specs.Pairs.{medium_of};
ghost use Rattle.am_tenant.specs.Names.{same};

use crate::naming::{is_same, names_in};
use crate::reading::rows_of;
use crate::storing::pairs_of;
use am_item::{Part, SharedItem, SilenceId};
use am_rows::{Rows, StoreRefusal};
use am_tenant::TenantName;
use am_text::Failure;
use std::alloc::Global;

/// Rows in memory, for tests alone. A row stays there when one of its key with a greater stamp is put, so it is no store for
/// long runs.
#[derive(Drop)]
pub struct TestStore {
    // What was put, in order, without what was dropped.
    pairs: Vec<(TenantName, SharedItem)>,
    is_open: bool,
    // How many calls come before the one that fails, where one does.
    before: Option<u64>,
    // How many calls failed, at most 2^64 - 1.
    failures: u64,
}

impl TestStore {
    /// A store without rows that isn't opened yet. No call fails.
    pub fn new(alloc: Global) -> TestStore {
        TestStore {
            pairs: Vec::new(alloc),
            is_open: false,
            before: None,
            failures: 0,
        }
    }

    /// The call behind so many more fails, with `F2`, and no other.
    pub fn fail_behind(&mut self, calls: u64) {
        self.before = Some(calls);
    }

    // Begins a call, in which the store isn't open.
    fn begin(&mut self) -> Result<(), Failure<StoreRefusal>>
        ensures pairs { self.new.pairs ≡ self.old.pairs }
        ensures fails { IfErr result
            (IsCaused (MayRefuse (medium_of self.old.failures) (medium_of self.new.failures))) }
        ensures counts { self.old.failures ≤ self.new.failures }
    {
        self.is_open = false;
        let fails = self.before == Some(0);
        self.before = self.before.and_then(|before| before.checked_sub(1));
        if fails {
            self.failures = self.failures.saturating_add(1);
            Err(Failure::Refused(StoreRefusal::Database))
        } else {
            Ok(())
        }
    }
}

impl Rows for TestStore {
    ghost pairs = { λ store. store.pairs.items };

    ghost is_clean = { λ _. true };

    ghost medium = { λ store. medium_of store.failures };

    ghost is_open = { λ store. store.is_open };

    ghost is_foreign = { λ _. ⊥ };

    ghost rejects = { λ _ _. ⊥ };

    fn open(&mut self, _alloc: Global) -> Result<(), Failure<StoreRefusal>> {
        self.begin()?;
        self.is_open = true;
        Ok(())
    }

    fn put(
        &mut self,
        alloc: Global,
        tenant: &TenantName,
        items: &[SharedItem],
    ) -> Result<(), Failure<StoreRefusal>> {
        self.begin()?;
        let mut pairs = pairs_of(alloc, tenant, items)?;
        self.pairs.append(&mut pairs)?;
        self.is_open = true;
        Ok(())
    }

    fn rows_of(
        &mut self,
        alloc: Global,
        tenant: &TenantName,
    ) -> Result<Vec<SharedItem>, Failure<StoreRefusal>> {
        self.begin()?;
        let rows = rows_of(alloc, &self.pairs, tenant)?;
        self.is_open = true;
        Ok(rows)
    }

    fn tenants(&mut self, alloc: Global) -> Result<Vec<TenantName>, Failure<StoreRefusal>> {
        self.begin()?;
        let names = names_in(alloc, &self.pairs)?;
        self.is_open = true;
        Ok(names)
    }

    fn drop_silence(
        &mut self,
        tenant: &TenantName,
        id: &SilenceId,
    ) -> Result<(), Failure<StoreRefusal>> {
        self.drop_silences(&[(*tenant, *id)])
    }

    fn drop_silences(
        &mut self,
        silences: &[(TenantName, SilenceId)],
    ) -> Result<(), Failure<StoreRefusal>> {
        self.begin()?;
        leave_others(&mut self.pairs, silences);
        self.is_open = true;
        Ok(())
    }

    fn drop_tenant(&mut self, tenant: &TenantName) -> Result<(), Failure<StoreRefusal>> {
        self.begin()?;
        leave_others_of(&mut self.pairs, tenant);
        self.is_open = true;
        Ok(())
    }
}

// Leaves what is none of these silences.
fn leave_others(pairs: &mut Vec<(TenantName, SharedItem)>, silences: &[(TenantName, SilenceId)])
    ensures { pairs.new.items ≡ filter (λ pair. not (is_among pair.0 silences.now pair.1)) pairs.old.items }
{
    pairs.retain(|pair| is_none_of(pair, silences));
}

// Leaves what is of other tenants.
fn leave_others_of(pairs: &mut Vec<(TenantName, SharedItem)>, tenant: &TenantName)
    ensures { pairs.new.items ≡ filter (λ pair. not (same pair.0 tenant.now)) pairs.old.items }
{
    pairs.retain(|pair| is_of_other(pair, tenant));
}

// Whether a pair is of another tenant.
fn is_of_other(pair: &(TenantName, SharedItem), tenant: &TenantName) -> bool
    ensures { result ≡ not (same pair.now.0 tenant.now) }
{
    !is_same(&pair.0, tenant)
}

// Whether a pair is none of these silences.
fn is_none_of(pair: &(TenantName, SharedItem), silences: &[(TenantName, SilenceId)]) -> bool
    ensures { result ≡ not (is_among pair.now.0 silences.now pair.now.1) }
{
    !is_among(pair, silences)
}

fn is_among(pair: &(TenantName, SharedItem), silences: &[(TenantName, SilenceId)]) -> bool
    ensures { result ≡ is_among pair.now.0 silences.now pair.now.1 }
{
    silences.iter().any(|silence| is_silence(pair, silence))
}

// Whether a pair is this silence.
fn is_silence(pair: &(TenantName, SharedItem), silence: &(TenantName, SilenceId)) -> bool
    ensures { result ≡ (same pair.now.0 silence.now.0 && has_key (SilenceKey silence.now.1) pair.now.1) }
{
    is_same(&pair.0, &silence.0) && has_id(&pair.1, &silence.1)
}

// Whether an item is the silence of an identifier.
#[tactic(auto, unfolding(am_item::specs::Key::key_cmp))]
fn has_id(item: &SharedItem, id: &SilenceId) -> bool
    ensures { result ≡ has_key (SilenceKey id.now) item.now }
{
    match item.part() {
        Part::Silence(own, _) => *id == *own,
        Part::Configuration(_) | Part::Alert(_, _) | Part::SentEntry(_, _) => false,
    }
}
