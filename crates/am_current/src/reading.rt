//! The configurations that were read.

ghost use Rattle.std.specs.Prelude.{◌≡◌, ℕ, List, None, IfNone, IfOk, IfSome, OnOk, false, unwrap_or, if◌then◌else◌};
ghost use Rattle.am_tenant.specs.Names.{same};
ghost use Rattle.am_draft.specs.Drafts.{draft_in};
ghost use Rattle.am_config.specs.Default.{default_configuration};
ghost use Rattle.am_config.specs.Judging.{reading};
ghost use Rattle.am_current.specs.Current.{configuration_in, or_default, read_for};

use am_config::Config;
use am_item::Held;
use am_tenant::TenantName;
use am_text::{Failure, Text};
use std::alloc::{AllocError, Global};
use std::collections::BTreeMap;

/// Configurations that were read, by tenant.
#[derive(Drop)]
pub(crate) struct Readings {
    pub(crate) read: BTreeMap<TenantName, Config>,
    // the configuration of a tenant for which none was read
    pub(crate) otherwise: Config,
}

impl Readings {
    /// None read: each tenant has the default configuration. An error is out of memory.
    pub(crate) fn new(alloc: Global) -> Result<Readings, AllocError>
        ensures read { IfOk result (λ readings. (t : List ℕ) → read_for t readings.read ≡ None) }
        ensures otherwise { IfOk result (λ readings. readings.otherwise ≡ default_configuration) }
    {
        Ok(Readings {
            read: BTreeMap::new(alloc),
            otherwise: Config::default_config(alloc)?,
        })
    }

    /// Forgets what was read for all tenants.
    pub(crate) fn clear(&mut self)
        ensures read { (t : List ℕ) → read_for t self.new.read ≡ None }
        ensures otherwise { self.new.otherwise ≡ self.old.otherwise }
    {
        self.read.clear();
    }

    /// The configuration of a tenant.
    pub(crate) fn of(&self, tenant: &TenantName) -> &Config
        ensures { result.now ≡ unwrap_or (read_for tenant.now self.now.read) self.now.otherwise }
    {
        match self.read.get(tenant) {
            Some(config) => config,
            None => &self.otherwise,
        }
    }

    /// Reads the configuration of a tenant of which this is held, where it has a text and none was read. An error,
    /// which is out of memory, reads none.
    pub(crate) fn keep(
        &mut self,
        alloc: Global,
        tenant: &TenantName,
        held: &Held,
    ) -> Result<(), AllocError>
        requires right { IfSome (read_for tenant.now self.old.read) (λ c. c ≡ configuration_in held.now) }
        ensures right { IfSome (read_for tenant.now self.new.read) (λ c. c ≡ configuration_in held.now) }
        ensures unread { OnOk result (IfNone (read_for tenant.now self.new.read) (configuration_in held.now ≡ default_configuration)) }
        ensures others { (t : List ℕ) → same t tenant.now ≡ false → read_for t self.new.read ≡ read_for t self.old.read }
        ensures otherwise { self.new.otherwise ≡ self.old.otherwise }
    {
        if self.read.contains_key(tenant) {
            return Ok(());
        }
        let Some(text) = text_of(held) else {
            return Ok(());
        };
        let config = read_or_default(alloc, text)?;
        self.read.insert(*tenant, config)?;
        Ok(())
    }

    /// Forgets what was read for a tenant.
    pub(crate) fn forget(&mut self, tenant: &TenantName)
        ensures read { (t : List ℕ) → read_for t self.new.read ≡ (if same t tenant.now then None else read_for t self.old.read) }
        ensures otherwise { self.new.otherwise ≡ self.old.otherwise }
    {
        self.read.remove(tenant);
    }
}

// The text of the configuration that is held.
#[tactic(auto, unfolding(crate::specs::Current::configuration_in))]
pub(crate) fn text_of(held: &Held) -> Option<&Text>
    ensures text { IfSome result (λ text. configuration_in held.now ≡ or_default (reading (draft_in text.now))) }
    ensures none { IfNone result (configuration_in held.now ≡ default_configuration) }
{
    match held.configuration() {
        Some(configuration) => configuration.value.as_ref(),
        None => None,
    }
}

// What the text is read as by the grammars alone, and the default configuration where it is refused.
pub(crate) fn read_or_default(alloc: Global, text: &Text) -> Result<Config, AllocError>
    ensures { IfOk result (λ c. c ≡ or_default (reading (draft_in text.now))) }
{
    match Config::reread(alloc, text.as_str().as_bytes()) {
        Ok(config) => Ok(config),
        Err(Failure::Refused(_)) => Config::default_config(alloc),
        Err(Failure::OutOfMemory) => Err(AllocError),
    }
}
