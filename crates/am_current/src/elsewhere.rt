//! The configurations in use for lists that aren't what is held here.

ghost use Rattle.std.specs.Prelude.{◌≡◌, IfOk, true};
ghost use Rattle.am_draft.specs.Drafts.{draft_in};
ghost use Rattle.am_config.specs.Judging.{reading};
ghost use Rattle.am_current.specs.Current.{configuration_in, or_default};

use crate::reading::{read_or_default, text_of};
use am_config::Config;
use am_item::Held;
use am_tenant::TenantName;
use am_text::Text;
use std::alloc::{AllocError, Global};
use std::collections::BTreeMap;
use std::marker::Model;

/// Configurations that were read of lists which have another text than what is held here, the last one of each tenant.
/// What was read before changes no answer.
pub struct Elsewhere {
    read: BTreeMap<TenantName, Reading>,
    // the configuration of a list that has no text
    otherwise: Config,
}

// Written out, so that a crate which owns one need not prove anew how its parts are dropped.
impl Drop for Elsewhere {
    fn drop(self) {
        let Elsewhere { read, otherwise } = self;
        drop(read);
        drop(otherwise);
    }
}

impl Model for Elsewhere {
    ghost use Rattle.std.specs.Prelude.{◌≡◌};
    ghost use Rattle.am_config.specs.Configuration.{Configuration};
    ghost use Rattle.am_config.specs.Default.{default_configuration};

    ghost Value = { Configuration };

    ghost view = { λ elsewhere. elsewhere.otherwise };

    ghost invariant = { λ elsewhere. elsewhere.otherwise ≡ default_configuration };
}

impl Elsewhere {
    /// None read.
    ///
    /// An error is out of memory.
    pub fn new(alloc: Global) -> Result<Elsewhere, AllocError> {
        Ok(Elsewhere {
            read: BTreeMap::new(alloc),
            otherwise: Config::default_config(alloc)?,
        })
    }

    /// Forgets what was read. It takes no memory.
    pub fn clear(&mut self)
        ensures { self.new ≡ self.old }
    {
        self.read.clear();
    }

    /// The configuration in use where a tenant has this list, and `config` is in use for what is held of it here. What
    /// a text was read as is kept until the tenant's list has another one, or that of what is held.
    ///
    /// An error is out of memory.
    pub fn in_use<'a>(
        &'a mut self,
        alloc: Global,
        tenant: &TenantName,
        list: &Held,
        held: &Held,
        config: &'a Config,
    ) -> Result<&'a Config, AllocError>
        requires { config.now ≡ configuration_in held.now }
        ensures { IfOk result (λ used. used.now ≡ configuration_in list.now) }
    {
        if have_one_text(list, held) {
            self.read.remove(tenant);
            return Ok(config);
        }
        self.read_list(alloc, tenant, list)
    }

    // What the list's text is read as.
    fn read_list(
        &mut self,
        alloc: Global,
        tenant: &TenantName,
        list: &Held,
    ) -> Result<&Config, AllocError>
        ensures { IfOk result (λ used. used.now ≡ configuration_in list.now) }
    {
        let Some(text) = text_of(list) else {
            self.read.remove(tenant);
            return Ok(&self.otherwise);
        };
        let reading = read_again(alloc, self.read.remove(tenant), text)?;
        let reading = self.read.entry(*tenant)?.or_insert(reading);
        Ok(reading.config())
    }
}

// A text, and what it is read as.
#[derive(Drop)]
struct Reading {
    text: Text,
    config: Config,
}

impl Model for Reading {
    ghost use Rattle.std.specs.Prelude.{◌≡◌, ℕ, List};
    ghost use Rattle.am_draft.specs.Drafts.{draft_in};
    ghost use Rattle.am_config.specs.Judging.{reading};
    ghost use Rattle.am_current.specs.Current.{or_default};

    ghost Value = { List ℕ };

    ghost view = { λ r. r.text };

    ghost invariant = { λ r. r.config ≡ or_default (reading (draft_in r.text)) };
}

impl Reading {
    // A text is read.
    fn new(alloc: Global, text: &Text) -> Result<Reading, AllocError>
        ensures { IfOk result (λ reading. reading ≡ text.now) }
    {
        let config = read_or_default(alloc, text)?;
        Ok(Reading {
            text: text.copy(alloc)?,
            config,
        })
    }

    // What it is read as.
    fn config(&self) -> &Config
        ensures { result.now ≡ or_default (reading (draft_in self.now)) }
    {
        &self.config
    }

    // Whether it is of this text.
    fn is_of(&self, text: &Text) -> bool
        ensures { result ≡ true → self.now ≡ text.now }
    {
        self.text == *text
    }
}

// A text is read, unless it is the one that was.
fn read_again(alloc: Global, read: Option<Reading>, text: &Text) -> Result<Reading, AllocError>
    ensures { IfOk result (λ reading. reading ≡ text.now) }
{
    if let Some(reading) = read {
        if reading.is_of(text) {
            return Ok(reading);
        }
    }
    Reading::new(alloc, text)
}

// Both lists have one text as their configuration, or have none.
fn have_one_text(list: &Held, held: &Held) -> bool
    ensures { result ≡ true → configuration_in list.now ≡ configuration_in held.now }
{
    match (text_of(list), text_of(held)) {
        (Some(text), Some(other)) => *text == *other,
        (None, None) => true,
        _ => false,
    }
}
