//! The items within a message.

ghost use Rattle.std.specs.Prelude.{◌≡◌, ◌≤◌, IfOk, length};
ghost use Rattle.std.specs.List.{slice_range};
ghost use Rattle.am_item.specs.Best.{best};
ghost use Rattle.am_wire.specs.Items.{items_in};

use crate::held_part::HeldPart;
use am_item::{Held, SharedItem, share_all};
use std::alloc::{AllocError, Global};
use std::marker::Model;
use std::rc::Rc;

/// Items in their order, shared by all who hold them: a copy of them is counted, not made.
pub struct Items {
    form: Form,
}

// Written out, so that a crate which owns one need not prove anew how its parts are dropped.
impl Drop for Items {
    fn drop(self) {
        let Items { form } = self;
        drop(form);
    }
}

// Items as a list, as they are held, or as a part of what is held.
#[derive(Drop)]
pub(crate) enum Form {
    Listed(Rc<Vec<SharedItem>>),
    Held(Held),
    Part(HeldPart),
}

impl Model for Items {
    ghost use Rattle.std.specs.Prelude.{List};
    ghost use Rattle.am_item.specs.declared.item.Item.{Item};
    ghost use Rattle.am_wire.specs.Items.{items_in};

    ghost Value = { List Item };

    ghost view = { λ items. items_in items.form };
}

impl Items {
    /// The items of a list, which are not copied.
    ///
    /// An error is out of memory.
    pub fn from_vec(alloc: Global, items: Vec<SharedItem>) -> Result<Items, AllocError>
        ensures { IfOk result (λ shared. shared ≡ items.items) }
    {
        let form = Form::Listed(Rc::new(alloc, items)?);
        Ok(Items { form })
    }

    /// All that is held, in the order of keys.
    pub fn from_held(held: Held) -> Items
        ensures { result ≡ held }
    {
        Items {
            form: Form::Held(held),
        }
    }

    /// The items that are held from one place up to another, from 0 on, in the order of keys. They cost nothing each.
    pub fn from_part(held: Held, from: usize, to: usize) -> Items
        requires order { from ≤ to }
        requires within { to ≤ length held }
        ensures { result ≡ slice_range held from to }
    {
        Items {
            form: Form::Part(HeldPart::new(held, from, to)),
        }
    }

    // The form that they have.
    pub(crate) fn form(&self) -> &Form
        ensures { items_in result.now ≡ self.now }
    {
        &self.form
    }

    /// The same items, held once more. It takes no memory; an error says that they are held as often as can be counted.
    pub fn share(&self) -> Result<Items, AllocError>
        ensures { IfOk result (λ shared. shared ≡ self.now) }
    {
        let form = match &self.form {
            Form::Listed(list) => Form::Listed(list.clone()?),
            Form::Held(held) => Form::Held(held.snapshot()?),
            Form::Part(part) => Form::Part(part.share()?),
        };
        Ok(Items { form })
    }

    /// The items one by one.
    ///
    /// An error is out of memory.
    pub fn list(&self, alloc: Global) -> Result<Vec<SharedItem>, AllocError>
        ensures { IfOk result (λ list. list.items ≡ self.now) }
    {
        match &self.form {
            Form::Listed(list) => share_all(alloc, list.as_ref().as_slice()),
            Form::Held(held) => held.items(alloc),
            Form::Part(part) => part.list(alloc),
        }
    }

    /// The best of the items. It takes no time where they are all that is held.
    ///
    /// An error is out of memory.
    pub fn held(&self, alloc: Global) -> Result<Held, AllocError>
        ensures { IfOk result (λ held. held ≡ best self.now) }
    {
        match &self.form {
            Form::Listed(list) => Held::best_of(alloc, list.as_ref().as_slice()),
            Form::Held(held) => held.snapshot(),
            Form::Part(part) => {
                let items = part.list(alloc)?;
                Held::best_of(alloc, items.as_slice())
            }
        }
    }
}
