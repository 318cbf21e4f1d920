//! The messages that wait to be delivered.
ghost use Rattle.std.specs.Prelude.{◌≡◌, ◌++◌, ◌∷◌, [], not, filter, option_to_list, IfNone, OnOk};
ghost use Rattle.am_report.specs.Mail.{goes, is_about, is_between, is_named, letter_of, letters_by, letters_in};
ghost use Rattle.am_report.specs.Mail.{without_first};

use am_event::Output;
use am_messages::MessageName;
use am_scenario::Way;
use am_wire::{Message, body_number};
use std::alloc::{AllocError, Global};
use std::collections::VecDeque;
use std::marker::Model;

/// A message that waits.
#[derive(Clone, Copy)]
pub struct Letter {
    pub name: MessageName,
    /// The number of its kind, 1 to 7.
    pub kind: u8,
}

impl Letter {
    /// The letter of a message.
    pub fn of(message: &Message) -> Letter
        ensures { result ≡ letter_of message.now }
    {
        Letter {
            name: MessageName::of(message),
            kind: body_number(&message.body),
        }
    }

    /// Whether it goes this way.
    pub fn goes(&self, way: &Way) -> bool
        ensures { result ≡ goes way.now self.now }
    {
        self.is_about(way) && self.is_between(way)
    }

    /// Whether it is about the tenant of a way, and of its kind.
    #[tactic(auto, unfolding(crate::specs::Mail::is_about, am_tenant::specs::Names::same))]
    fn is_about(&self, way: &Way) -> bool
        ensures { result ≡ is_about way.now self.now }
    {
        self.name.tenant == way.tenant && u64::from(self.kind) == way.kind
    }

    /// Whether it goes from the one instance of a way to the other.
    #[tactic(auto, unfolding(crate::specs::Mail::is_between))]
    fn is_between(&self, way: &Way) -> bool
        ensures { result ≡ is_between way.now self.now }
    {
        u64::from(self.name.from.number()) == way.from && u64::from(self.name.to.number()) == way.to
    }

    /// Whether it is of this name.
    #[tactic(auto, unfolding(crate::specs::Mail::is_named, am_tenant::specs::Names::same))]
    fn is_named(&self, name: &MessageName) -> bool
        ensures { result ≡ is_named name.now self.now }
    {
        self.name == *name
    }
}

/// The messages that wait to be delivered, in order of sending.
#[derive(Drop)]
pub struct Mail {
    pub letters: VecDeque<Letter>,
}

impl Model for Mail {
    ghost use Rattle.std.specs.Prelude.{List};
    ghost use Rattle.am_report.specs.declared.mail.Letter.{Letter};

    ghost Value = { List Letter };

    ghost view = { λ mail. mail.letters.items };
}

impl Mail {
    /// None waits, which takes no memory.
    pub fn new(alloc: Global) -> Mail
        ensures { result ≡ [] }
    {
        Mail {
            letters: VecDeque::new(alloc),
        }
    }

    /// The messages among outputs wait behind the others.
    pub fn post(&mut self, outputs: &[Output]) -> Result<(), AllocError>
        ensures { OnOk result (self.new ≡ self.old ++ letters_in outputs.now) }
    {
        for output in outputs {
            self.post_one(output)?;
        }
        Ok(())
    }

    /// Waits behind the others, where it is a message.
    fn post_one(&mut self, output: &Output) -> Result<(), AllocError>
        ensures { OnOk result (self.new ≡ self.old ++ letters_by output.now) }
    {
        match output {
            Output::Send(message) => self.push(Letter::of(message)),
            Output::Reply { .. } | Output::Notice { .. } => Ok(()),
        }
    }

    /// A letter waits behind the others.
    pub fn push(&mut self, letter: Letter) -> Result<(), AllocError>
        ensures { OnOk result (self.new ≡ self.old ++ letter ∷ []) }
    {
        self.letters.push_back(letter)?;
        Ok(())
    }

    /// Takes the letter that waited longest.
    pub fn take_first(&mut self) -> Option<Letter>
        ensures first { self.old ≡ option_to_list result ++ self.new }
        ensures none { IfNone result (self.old ≡ []) }
    {
        self.letters.pop_front()
    }

    /// These wait before the others.
    pub fn put_first(&mut self, first: Mail) -> Result<(), AllocError>
        ensures { OnOk result (self.new ≡ first ++ self.old) }
    {
        let Mail { mut letters } = first;
        letters.append(&mut self.letters)?;
        self.letters = letters;
        Ok(())
    }

    /// The message of a name waits no more.
    pub fn forget(&mut self, name: &MessageName)
        ensures { self.new ≡ filter (λ letter. not (is_named name.now letter)) self.old }
    {
        self.letters.retain(|letter| !letter.is_named(name));
    }

    /// Of the messages that go this way, the one that waited longest waits no more.
    pub fn drop_first(&mut self, way: &Way)
        ensures { self.new ≡ without_first (goes way.now) self.old }
    {
        for place in 0..self.letters.len() {
            if self.letters[place].goes(way) {
                self.letters.remove(place);
                return;
            }
        }
    }
}
