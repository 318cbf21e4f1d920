//! How the messages that wait are delivered and dropped.
ghost use Rattle.std.specs.Prelude.{◌≡◌, IfOk, OnOk, filter};
ghost use Rattle.am_play.specs.Playing.{Crosses, Delivers, HandsOver, Pumps, dropping, is_there};
ghost use Rattle.am_play.specs.Trace.{Reports};

use crate::play::{PIECE, Player};
use am_event::Event;
use am_messages::MessageName;
use am_report::{Mail, Report};
use am_scenario::Way;
use am_stream::Link;
use am_text::Failure;
use am_wire::encode;
use am_world::AnyWorld;
use std::alloc::{AllocError, Global};

/// How many messages one line hands over, at most.
const PUMPED: u32 = 1_000_000;

impl<W: AnyWorld> Player<W> {
    /// Hands over the messages that wait, from the oldest on, those too that this sends, until none waits. One whose
    /// delivery is refused waits on, before those that weren't handed over.
    pub(crate) fn pump<L: Link>(
        &mut self,
        alloc: Global,
        link: &mut L,
        report: &mut Report,
    ) -> Result<(), AllocError>
        ensures { OnOk result (Reports report.old report.new (Pumps W.contents L.carries self.old self.new)) }
    {
        let mut kept = Mail::new(alloc);
        for _ in 0..PUMPED {
            let Some(letter) = self.mail.take_first() else {
                break;
            };
            if !self.hand_over(alloc, link, &letter.name, report)? {
                kept.push(letter)?;
            }
        }
        self.mail.put_first(kept)
    }

    /// Hands a message over: where it is there, its bytes go over the link, and where all of them came it is delivered.
    /// Says whether it is done with: one whose delivery is refused isn't.
    fn hand_over<L: Link>(
        &mut self,
        alloc: Global,
        link: &mut L,
        name: &MessageName,
        report: &mut Report,
    ) -> Result<bool, AllocError>
        ensures { IfOk result (λ is_done. Reports report.old report.new
            (HandsOver W.contents L.carries name.now self.old is_done self.new)) }
    {
        let Some(message) = self.world.message(name) else {
            return Ok(true);
        };
        let bytes = match encode(alloc, message) {
            Ok(bytes) => bytes,
            Err(Failure::Refused(_)) => return Ok(true),
            Err(Failure::OutOfMemory) => return Err(AllocError),
        };
        if !carry(link, bytes.as_slice()) {
            return Ok(true);
        }
        let event = Event::Deliver {
            message: *name,
            moment: self.moment,
        };
        self.happen(alloc, &event, report)
    }

    /// Delivers the message of a name, which waits no more then, unless that was refused.
    pub(crate) fn deliver(
        &mut self,
        alloc: Global,
        name: MessageName,
        report: &mut Report,
    ) -> Result<(), AllocError>
        ensures { OnOk result (Reports report.old report.new (Delivers W.contents name self.old self.new)) }
    {
        let event = Event::Deliver {
            message: name,
            moment: self.moment,
        };
        if self.happen(alloc, &event, report)? {
            self.mail.forget(&name);
        }
        Ok(())
    }

    /// The oldest message that is there and goes this way waits no more.
    pub(crate) fn drop_oldest(&mut self, way: &Way)
        ensures { self.new ≡ dropping W.contents way.now self.old }
    {
        drop_lost(&mut self.mail, &self.world);
        self.mail.drop_first(way);
    }
}

/// Messages that a world has no more wait no more.
fn drop_lost<W: AnyWorld>(mail: &mut Mail, world: &W)
    ensures { mail.new ≡ filter (is_there (W.contents world.now).state) mail.old }
{
    mail.letters
        .retain(|letter| world.message(&letter.name).is_some());
}

/// Sends the bytes of a message over the link, piece by piece. Whether all of them came.
fn carry<L: Link>(link: &mut L, bytes: &[u8]) -> bool
    ensures { Crosses L.carries bytes.now result }
{
    for piece in bytes.chunks(PIECE) {
        if !link.carry(piece) {
            return false;
        }
    }
    true
}
