//! Reading messages.

ghost use Rattle.std.specs.Prelude.{◌≡◌, ◌<◌, ◌^◌, ◌++◌, ◌∷◌, IfOk, IsTrue, Ok, length};
ghost use Rattle.am_tenant.specs.Names.{is_tenant_name};
ghost use Rattle.am_text.specs.Outcome.{Gives};
ghost use Rattle.am_wire.specs.Fields.{number_bytes};
ghost use Rattle.am_wire.specs.Messages.{IsBody, IsMessage, Spells, ack_at, answer_at, ask_at, body_at, body_bytes, body_kind_at, body_number, frame_at, get_at, got_at, inside, kind_of_body, message_at, message_of, message_version, put_at, state_at, tenant_at, version_at};
ghost use Rattle.am_wire.specs.declared.message.Message.{Message};

use crate::kinds::{BodyKind, VERSION};
use crate::message::{Body, Message};
use crate::reader::Reader;
use crate::refusal::WireRefusal;
use am_tenant::TenantName;
use am_text::{Failure, refuse_as};
use std::alloc::Global;

impl<'a> Reader<'a> {
    #[tactic(auto, unfolding(crate::specs::Messages::version_at))]
    fn version(&mut self) -> Result<u8, Failure<WireRefusal>>
        ensures read { Gives (λ version. (version, self.new)) result (version_at self.old) }
        ensures found { IfOk result (λ _. self.old ≡ message_version ∷ self.new) }
    {
        match self.byte()? {
            VERSION => Ok(VERSION),
            _ => Err(Failure::Refused(WireRefusal::UnknownKind)),
        }
    }

    #[tactic(auto, unfolding(crate::specs::Messages::body_kind_at))]
    fn body_kind(&mut self) -> Result<BodyKind, Failure<WireRefusal>>
        ensures read { Gives (λ kind. (kind, self.new)) result (body_kind_at self.old) }
        ensures found { IfOk result (λ kind. self.old ≡ body_number kind ∷ self.new) }
    {
        match self.byte()? {
            1 => Ok(BodyKind::Get),
            2 => Ok(BodyKind::Answer),
            3 => Ok(BodyKind::Put),
            4 => Ok(BodyKind::Ack),
            5 => Ok(BodyKind::Ask),
            6 => Ok(BodyKind::State),
            7 => Ok(BodyKind::Got),
            _ => Err(Failure::Refused(WireRefusal::UnknownKind)),
        }
    }

    #[tactic(auto, unfolding(crate::specs::Messages::tenant_at))]
    fn tenant(&mut self) -> Result<TenantName, Failure<WireRefusal>>
        ensures read { Gives (λ tenant. (tenant, self.new)) result (tenant_at self.old) }
        ensures found { IfOk result (λ tenant. self.old ≡ length tenant ∷ (tenant ++ self.new)) }
        ensures valid { IfOk result (λ tenant. IsTrue (is_tenant_name tenant)) }
    {
        let length = self.byte()?;
        let name = self.bytes(length as usize)?;
        match TenantName::read(name) {
            Ok(tenant) => Ok(tenant),
            Err(_) => Err(Failure::Refused(WireRefusal::BadTenant)),
        }
    }

    #[tactic(auto, unfolding(crate::specs::Messages::get_at, crate::specs::Messages::body_bytes))]
    fn get(&mut self) -> Result<Body, Failure<WireRefusal>>
        ensures read { Gives (λ body. (body, self.new)) result (get_at self.old) }
        ensures kind { IfOk result (λ body. kind_of_body body ≡ BodyKind.Get) }
        ensures found { IfOk result (λ body. self.old ≡ body_bytes body ++ self.new) }
        ensures valid { IfOk result (λ body. IsBody body) }
    {
        let operation = self.u64()?;
        Ok(Body::Get { operation })
    }

    #[tactic(auto, unfolding(crate::specs::Messages::answer_at, crate::specs::Messages::body_bytes))]
    fn answer(&mut self, alloc: Global) -> Result<Body, Failure<WireRefusal>>
        ensures read { Gives (λ body. (body, self.new)) result (answer_at self.old) }
        ensures kind { IfOk result (λ body. kind_of_body body ≡ BodyKind.Answer) }
        ensures found { IfOk result (λ body. self.old ≡ body_bytes body ++ self.new) }
        ensures valid { IfOk result (λ body. IsBody body) }
    {
        let operation = self.u64()?;
        let incarnation = self.u32()?;
        let items = self.shared_items(alloc)?;
        Ok(Body::Answer {
            operation,
            incarnation,
            items,
        })
    }

    #[tactic(auto, unfolding(crate::specs::Messages::put_at, crate::specs::Messages::body_bytes))]
    fn put(&mut self, alloc: Global) -> Result<Body, Failure<WireRefusal>>
        ensures read { Gives (λ body. (body, self.new)) result (put_at self.old) }
        ensures kind { IfOk result (λ body. kind_of_body body ≡ BodyKind.Put) }
        ensures found { IfOk result (λ body. self.old ≡ body_bytes body ++ self.new) }
        ensures valid { IfOk result (λ body. IsBody body) }
    {
        let operation = self.u64()?;
        let items = self.shared_items(alloc)?;
        Ok(Body::Put { operation, items })
    }

    #[tactic(auto, unfolding(crate::specs::Messages::ack_at, crate::specs::Messages::body_bytes))]
    fn ack(&mut self) -> Result<Body, Failure<WireRefusal>>
        ensures read { Gives (λ body. (body, self.new)) result (ack_at self.old) }
        ensures kind { IfOk result (λ body. kind_of_body body ≡ BodyKind.Ack) }
        ensures found { IfOk result (λ body. self.old ≡ body_bytes body ++ self.new) }
        ensures valid { IfOk result (λ body. IsBody body) }
    {
        let operation = self.u64()?;
        let incarnation = self.u32()?;
        Ok(Body::Ack {
            operation,
            incarnation,
        })
    }

    #[tactic(auto, unfolding(crate::specs::Messages::ask_at, crate::specs::Messages::body_bytes))]
    fn ask(&mut self) -> Result<Body, Failure<WireRefusal>>
        ensures read { Gives (λ body. (body, self.new)) result (ask_at self.old) }
        ensures kind { IfOk result (λ body. kind_of_body body ≡ BodyKind.Ask) }
        ensures found { IfOk result (λ body. self.old ≡ body_bytes body ++ self.new) }
        ensures valid { IfOk result (λ body. IsBody body) }
    {
        let incarnation = self.u32()?;
        Ok(Body::Ask { incarnation })
    }

    #[tactic(auto, unfolding(crate::specs::Messages::state_at, crate::specs::Messages::body_bytes))]
    fn state(&mut self, alloc: Global) -> Result<Body, Failure<WireRefusal>>
        ensures read { Gives (λ body. (body, self.new)) result (state_at self.old) }
        ensures kind { IfOk result (λ body. kind_of_body body ≡ BodyKind.State) }
        ensures found { IfOk result (λ body. self.old ≡ body_bytes body ++ self.new) }
        ensures valid { IfOk result (λ body. IsBody body) }
    {
        let incarnation = self.u32()?;
        let place = self.u32()?;
        let is_last = self.flag()?;
        let items = self.shared_items(alloc)?;
        Ok(Body::State {
            incarnation,
            place,
            is_last,
            items,
        })
    }

    #[tactic(auto, unfolding(crate::specs::Messages::got_at, crate::specs::Messages::body_bytes))]
    fn got(&mut self) -> Result<Body, Failure<WireRefusal>>
        ensures read { Gives (λ body. (body, self.new)) result (got_at self.old) }
        ensures kind { IfOk result (λ body. kind_of_body body ≡ BodyKind.Got) }
        ensures found { IfOk result (λ body. self.old ≡ body_bytes body ++ self.new) }
        ensures valid { IfOk result (λ body. IsBody body) }
    {
        let incarnation = self.u32()?;
        let place = self.u32()?;
        Ok(Body::Got { incarnation, place })
    }

    // What a message of this kind says.
    #[tactic(auto, unfolding(crate::specs::Messages::body_at))]
    fn body(&mut self, alloc: Global, kind: BodyKind) -> Result<Body, Failure<WireRefusal>>
        ensures read { Gives (λ body. (body, self.new)) result (body_at kind self.old) }
        ensures kind { IfOk result (λ body. kind_of_body body ≡ kind) }
        ensures found { IfOk result (λ body. self.old ≡ body_bytes body ++ self.new) }
        ensures valid { IfOk result (λ body. IsBody body) }
    {
        match kind {
            BodyKind::Get => self.get(),
            BodyKind::Answer => self.answer(alloc),
            BodyKind::Put => self.put(alloc),
            BodyKind::Ack => self.ack(),
            BodyKind::Ask => self.ask(),
            BodyKind::State => self.state(alloc),
            BodyKind::Got => self.got(),
        }
    }

    // A message behind its length.
    #[tactic(auto, unfolding(crate::specs::Messages::message_at, crate::specs::Messages::inside))]
    fn message(&mut self, alloc: Global) -> Result<Message, Failure<WireRefusal>>
        ensures read { Gives (λ message. (message, self.new)) result (message_at self.old) }
        ensures found { IfOk result (λ message. self.old ≡ inside message ++ self.new) }
        ensures valid { IfOk result (λ message. IsMessage message) }
    {
        self.version()?;
        let kind = self.body_kind()?;
        let from = self.instance()?;
        let incarnation = self.u32()?;
        let to = self.instance()?;
        let count = self.u64()?;
        let epoch = self.u64()?;
        let tenant = self.tenant()?;
        let body = self.body(alloc, kind)?;
        Ok(Message {
            from,
            incarnation,
            to,
            count,
            epoch,
            tenant,
            body,
        })
    }

    // As many bytes as are stated in front of them.
    #[tactic(auto, unfolding(crate::specs::Messages::frame_at))]
    fn frame(&mut self) -> Result<&'a [u8], Failure<WireRefusal>>
        ensures read { Gives (λ framed. (framed.now, self.new)) result (frame_at self.old) }
        ensures found { IfOk result (λ framed. self.old ≡ number_bytes 4 (length framed.now) ++ (framed.now ++ self.new)) }
        ensures short { IfOk result (λ framed. length framed.now < 2 ^ 32) }
    {
        let length = refuse_as(self.u32(), WireRefusal::CutShort)?;
        let framed = refuse_as(self.bytes(length as usize), WireRefusal::CutShort)?;
        Ok(framed)
    }
}

#[tactic(auto, unfolding(crate::specs::Messages::message_of, crate::specs::Messages::spelling))]
fn read_all(alloc: Global, bytes: &[u8]) -> Result<Message, Failure<WireRefusal>>
    ensures read { Gives (λ message. message) result (message_of bytes.now) }
    ensures spells { IfOk result (λ message. Spells bytes.now message) }
{
    let mut input = Reader::new(bytes);
    let mut framed = Reader::new(input.frame()?);
    let message = framed.message(alloc)?;
    if framed.len() == 0 && input.len() == 0 {
        Ok(message)
    } else {
        Err(Failure::Refused(WireRefusal::BytesLeft))
    }
}

/// The message that the bytes spell, all of them.
///
/// # Errors
/// What is met first from left to right, in the order of the fields: [`WireRefusal::CutShort`] where the bytes end
/// before the length that they state, [`WireRefusal::FieldPastEnd`] where a field runs past it,
/// [`WireRefusal::UnknownKind`] for a version other than 2 or a kind other than 1 to 7, [`WireRefusal::BadTenant`] for
/// what is no tenant name, [`WireRefusal::BadValue`] for any other value that isn't allowed, and
/// [`WireRefusal::BytesLeft`] where bytes are left behind the body or behind the stated length.
pub fn decode(alloc: Global, bytes: &[u8]) -> Result<Message, Failure<WireRefusal>>
    ensures read { Gives (λ message. message) result (message_of bytes.now) }

    // What is read is what the bytes spell, and what they spell is read, unless memory runs out.
    ensures spells { IfOk result (λ message. Spells bytes.now message) }
    ensures spelled { (m : Message) → Spells bytes.now m → Gives (λ message. message) result (Ok m) }
{
    read_all(alloc, bytes)
}
