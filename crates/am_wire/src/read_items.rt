//! Reading items.

ghost use Rattle.std.specs.Prelude.{◌≡◌, ◌<◌, ◌^◌, ◌++◌, ◌∷◌, All, IfOk, IfSome, IsTrue, IsUtf8, None, length, map};
ghost use Rattle.std.specs.List.{flat_map};
ghost use Rattle.am_labels.specs.Labels.{is_label_name};
ghost use Rattle.am_match.specs.Matchers.{IsMatcher};
ghost use Rattle.am_match.specs.Spelling.{operator_number};
ghost use Rattle.am_text.specs.Outcome.{Gives};
ghost use Rattle.am_wire.specs.Fields.{bytes_at, several, text_bytes};
ghost use Rattle.am_wire.specs.ItemFields.{AreMatchers, IsAlert, IsEntry, IsItem, IsSilence, IsStamp, IsThing, alert_at, alert_bytes, configuration_at, configuration_bytes, entry_at, entry_bytes, item_at, item_bytes, items_at, items_bytes, kind_of_thing, matcher_at, matcher_bytes, matcher_name_at, matchers_at, matchers_bytes, operator_at, silence_at, silence_bytes, stamp_at, stamp_bytes, thing_at, thing_bytes, thing_kind_at, thing_number};

use crate::items::Items;
use crate::kinds::ThingKind;
use crate::reader::Reader;
use crate::refusal::WireRefusal;
use am_item::{Alert, Item, Matchers, SentEntry, SharedItem, Silence, SilenceId, Stamp, Thing};
use am_labels::is_label_name;
use am_match::{Matcher, Operator};
use am_text::{Failure, Text};
use std::alloc::Global;

impl<'a> Reader<'a> {
    #[tactic(auto, unfolding(crate::specs::ItemFields::operator_at))]
    fn operator(&mut self) -> Result<Operator, Failure<WireRefusal>>
        ensures read { Gives (λ operator. (operator, self.new)) result (operator_at self.old) }
        ensures found { IfOk result (λ operator. self.old ≡ operator_number operator ∷ self.new) }
    {
        match self.byte()? {
            0 => Ok(Operator::Equal),
            1 => Ok(Operator::NotEqual),
            2 => Ok(Operator::Match),
            3 => Ok(Operator::NotMatch),
            _ => Err(Failure::Refused(WireRefusal::BadValue)),
        }
    }

    #[tactic(auto, unfolding(crate::specs::ItemFields::matcher_name_at))]
    fn matcher_name(&mut self, alloc: Global) -> Result<Text, Failure<WireRefusal>>
        ensures read { Gives (λ name. (name, self.new)) result (matcher_name_at self.old) }
        ensures found { IfOk result (λ name. self.old ≡ text_bytes name ++ self.new) }
        ensures named { IfOk result (λ name. IsTrue (is_label_name name)) }
    {
        let name = self.str()?;
        if is_label_name(name) {
            Ok(Text::read(alloc, name)?)
        } else {
            Err(Failure::Refused(WireRefusal::BadValue))
        }
    }

    #[tactic(auto, unfolding(crate::specs::ItemFields::matcher_at, crate::specs::ItemFields::matcher_bytes))]
    fn matcher(&mut self, alloc: Global) -> Result<Matcher, Failure<WireRefusal>>
        ensures read { Gives (λ matcher. (matcher, self.new)) result (matcher_at self.old) }
        ensures found { IfOk result (λ matcher. self.old ≡ matcher_bytes matcher ++ self.new) }
        ensures valid { IfOk result (λ matcher. IsMatcher matcher) }
    {
        let operator = self.operator()?;
        let name = self.matcher_name(alloc)?;
        let value = self.text(alloc)?;
        match Matcher::new(operator, name, value) {
            Some(matcher) => Ok(matcher),
            None => unreachable!(),
        }
    }

    fn several_matchers(
        &mut self,
        alloc: Global,
        count: u16,
    ) -> Result<Vec<Matcher>, Failure<WireRefusal>>
        ensures read { Gives (λ matchers. (matchers.items, self.new)) result (several (λ before. matcher_at) count None self.old) }
        ensures found { IfOk result (λ matchers. self.old ≡ flat_map matcher_bytes matchers.items ++ self.new) }
        ensures valid { IfOk result (λ matchers. All IsMatcher matchers.items) }
        ensures length { IfOk result (λ matchers. length matchers.items ≡ count) }
    {
        let mut matchers = Vec::new(alloc);
        for _ in 0..count {
            let matcher = self.matcher(alloc)?;
            matchers.push(matcher)?;
        }
        Ok(matchers)
    }

    #[tactic(auto, unfolding(crate::specs::ItemFields::matchers_at, crate::specs::ItemFields::matchers_bytes))]
    fn matchers(&mut self, alloc: Global) -> Result<Vec<Matcher>, Failure<WireRefusal>>
        ensures read { Gives (λ matchers. (matchers.items, self.new)) result (matchers_at self.old) }
        ensures found { IfOk result (λ matchers. self.old ≡ matchers_bytes matchers.items ++ self.new) }
        ensures valid { IfOk result (λ matchers. AreMatchers matchers.items) }
    {
        let count = self.u16()?;
        let matchers = self.several_matchers(alloc, count)?;
        Ok(matchers)
    }

    #[tactic(auto, unfolding(crate::specs::ItemFields::stamp_at, crate::specs::ItemFields::stamp_bytes))]
    fn stamp(&mut self) -> Result<Stamp, Failure<WireRefusal>>
        ensures read { Gives (λ stamp. (stamp, self.new)) result (stamp_at self.old) }
        ensures found { IfOk result (λ stamp. self.old ≡ stamp_bytes stamp ++ self.new) }
        ensures valid { IfOk result (λ stamp. IsStamp stamp) }
    {
        let moment = self.moment()?;
        let instance = self.instance()?;
        let incarnation = self.u32()?;
        let count = self.u64()?;
        Ok(Stamp {
            moment,
            instance: instance.number(),
            incarnation,
            count,
        })
    }

    #[tactic(auto, unfolding(crate::specs::ItemFields::configuration_at, crate::specs::ItemFields::configuration_bytes))]
    fn configuration(&mut self, alloc: Global) -> Result<Option<Text>, Failure<WireRefusal>>
        ensures read { Gives (λ text. (text, self.new)) result (configuration_at self.old) }
        ensures found { IfOk result (λ text. self.old ≡ configuration_bytes text ++ self.new) }
        ensures valid { IfOk result (λ text. IfSome text IsUtf8) }
    {
        if !self.flag()? {
            return Ok(None);
        }
        let text = self.text(alloc)?;
        Ok(Some(text))
    }

    fn silence_id(&mut self) -> Result<SilenceId, Failure<WireRefusal>>
        ensures read { Gives (λ id. (id, self.new)) result (bytes_at 16 self.old) }
        ensures found { IfOk result (λ id. self.old ≡ id ++ self.new) }
        ensures valid { IfOk result (λ id. length id ≡ 16) }
    {
        let mut id = [0; 16];
        id.copy_from_slice(self.bytes(16)?);
        Ok(SilenceId::from_bytes(id))
    }

    #[tactic(auto, unfolding(crate::specs::ItemFields::silence_at, crate::specs::ItemFields::silence_bytes))]
    fn silence(&mut self, alloc: Global) -> Result<Silence, Failure<WireRefusal>>
        ensures read { Gives (λ silence. (silence, self.new)) result (silence_at self.old) }
        ensures found { IfOk result (λ silence. self.old ≡ silence_bytes silence ++ self.new) }
        ensures valid { IfOk result (λ silence. IsSilence silence) }
    {
        let id = self.silence_id()?;
        let starts_at = self.moment()?;
        let ends_at = self.moment()?;
        let kept_until = self.moment()?;
        let created_by = self.text(alloc)?;
        let comment = self.text(alloc)?;
        let matchers = Matchers::from_vec(self.matchers(alloc)?);
        Ok(Silence {
            id,
            starts_at,
            ends_at,
            kept_until,
            created_by,
            comment,
            matchers,
        })
    }

    #[tactic(auto, unfolding(crate::specs::ItemFields::alert_at, crate::specs::ItemFields::alert_bytes))]
    fn alert(&mut self, alloc: Global) -> Result<Alert, Failure<WireRefusal>>
        ensures read { Gives (λ alert. (alert, self.new)) result (alert_at self.old) }
        ensures found { IfOk result (λ alert. self.old ≡ alert_bytes alert ++ self.new) }
        ensures valid { IfOk result (λ alert. IsAlert alert) }
    {
        let labels = self.label_set(alloc)?;
        let annotations = self.annotations(alloc)?;
        let starts_at = self.moment()?;
        let ends_at = self.moment()?;
        let generator_url = self.text(alloc)?;
        Ok(Alert {
            labels,
            annotations,
            starts_at,
            ends_at,
            generator_url,
        })
    }

    #[tactic(auto, unfolding(crate::specs::ItemFields::entry_at, crate::specs::ItemFields::entry_bytes))]
    fn sent_entry(&mut self, alloc: Global) -> Result<SentEntry, Failure<WireRefusal>>
        ensures read { Gives (λ entry. (entry, self.new)) result (entry_at self.old) }
        ensures found { IfOk result (λ entry. self.old ≡ entry_bytes entry ++ self.new) }
        ensures valid { IfOk result (λ entry. IsEntry entry) }
    {
        let receiver = self.text(alloc)?;
        let group = self.text(alloc)?;
        let webhook = self.byte()?;
        let ends_at = self.moment()?;
        let firing = self.label_sets(alloc)?;
        let resolved = self.label_sets(alloc)?;
        Ok(SentEntry {
            receiver,
            group,
            webhook,
            ends_at,
            firing,
            resolved,
        })
    }

    #[tactic(auto, unfolding(crate::specs::ItemFields::thing_kind_at))]
    fn thing_kind(&mut self) -> Result<ThingKind, Failure<WireRefusal>>
        ensures read { Gives (λ kind. (kind, self.new)) result (thing_kind_at self.old) }
        ensures found { IfOk result (λ kind. self.old ≡ thing_number kind ∷ self.new) }
    {
        match self.byte()? {
            1 => Ok(ThingKind::Configuration),
            2 => Ok(ThingKind::Silence),
            3 => Ok(ThingKind::Alert),
            4 => Ok(ThingKind::SentEntry),
            _ => Err(Failure::Refused(WireRefusal::BadValue)),
        }
    }

    // A thing of this kind.
    #[tactic(auto, unfolding(crate::specs::ItemFields::thing_at))]
    fn thing(&mut self, alloc: Global, kind: ThingKind) -> Result<Thing, Failure<WireRefusal>>
        ensures read { Gives (λ thing. (thing, self.new)) result (thing_at kind self.old) }
        ensures kind { IfOk result (λ thing. kind_of_thing thing ≡ kind) }
        ensures found { IfOk result (λ thing. self.old ≡ thing_bytes thing ++ self.new) }
        ensures valid { IfOk result (λ thing. IsThing thing) }
    {
        match kind {
            ThingKind::Configuration => Ok(Thing::Configuration(self.configuration(alloc)?)),
            ThingKind::Silence => Ok(Thing::Silence(self.silence(alloc)?)),
            ThingKind::Alert => Ok(Thing::Alert(self.alert(alloc)?)),
            ThingKind::SentEntry => Ok(Thing::SentEntry(self.sent_entry(alloc)?)),
        }
    }

    #[tactic(auto, unfolding(crate::specs::ItemFields::item_at, crate::specs::ItemFields::item_bytes))]
    fn item(&mut self, alloc: Global) -> Result<SharedItem, Failure<WireRefusal>>
        ensures read { Gives (λ item. (item, self.new)) result (item_at self.old) }
        ensures found { IfOk result (λ item. self.old ≡ item_bytes item ++ self.new) }
        ensures valid { IfOk result (λ item. IsItem item) }
    {
        let kind = self.thing_kind()?;
        let stamp = self.stamp()?;
        let thing = self.thing(alloc, kind)?;
        Ok(SharedItem::new(alloc, Item { stamp, thing })?)
    }

    fn several_items(
        &mut self,
        alloc: Global,
        count: u32,
    ) -> Result<Vec<SharedItem>, Failure<WireRefusal>>
        ensures read { Gives (λ items. (items.items, self.new)) result (several (λ before. item_at) count None self.old) }
        ensures found { IfOk result (λ items. self.old ≡ flat_map item_bytes items.items ++ self.new) }
        ensures valid { IfOk result (λ items. All IsItem items.items) }
        ensures length { IfOk result (λ items. length items.items ≡ count) }
    {
        let mut items = Vec::new(alloc);
        for _ in 0..count {
            let item = self.item(alloc)?;
            items.push(item)?;
        }
        Ok(items)
    }

    // Items.
    #[tactic(auto, unfolding(crate::specs::ItemFields::items_at, crate::specs::ItemFields::items_bytes))]
    fn items(&mut self, alloc: Global) -> Result<Vec<SharedItem>, Failure<WireRefusal>>
        ensures read { Gives (λ items. (items.items, self.new)) result (items_at self.old) }
        ensures found { IfOk result (λ items. self.old ≡ items_bytes items.items ++ self.new) }
        ensures valid { IfOk result (λ items. All IsItem items.items) }
    {
        let count = self.u32()?;
        let items = self.several_items(alloc, count)?;
        Ok(items)
    }

    /// Items that may be shared.
    pub fn shared_items(&mut self, alloc: Global) -> Result<Items, Failure<WireRefusal>>
        ensures read { Gives (λ items. (items, self.new)) result (items_at self.old) }
        ensures found { IfOk result (λ items. self.old ≡ items_bytes items ++ self.new) }
        ensures valid { IfOk result (λ items. All IsItem items) }
    {
        let items = self.items(alloc)?;
        Ok(Items::from_vec(alloc, items)?)
    }
}
