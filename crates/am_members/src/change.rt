//! What becomes of groups as one alert joins them or leaves them.

ghost use Rattle.std.specs.Prelude.{◌≡◌, true, IfSome, OnOk, None, if◌then◌else◌};
ghost use Rattle.std.specs.BTreeMap.{insert_entry};
ghost use Rattle.std.specs.List.{list_any};
ghost use Rattle.std.specs.Map.{lookup};
ghost use Rattle.am_labels.specs.Labels.{labels_cmp};
ghost use Rattle.am_members.specs.Names.{is_group, is_set, without};
ghost use Rattle.am_members.specs.Grouped.{AreFull, AreFullBut, held_at};
ghost use Rattle.am_members.specs.Members.{is_bare};
ghost use Rattle.am_members.specs.declared.group.Group.{Group as Name};

use crate::group::Group;
use crate::members::Members;
use am_labels::LabelSet;
use am_text::Moment;
use std::alloc::{AllocError, Global};
use std::collections::BTreeMap;

/// The alert of these labels leaves all these groups. A group without members is kept no longer.
pub fn leave_all(groups: &mut BTreeMap<Group, Members>, left: &[Group], labels: &LabelSet)
    ensures members { (q : Name) → held_at q groups.new.entries ≡ (if list_any (is_group q) left.now then without labels.now (held_at q groups.old.entries) else held_at q groups.old.entries) }
    ensures full { AreFull groups.old.entries → AreFull groups.new.entries }
{
    for group in left {
        leave_one(groups, group, labels);
        tidy(groups, group);
    }
}

/// The alert of these labels, which is in none of these groups, joins them all.
pub fn join_all(
    alloc: Global,
    groups: &mut BTreeMap<Group, Members>,
    joined: &[Group],
    labels: &LabelSet,
    since: Moment,
) -> Result<(), AllocError>
    requires { (q : Name) → list_any (is_group q) joined.now ≡ true → lookup (is_set labels.now) (held_at q groups.old.entries) ≡ None }
    ensures members { OnOk result ((q : Name) → held_at q groups.new.entries ≡ (if list_any (is_group q) joined.now then insert_entry labels_cmp (held_at q groups.old.entries) labels.now since else held_at q groups.old.entries)) }
    ensures full { OnOk result (AreFull groups.old.entries → AreFull groups.new.entries) }
{
    for group in joined {
        join_one(alloc, groups, group, labels, since)?;
    }
    Ok(())
}

/// Whether a group has no members.
pub fn is_bare_in(groups: &BTreeMap<Group, Members>, group: &Group) -> bool
    ensures { result ≡ is_bare (held_at group.now groups.now.entries) }
{
    match groups.get(group) {
        Some(members) => members.is_empty(),
        None => true,
    }
}

// The alert leaves one group.
fn leave_one(groups: &mut BTreeMap<Group, Members>, group: &Group, labels: &LabelSet)
    ensures members { (q : Name) → held_at q groups.new.entries ≡ (if is_group q group.now then without labels.now (held_at q groups.old.entries) else held_at q groups.old.entries) }
    ensures full { AreFull groups.old.entries → AreFullBut group.now groups.new.entries }
{
    if let Some(held) = groups.get_mut(group) {
        held.remove(labels);
    }
}

// The group goes where it has no members.
fn tidy(groups: &mut BTreeMap<Group, Members>, group: &Group)
    ensures members { (q : Name) → held_at q groups.new.entries ≡ held_at q groups.old.entries }
    ensures full { AreFullBut group.now groups.old.entries → AreFull groups.new.entries }
{
    if is_bare_in(groups, group) {
        groups.remove(group);
    }
}

// The alert joins one group, unless it is in it since then.
fn join_one(
    alloc: Global,
    groups: &mut BTreeMap<Group, Members>,
    group: &Group,
    labels: &LabelSet,
    since: Moment,
) -> Result<(), AllocError>
    requires { IfSome (lookup (is_set labels.now) (held_at group.now groups.old.entries)) (λ held. held ≡ since) }
    ensures members { OnOk result ((q : Name) → held_at q groups.new.entries ≡ (if is_group q group.now then insert_entry labels_cmp (held_at q groups.old.entries) labels.now since else held_at q groups.old.entries)) }
    ensures full { OnOk result (AreFull groups.old.entries → AreFull groups.new.entries) }
{
    let own = group.copy()?;
    let held = groups.entry(own)?.or_insert(Members::new(alloc));
    held.add(labels, since)
}
