ghost use Rattle.std.specs.Prelude.{◌≡◌, IfOk};

use am_labels::LabelSet;
use am_text::Listed;
use std::alloc::{AllocError, Global};

/// The name of a group of alerts: a route, and the labels that the route groups its members by.
///
/// Groups are ordered by their routes, then by their labels.
#[derive(PartialEq, Eq, PartialOrd, Ord, Drop)]
pub struct Group {
    /// The number of the route.
    pub route: usize,
    /// The labels that the members have in common.
    pub labels: LabelSet,
}

impl Group {
    /// A copy of the name.
    pub fn copy(&self) -> Result<Group, AllocError>
        ensures { IfOk result (λ group. group ≡ self.now) }
    {
        Ok(Group {
            route: self.route,
            labels: self.labels.copy()?,
        })
    }
}

/// A copy of the names of groups.
pub fn copy_groups(alloc: Global, groups: &[Group]) -> Result<Listed<Group>, AllocError>
    ensures { IfOk result (λ copy. copy ≡ groups.now) }
{
    let mut copies = Vec::with_capacity(alloc, groups.len())?;
    for group in groups {
        copies.push(group.copy()?)?;
    }
    Ok(Listed::from_vec(copies))
}
