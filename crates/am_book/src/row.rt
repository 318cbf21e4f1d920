ghost use Rattle.std.specs.Prelude.{◌≡◌, Some, refl};
ghost use Rattle.std.specs.Cmp.{partial_equiv_from_equiv, eq_by_cmp_equiv, po};
ghost use Rattle.std.specs.Ordering.{eq_by_cmp};

use am_item::{Stamp, ThingKey};
use am_tenant::TenantName;
use am_text::Moment;
use std::cmp::Ordering;

// When the item of a tenant's key retires, and its stamp.
#[derive(Drop)]
pub struct Row {
    pub retires_at: Moment,
    pub stamp: Stamp,
    pub tenant: TenantName,
    pub key: ThingKey,
}

impl PartialEq for Row {
    ghost use Rattle.am_book.specs.Row.{row_cmp, rows_total};

    ghost eq = { eq_by_cmp row_cmp };

    ghost laws = { partial_equiv_from_equiv (eq_by_cmp_equiv rows_total) };

    fn eq(&self, other: &Row) -> bool {
        self.cmp(other).is_eq()
    }
}

impl Eq for Row {
    ghost use Rattle.am_book.specs.Row.{rows_total};

    ghost laws = { eq_by_cmp_equiv rows_total };
}

impl PartialOrd for Row {
    ghost use Rattle.am_book.specs.Row.{row_cmp, rows_total};

    ghost partial_cmp = { λ a b. Some (row_cmp a b) };

    ghost laws = { po rows_total (λ _ _. refl) };

    fn partial_cmp(&self, other: &Row) -> Option<Ordering> {
        Some(self.cmp(other))
    }
}

// By moment of retirement, then stamp, then tenant, then key. Rows of two keys mostly differ in the stamp, so the names
// are seldom compared.
impl Ord for Row {
    ghost use Rattle.am_book.specs.Row.{row_cmp, rows_total};

    ghost cmp = { row_cmp };

    ghost total = { rows_total };

    ghost matches_partial_cmp = { λ a b. refl };

    ghost matches_eq = { λ a b. refl };

    #[tactic(auto, unfolding(crate::specs::Row::row_cmp, am_item::specs::Stamp::stamp_cmp))]
    fn cmp(&self, other: &Row) -> Ordering {
        let by_time = self
            .retires_at
            .cmp(&other.retires_at)
            .then(self.stamp.cmp(&other.stamp));
        match by_time {
            Ordering::Equal => self
                .tenant
                .cmp(&other.tenant)
                .then(self.key.cmp(&other.key)),
            _ => by_time,
        }
    }
}
