//! What retirement makes of a list of items and of its best: a law, which no program needs to call.
ghost use Rattle.std.specs.Prelude.{◌≡◌, ℕ, List, filter, not};
ghost use Rattle.am_book.specs.Retired.{unretired};
ghost use Rattle.am_item.specs.Best.{best};
ghost use Rattle.am_item.specs.Retirement.{is_retired};
ghost use Rattle.am_item.specs.declared.item.Item.{Item};

/// Where every key goes from a list whose best item is retired, what is left of the best is the best of what is left.
pub fn dropping_what_is_retired()
    ensures { (moment : ℕ) (xs : List Item) → filter (λ item. not (is_retired moment item)) (best xs) ≡ best (unretired moment xs) }
{}
