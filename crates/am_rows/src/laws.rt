//! How rows go with what an instance holds: laws, which no program needs to call.

ghost use Rattle.std.specs.Prelude.{◌≡◌, List, filter, not};
ghost use Rattle.am_item.specs.Best.{IsRising, all_joined};
ghost use Rattle.am_item.specs.Key.{Key, has_key};
ghost use Rattle.am_item.specs.declared.item.Item.{Item};
ghost use Rattle.am_rows.specs.Rows.{put_rows, stored_in, without_key};

/// What is put where what is held is stored is what is held then.
pub fn rows_follow()
    ensures put { (held items : List Item) → IsRising held → put_rows items (stored_in held)
        ≡ stored_in (all_joined held items) }
    ensures dropped { (key : Key) (held : List Item) → without_key key (stored_in held)
        ≡ stored_in (filter (λ item. not (has_key key item)) held) }
{}
