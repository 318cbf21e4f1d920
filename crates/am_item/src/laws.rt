//! What the best of a list of items is, and how items join it: laws, which no program needs to call.
ghost use Rattle.std.specs.Prelude.{◌≡◌, ◌∷◌, ◌++◌, List, Some, [], false};
ghost use Rattle.am_item.specs.declared.item.Item.{Item};
ghost use Rattle.am_item.specs.Best.{IsBestOf, IsRising, StampsTellApart, all_joined, best, item_at, joined, merged};
ghost use Rattle.am_item.specs.Key.{Key, exceeds, key_cmp, key_of};
ghost use Rattle.am_item.specs.Stamp.{stamp_cmp};
ghost use Rattle.am_item.specs.declared.stamp.Stamp.{Stamp};
ghost use Rattle.std.specs.Cmp.{IsTotalOrder};
ghost use Rattle.std.specs.declared.cmp.Ordering.TheVariants.{Equal};

/// The orders of keys and of stamps are total, and tell apart what differs.
pub fn orders()
    ensures keys { IsTotalOrder key_cmp }
    ensures one_key { (a b : Key) → key_cmp a b ≡ Equal → a ≡ b }
    ensures stamps { IsTotalOrder stamp_cmp }
    ensures one_stamp { (a b : Stamp) → stamp_cmp a b ≡ Equal → a ≡ b }
{}

/// The best of a list has for each key the item that none of that key exceeds, in the order of keys.
/// Where stamps tell the items of a key apart, no other list is that.
pub fn best_of_a_list()
    ensures best { (xs : List Item) → IsBestOf xs (best xs) }
    ensures only { (xs bs : List Item) → StampsTellApart xs → IsBestOf xs bs → bs ≡ best xs }
{}

/// One item more joins the best list. It may come again, and two items may come in either order.
pub fn joining_one_item()
    ensures one_more { (xs : List Item) (y : Item) → best (xs ++ y ∷ []) ≡ joined (best xs) y }
    ensures again { (held : List Item) (y : Item) → joined (joined held y) y ≡ joined held y }
    ensures either_order { (held : List Item) (x y : Item) → (key_of x ≡ key_of y → x.stamp ≡ y.stamp → x ≡ y) → joined (joined held x) y ≡ joined (joined held y) x }

    // Of two items with one key and one stamp the one that is held stays.
    ensures held_stays { (held : List Item) (x y : Item) → IsRising held → item_at (key_of y) held ≡ Some x → exceeds y x ≡ false → joined held y ≡ held }
{}

/// The best of two lists is had from the best of each. Joining lists commutes, associates, and changes
/// nothing when repeated.
pub fn joining_lists()
    ensures both { (xs ys : List Item) → best (xs ++ ys) ≡ merged (best xs) (best ys) }
    ensures one_by_one { (held xs : List Item) (y : Item) → merged held (xs ++ y ∷ []) ≡ joined (merged held xs) y }
    ensures one_after_the_other { (held xs : List Item) → IsRising held → all_joined held xs ≡ merged held xs }
    ensures commutes { (xs ys : List Item) → StampsTellApart (xs ++ ys) → merged xs ys ≡ merged ys xs }
    ensures associates { (xs ys zs : List Item) → merged (merged xs ys) zs ≡ merged xs (merged ys zs) }
    ensures again { (xs ys : List Item) → merged (merged xs ys) ys ≡ merged xs ys }
    ensures best_again { (xs : List Item) → best (best xs) ≡ best xs }
{}
