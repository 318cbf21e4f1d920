//! What drafts are: laws, which no program needs to call.

ghost use Rattle.std.specs.Prelude.{◌≡◌, ℕ, List, Ok, true};
ghost use Rattle.am_draft.specs.declared.draft.Draft.{Draft};
ghost use Rattle.am_draft.specs.Drafts.{draft_in, posted, root_has_receiver};
ghost use Rattle.am_draft.specs.Forests.{forest_of};
ghost use Rattle.am_draft.specs.declared.route.RouteDraft.{RouteDraft};
ghost use Rattle.am_draft.specs.LabelNames.{ListsLabelNames};
ghost use Rattle.am_text.specs.Trees.{Forest, IsTree, flat};

/// The routes of every draft are the flat list of one whole tree.
pub fn routes_are_a_tree()
    ensures text { (text : List ℕ) (draft : Draft) → draft_in text ≡ Ok draft → IsTree draft.routes }
    ensures document { (document : List ℕ) (draft : Draft) → posted document ≡ Ok draft → IsTree draft.routes }
{}

/// The root of every draft names a receiver.
pub fn roots_have_receivers()
    ensures text { (text : List ℕ) (draft : Draft) → draft_in text ≡ Ok draft → root_has_receiver draft.routes ≡ true }
    ensures document { (document : List ℕ) (draft : Draft) → posted document ≡ Ok draft →
        root_has_receiver draft.routes ≡ true }
{}

/// What `group_by` and `equal` list in every draft are label names.
pub fn labels_are_named()
    ensures text { (text : List ℕ) (draft : Draft) → draft_in text ≡ Ok draft → ListsLabelNames draft }
    ensures document { (document : List ℕ) (draft : Draft) → posted document ≡ Ok draft → ListsLabelNames draft }
{}

/// Every forest is the one that its flat list holds, so no list holds two.
pub fn a_flat_list_holds_one_forest()
    ensures { (forest : Forest RouteDraft) → forest_of (flat forest) ≡ forest }
{}

/// A draft's text is the one that it was read of.
pub fn texts_are_kept()
    ensures { (text : List ℕ) (draft : Draft) → draft_in text ≡ Ok draft → draft.text ≡ text }
{}
