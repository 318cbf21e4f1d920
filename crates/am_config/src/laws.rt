//! What a configuration says: laws, which no program needs to call.

ghost use Rattle.std.specs.Prelude.{◌≡◌, ℕ, List, Ok};
ghost use Rattle.am_text.specs.Trees.{Forest, flat};
ghost use Rattle.am_draft.specs.Drafts.{draft_in, posted};
ghost use Rattle.am_draft.specs.declared.draft.Draft.{Draft};
ghost use Rattle.am_config.specs.declared.terms.Own.{Own};
ghost use Rattle.am_config.specs.Configuration.{Configuration};
ghost use Rattle.am_config.specs.Configured.{IsConfiguration};
ghost use Rattle.am_config.specs.Default.{default_configuration, default_text};
ghost use Rattle.am_config.specs.Inheriting.{InheritsFrom, defaults, inherited, settings_of};
ghost use Rattle.am_config.specs.Judging.{configuration, reading};

/// What holds for the routes of a flat list is what they inherit in the tree that it holds.
pub fn routes_inherit()
    ensures { (forest : Forest Own) → settings_of (flat forest) ≡ inherited 0 defaults forest }
{}

/// The routes of every configuration have what they inherit in the tree of routes of its draft.
pub fn configurations_inherit()
    ensures text { (text : List ℕ) (c : Configuration) → configuration (draft_in text) ≡ Ok c →
        (draft : Draft) × ((draft_in text ≡ Ok draft) × InheritsFrom c draft) }
    ensures document { (document : List ℕ) (c : Configuration) → configuration (posted document) ≡ Ok c →
        (draft : Draft) × ((posted document ≡ Ok draft) × InheritsFrom c draft) }
{}

/// Each configuration that a text or a document means is an `IsConfiguration`.
pub fn meanings_are_configurations()
    ensures text { (text : List ℕ) (c : Configuration) → configuration (draft_in text) ≡ Ok c → IsConfiguration c }
    ensures document { (document : List ℕ) (c : Configuration) → configuration (posted document) ≡ Ok c → IsConfiguration c }
{}

/// The default configuration is what its text means.
pub fn default_text_is_read()
    ensures { configuration (draft_in default_text) ≡ Ok default_configuration }
{}

/// A text or a document that is read by the grammars alone means the configuration that is read.
pub fn readings_are_meant()
    ensures text { (text : List ℕ) (c : Configuration) → reading (draft_in text) ≡ Ok c → configuration (draft_in text) ≡ Ok c }
    ensures document { (document : List ℕ) (c : Configuration) → reading (posted document) ≡ Ok c → configuration (posted document) ≡ Ok c }
{}
