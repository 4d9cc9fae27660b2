//! Laws of the page.

ghost use Rattle.std.specs.Prelude.{◌≡◌, ℕ, List, [], true};
ghost use Rattle.show_sections.specs.CycleSections.Sections.{is_quiet};
ghost use Rattle.explain_words.specs.TracesWords.Lines.{put_behind};

/// If the page says of a cycle that it did nothing, then the trace tells nothing of it behind its name.
pub fn quiet_cycles_did_nothing()
    ensures { (name told : List ℕ) → is_quiet (put_behind name told) ≡ true → told ≡ [] }
{}
