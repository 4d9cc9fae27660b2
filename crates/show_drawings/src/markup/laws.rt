//! The law of escaping.

ghost use Rattle.std.specs.Prelude.{◌≡◌, ℕ, List};
ghost use Rattle.std.specs.List.{All};
ghost use Rattle.show_drawings.specs.MarkupWords.Escapes.{IsByte, IsWritable, escaped, unescaped};

/// What is escaped reads back as it was, and all that is written of it is printable, a line feed, or the beginning of an entity. The
/// function does nothing: its contract is the law.
pub fn escaped_texts_read_back()
    ensures back { (words : List ℕ) → All IsByte words → unescaped (escaped words) ≡ words }
    ensures writable { (words : List ℕ) → All IsByte words → All IsWritable (escaped words) }
{}
