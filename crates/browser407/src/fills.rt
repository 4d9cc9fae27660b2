//! The character that a page names.

ghost use Rattle.std.specs.Prelude.{◌≡◌, [], ◌∷◌, IfNone, IfSome};
ghost use Rattle.cli_tasks.specs.Words.{IsNoFill};

use cli_tasks::Fill;

/// The character that these bytes are, or `None` where they are no character of a card.
pub fn fill_of(word: &[u8]) -> Option<Fill>
    ensures named { IfSome result (λ fill. word.now ≡ fill ∷ []) }
    ensures none { IfNone result (IsNoFill word.now) }
{
    match str::from_utf8(word) {
        Ok(word) => Fill::named(word),
        Err(_) => None,
    }
}
