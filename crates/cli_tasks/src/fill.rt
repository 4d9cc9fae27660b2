//! What a text is folded with.

ghost use Rattle.std.specs.Prelude.{◌≡◌, [], ◌∷◌, IfNone, IfSome, IsSome};
ghost use Rattle.card_code.specs.CardCode.{rows_of};
ghost use Rattle.cli_tasks.specs.Words.{IsNoFill};

use card_code::Column;
use std::marker::Model;

/// A character that a card has. It takes the place of a byte that no card has, where a text is folded.
#[derive(Clone, Copy, Debug)]
pub struct Fill {
    character: u8,
}

impl Model for Fill {
    ghost use Rattle.std.specs.Prelude.{ℕ, IsSome};
    ghost use Rattle.card_code.specs.CardCode.{rows_of};

    ghost Value = { ℕ };

    ghost view = { λ fill. fill.character };

    ghost invariant = { λ fill. IsSome (rows_of fill.character) };

    ghost inverse = { λ character. record { character = character } };
}

impl Fill {
    /// The character of a word that has no other, or `None` where a card has no such character.
    pub fn named(word: &str) -> Option<Fill>
        ensures named { IfSome result (λ fill. word.now ≡ fill ∷ []) }
        ensures none { IfNone result (IsNoFill word.now) }
    {
        match word.as_bytes() {
            [byte] if Column::of_char(char::from(*byte)).is_some() => Some(Fill {
                character: *byte,
            }),
            _ => None,
        }
    }

    /// The character.
    pub fn character(self) -> u8
        ensures same { result ≡ self }
        ensures on_cards { IsSome (rows_of result) }
    {
        self.character
    }
}
