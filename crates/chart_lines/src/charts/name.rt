//! The names of fields.

ghost use Rattle.std.specs.Prelude.{◌≡◌, ◌≤◌, ◌==◌, length};
ghost use Rattle.std.specs.List.{position_or_len};

use std::marker::Model;

/// The name of a field: a letter A to Z and up to 7 letters or digits, by value.
///
/// Contracts see a name as its 8 characters, filled with blanks.
#[derive(Clone, Copy, Debug, PartialEq, Eq, Hash)]
pub struct Name {
    characters: [u8; 8],
}

impl Model for Name {
    ghost use Rattle.std.specs.Prelude.{List, ℕ};
    ghost use Rattle.chart_lines.specs.ChartsWords.Name.{HasShape};

    ghost Value = { List ℕ };

    ghost view = { λ name. name.characters };

    ghost invariant = { λ name. HasShape name.characters };

    ghost inverse = { λ characters. record { characters = characters } };
}

impl Name {
    ghost use Rattle.std.specs.Prelude.{◌≡◌};
    ghost use Rattle.chart_lines.specs.ChartsWords.Name.{HasShape, is_same_name, name_text};

    /// The name of these 8 characters.
    pub fn from_characters(characters: [u8; 8]) -> Name
        requires { HasShape characters }
        ensures { result ≡ characters }
    {
        Name { characters }
    }

    /// Its 8 characters, the blanks that fill it among them.
    pub fn characters(self) -> [u8; 8]
        ensures { result ≡ self }
    {
        self.characters
    }

    /// Whether the two names are the same.
    pub fn is(self, other: Name) -> bool
        ensures { result ≡ is_same_name self other }
    {
        self == other
    }

    /// Its letters and digits, without the blanks that fill it.
    pub fn as_bytes(&self) -> &[u8]
        ensures { result.now ≡ name_text self.now }
    {
        let length = length_before_blank(&self.characters);
        &self.characters[..length]
    }
}

/// How many characters stand before the first blank.
fn length_before_blank(characters: &[u8]) -> usize
    ensures value { result ≡ position_or_len (λ character. character == 32) characters.now }
    ensures within { result ≤ length characters.now }
{
    characters
        .iter()
        .position(|character| *character == b' ')
        .unwrap_or(characters.len())
}
