//! Reading the names of hubs.

ghost use Rattle.std.specs.Prelude.{◌≡◌, ◌≢◌, ◌<◌, ◌∷◌, ℕ, length, slice_index, IfSome, IfNone};
ghost use Rattle.std.specs.List.{slice_split};
ghost use Rattle.wiring_text.specs.WiringReader.Reading.{is_point, letters_spelled, numbers_from_three, pieces_after, numbers_spelled, name_spelled};

use crate::HubName;
use chart_lines::tokens::read_number;
use hubs::hub_table::{Letters, Numbers};

/// The hub name that a token is: letters of the hub table, and as many numbers as hubs of these letters have, a point before
/// each. `None` for any other token.
#[tactic(auto, unfolding(crate::specs::WiringReader::Reading::name_spelled))]
pub(crate) fn read_hub_name(token: &[u8]) -> Option<HubName>
    ensures { result ≡ name_spelled token.now }
{
    let (spelled, after) = cut_at_point(token);
    let letters = read_letters(spelled)?;
    let numbers = read_numbers(after)?;
    if letters.shape().has_as_many(numbers) {
        Some(HubName { letters, numbers })
    } else {
        None
    }
}

/// The numbers of a token that a hub's letters and a point may stand before.
pub(crate) fn read_group(token: &[u8]) -> Option<Numbers>
    ensures { result ≡ numbers_spelled (slice_split is_point token.now) }
{
    read_numbers(Some(token))
}

/// The letters that are spelled so.
fn read_letters(spelled: &[u8]) -> Option<Letters>
    ensures { result ≡ letters_spelled spelled.now }
{
    Letters::of_spelled(spelled)
}

/// The numbers of a hub, after its first point, if it has one.
fn read_numbers(after: Option<&[u8]>) -> Option<Numbers>
    ensures { result ≡ numbers_spelled (pieces_after after.entry) }
{
    let Some(rest) = after else {
        return Some(Numbers::Bare);
    };
    let (first, after) = cut_at_point(rest);
    let first = read_number(first)?;
    let Some(rest) = after else {
        return Some(Numbers::One(first));
    };
    let (second, after) = cut_at_point(rest);
    let second = read_number(second)?;
    let Some(rest) = after else {
        return Some(Numbers::Two(first, second));
    };
    let (third, after) = cut_at_point(rest);
    three_numbers(first, second, read_number(third)?, after)
}

/// Three numbers, where nothing stands after them.
fn three_numbers(first: u16, second: u16, third: u16, after: Option<&[u8]>) -> Option<Numbers>
    ensures { result ≡ numbers_from_three first second third (pieces_after after.entry) }
{
    match after {
        None => Some(Numbers::Three(first, second, third)),
        Some(_) => None,
    }
}

/// The bytes before the first point and, where there is a point, those after it.
fn cut_at_point(bytes: &[u8]) -> (&[u8], Option<&[u8]>)
    ensures { slice_split is_point bytes.now ≡ result.0.now ∷ pieces_after result.1 }
{
    match first_point(bytes) {
        Some(place) => (&bytes[..place], Some(&bytes[place + 1..])),
        None => (bytes, None),
    }
}

/// The place of the first point.
fn first_point(bytes: &[u8]) -> Option<usize>
    ensures within { IfSome result (λ place. place < length bytes.now) }
    ensures found { IfSome result (λ place. slice_index bytes.now place ≡ 46) }
    ensures before { IfSome result (λ place. (k : ℕ) → k < place → slice_index bytes.now k ≢ 46) }
    ensures none { IfNone result ((k : ℕ) → k < length bytes.now → slice_index bytes.now k ≢ 46) }
{
    bytes.iter().position(|byte| *byte == b'.')
}
