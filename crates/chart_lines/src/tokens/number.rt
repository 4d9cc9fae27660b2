//! The numbers that tokens are.

ghost use Rattle.std.specs.Prelude.{◌≡◌, ◌+◌, ◌-◌, ◌*◌, ◌<◌, ◌≤◌, ℕ, IfSome, IfNone};
ghost use Rattle.chart_lines.specs.TokensWords.Number.{IsNumber, IsNumberTo};
ghost use Rattle.chart_lines.specs.TokensWords.NumberReading.{digit_of, number_of, number_to};

/// The digit of a byte.
fn read_digit(byte: u8) -> Option<u16>
    ensures value { result ≡ digit_of byte }
    ensures small { IfSome result (λ digit. digit < 10) }
{
    if byte.is_ascii_digit() {
        Some(u16::from(byte - b'0'))
    } else {
        None
    }
}

/// The number that a token is, 0 to 999: `0`, or 1 to 3 digits of which the first is no 0. `None` for any
/// other token.
pub fn read_number(token: &[u8]) -> Option<u16>
    ensures value { result ≡ number_of token.now }
    ensures number { IfSome result (λ number. IsNumber token.now number) }
    ensures no_number { IfNone result ((number : ℕ) → ¬ IsNumber token.now number) }
    ensures small { IfSome result (λ number. number < 1000) }
{
    read_digits(token)
}

/// The number that a token is.
#[tactic(auto, unfolding(crate::specs::TokensWords::NumberReading::number_of))]
fn read_digits(token: &[u8]) -> Option<u16>
    ensures value { result ≡ number_of token.now }
    ensures small { IfSome result (λ number. number < 1000) }
{
    match token {
        [only] => read_digit(*only),
        [b'0', ..] => None,
        [tens, units] => Some(10 * read_digit(*tens)? + read_digit(*units)?),
        [hundreds, tens, units] => {
            Some(100 * read_digit(*hundreds)? + 10 * read_digit(*tens)? + read_digit(*units)?)
        }
        _ => None,
    }
}

/// The number that a token is, where it is one of 1 to the greatest. `None` for any other token.
pub fn read_number_to(greatest: u8, token: &[u8]) -> Option<u8>
    ensures value { result ≡ number_to greatest token.now }
    ensures number { IfSome result (λ number. IsNumberTo greatest token.now number) }
    ensures no_number { IfNone result ((number : ℕ) → ¬ IsNumberTo greatest token.now number) }
{
    read_digits_to(greatest, token)
}

/// The number that a token is, where it is one of 1 to the greatest.
#[tactic(auto, unfolding(crate::specs::TokensWords::NumberReading::number_to))]
fn read_digits_to(greatest: u8, token: &[u8]) -> Option<u8>
    ensures { result ≡ number_to greatest token.now }
{
    let number = read_digits(token)?;
    if 1 <= number && number <= u16::from(greatest) {
        Some(number as u8)
    } else {
        None
    }
}
