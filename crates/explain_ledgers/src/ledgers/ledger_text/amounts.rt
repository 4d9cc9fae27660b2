//! Numbers as a ledger has them.

ghost use Rattle.std.specs.Prelude.{◌≡◌, ◌++◌, OnOk};
ghost use Rattle.explain_ledgers.specs.LedgersWords.LedgerText.Amounts.{amount_text, balance_text, digits_text, whole_part};

use std::io;
use std::io::Write;

/// Puts behind a text the last so many digits of a number. Fails only if no memory is left.
pub fn write_digits(text: &mut Vec<u8>, width: u32, number: u128) -> io::Result<()>
    ensures { OnOk result (text.new.items ≡ text.old.items ++ digits_text width number) }
{
    if width == 0 {
        return Ok(());
    }
    write_digits(text, width - 1, number / 10)?;
    text.push(b'0' + (number % 10) as u8)?;
    Ok(())
}

// A number without its last so many digits.
fn whole_part(decimals: u32, number: u128) -> u128
    ensures { result ≡ whole_part decimals number }
{
    if decimals == 0 {
        return number;
    }
    whole_part(decimals - 1, number / 10)
}

/// Puts behind a text an amount with so many decimals: 4795 with two is `47.95`. Fails only if no memory is left.
pub fn write_amount(text: &mut Vec<u8>, decimals: u32, number: u128) -> io::Result<()>
    ensures { OnOk result (text.new.items ≡ text.old.items ++ amount_text decimals number) }
{
    let whole = whole_part(decimals, number);
    write!(text, "{whole}")?;
    if decimals == 0 {
        return Ok(());
    }
    text.write_all(b".")?;
    write_digits(text, decimals, number)
}

// What was added, less what was subtracted, as an amount.
pub(crate) fn write_balance(
    text: &mut Vec<u8>,
    decimals: u32,
    plus: u128,
    minus: u128,
) -> io::Result<()>
    ensures { OnOk result (text.new.items ≡ text.old.items ++ balance_text decimals plus minus) }
{
    if minus <= plus {
        return write_amount(text, decimals, plus - minus);
    }
    text.write_all(b"-")?;
    write_amount(text, decimals, minus - plus)
}
