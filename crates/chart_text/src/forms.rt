//! The forms of a chart: what the tokens of a line say.

ghost use Rattle.std.specs.Prelude.{◌≡◌, length, IfOk, IfSome, option_map, ◌++◌};
ghost use Rattle.chart_lines.specs.TokensWords.NumberReading.{numbers_of};
ghost use Rattle.chart_lines.specs.TokensWords.Texts.{texts};
ghost use Rattle.chart_text.specs.HelperForms.{sign_of, total_mark_of, option_of, kind_of, stops_of, field_kind_of, field_of, control_of, print_of, head_of, detail_literal_of, detail_field_of, detail_of, total_literal_of, total_amount_of, total_field_of, total_statement, coupled_of, said_coupled, said_of, spacing_of, space_of, follower_of, after_of, form_of, tape_of, said_after, statement_of};

use crate::words::{
    Keyword, read_control_level, read_heading_line, read_keyword, read_level, read_literal,
    read_mark, read_name, read_spacing_lines,
};
use chart_lines::charts::{
    After, BodyLine, DetailOption, Field, FieldKind, Literal, MAX_STOPS, Mark, Printing, SignRule,
    Statement, Stops, TotalLine, Version,
};
use chart_lines::tokens::{is, read_number};
use std::alloc::{AllocError, Global};

/// What a line of a chart says.
#[derive(Drop)]
pub struct Said {
    /// What it says in both versions.
    pub statement: Statement,
    /// Whether it is a total that bears the word COUPLED, which version 2 has.
    pub coupled: bool,
}

/// What the tokens of a line say in a version, or `None` where they are no form of it.
#[tactic(auto, unfolding(crate::specs::HelperForms::said_of))]
pub(crate) fn read_said(
    alloc: Global,
    version: Version,
    tokens: &[&[u8]],
) -> Result<Option<Said>, AllocError>
    ensures { IfOk result (λ said. said ≡ said_of version (texts tokens.now)) }
{
    match read_statement(alloc, tokens)? {
        Some(statement) => Ok(Some(Said {
            statement,
            coupled: false,
        })),
        None => Ok(read_said_coupled(version, tokens)),
    }
}

/// What the tokens of a line say that are no form of both versions.
fn read_said_coupled(version: Version, tokens: &[&[u8]]) -> Option<Said>
    ensures { result ≡ said_coupled version (texts tokens.now) }
{
    match version {
        Version::First => None,
        Version::Second => {
            let statement = read_coupled(tokens)?;
            Some(Said {
                statement,
                coupled: true,
            })
        }
    }
}

/// `TOTAL l w name g COUPLED` with or without a mark: what it says but for the word.
#[tactic(auto, unfolding(crate::specs::HelperForms::coupled_of))]
fn read_coupled(tokens: &[&[u8]]) -> Option<Statement>
    ensures { result ≡ coupled_of (texts tokens.now) }
{
    match tokens {
        [total, level, wheel, name, digits, word, mark @ ..]
            if is(total, b"TOTAL") && is(word, b"COUPLED") => {
            read_total_amount(level, wheel, name, digits, mark)
        }
        _ => None,
    }
}

/// What the tokens of a line say in both versions, or `None` where they are no form.
#[tactic(auto, unfolding(crate::specs::HelperForms::statement_of))]
fn read_statement(alloc: Global, tokens: &[&[u8]]) -> Result<Option<Statement>, AllocError>
    ensures { IfOk result (λ statement. statement ≡ statement_of (texts tokens.now)) }
{
    let [word, operands @ ..] = tokens else {
        return Ok(None);
    };
    match read_keyword(word) {
        Some(keyword) => read_operands(alloc, keyword, operands),
        None => Ok(None),
    }
}

/// What the tokens after a word say.
fn read_operands(
    alloc: Global,
    keyword: Keyword,
    operands: &[&[u8]],
) -> Result<Option<Statement>, AllocError>
    ensures { IfOk result (λ statement. statement ≡ said_after keyword (texts operands.now)) }
{
    match keyword {
        Keyword::Field => Ok(read_field(operands)),
        Keyword::Control => Ok(read_control(operands)),
        Keyword::Print => Ok(read_print(operands)),
        Keyword::Head => read_head(alloc, operands),
        Keyword::Detail => read_detail(alloc, operands),
        Keyword::Total => read_total(alloc, operands),
        Keyword::Space => Ok(read_space(operands)),
        Keyword::After => Ok(read_after(operands)),
        Keyword::Form => Ok(read_form(operands)),
        Keyword::Tape => read_tape(alloc, operands),
    }
}

/// `FIELD name TEXT a b`, or `FIELD name AMOUNT a b d` with or without a sign rule.
#[tactic(auto, unfolding(crate::specs::HelperForms::field_of))]
fn read_field(operands: &[&[u8]]) -> Option<Statement>
    ensures { result ≡ field_of (texts operands.now) }
{
    let [name, kind, first, last, others @ ..] = operands else {
        return None;
    };
    let name = read_name(name)?;
    let first = read_number(first)?;
    let last = read_number(last)?;
    let kind = read_field_kind(kind, others)?;
    Some(Statement::Field(Field {
        name,
        first,
        last,
        kind,
    }))
}

/// What the columns of a field hold.
#[tactic(auto, unfolding(crate::specs::HelperForms::field_kind_of))]
fn read_field_kind(word: &[u8], operands: &[&[u8]]) -> Option<FieldKind>
    ensures { result ≡ field_kind_of word.now (texts operands.now) }
{
    match operands {
        [] if is(word, b"TEXT") => Some(FieldKind::Text),
        [decimals, sign @ ..] if is(word, b"AMOUNT") => {
            let decimals = read_number(decimals)?;
            let sign = read_sign(sign)?;
            Some(FieldKind::Amount { decimals, sign })
        }
        _ => None,
    }
}

/// The sign rule of an amount: nothing, `X c` or `NX c`.
#[tactic(auto, unfolding(crate::specs::HelperForms::sign_of))]
fn read_sign(operands: &[&[u8]]) -> Option<Option<SignRule>>
    ensures { result ≡ sign_of (texts operands.now) }
{
    match operands {
        [] => Some(None),
        [word, column] if is(word, b"X") => Some(Some(SignRule::X(read_number(column)?))),
        [word, column] if is(word, b"NX") => Some(Some(SignRule::NX(read_number(column)?))),
        _ => None,
    }
}

/// `CONTROL l name`.
#[tactic(auto, unfolding(crate::specs::HelperForms::control_of))]
fn read_control(operands: &[&[u8]]) -> Option<Statement>
    ensures { result ≡ control_of (texts operands.now) }
{
    let [level, name] = operands else {
        return None;
    };
    let level = read_control_level(level)?;
    let name = read_name(name)?;
    Some(Statement::Control { level, name })
}

/// `PRINT DETAIL` or `PRINT GROUP`.
#[tactic(auto, unfolding(crate::specs::HelperForms::print_of))]
fn read_print(operands: &[&[u8]]) -> Option<Statement>
    ensures { result ≡ print_of (texts operands.now) }
{
    match operands {
        [word] if is(word, b"DETAIL") => Some(Statement::Print(Printing::Detail)),
        [word] if is(word, b"GROUP") => Some(Statement::Print(Printing::Group)),
        _ => None,
    }
}

/// `HEAD h w literal`.
#[tactic(auto, unfolding(crate::specs::HelperForms::head_of))]
fn read_head(alloc: Global, operands: &[&[u8]]) -> Result<Option<Statement>, AllocError>
    ensures { IfOk result (λ statement. statement ≡ head_of (texts operands.now)) }
{
    let [line, wheel, literal] = operands else {
        return Ok(None);
    };
    let literal = read_literal(alloc, literal)?;
    match (read_heading_line(line), read_number(wheel), literal) {
        (Some(line), Some(wheel), Some(literal)) => {
            Ok(Some(Statement::Head {
                line,
                wheel,
                literal,
            }))
        }
        _ => Ok(None),
    }
}

/// `DETAIL w literal`, or `DETAIL w name` with or without an option.
#[tactic(auto, unfolding(crate::specs::HelperForms::detail_of))]
fn read_detail(alloc: Global, operands: &[&[u8]]) -> Result<Option<Statement>, AllocError>
    ensures { IfOk result (λ statement. statement ≡ detail_of (texts operands.now)) }
{
    let [wheel, item, others @ ..] = operands else {
        return Ok(None);
    };
    match read_literal(alloc, item)? {
        Some(literal) => Ok(read_detail_literal(wheel, literal, others)),
        None => Ok(read_detail_field(wheel, item, others)),
    }
}

/// A literal on the line of a card.
#[tactic(auto, unfolding(crate::specs::HelperForms::detail_literal_of))]
fn read_detail_literal(wheel: &[u8], literal: Literal, others: &[&[u8]]) -> Option<Statement>
    ensures { result ≡ detail_literal_of wheel.now literal (texts others.now) }
{
    match others {
        [] => {
            let wheel = read_number(wheel)?;
            Some(Statement::DetailLiteral { wheel, literal })
        }
        _ => None,
    }
}

/// A field on the line of a card.
#[tactic(auto, unfolding(crate::specs::HelperForms::detail_field_of))]
fn read_detail_field(wheel: &[u8], name: &[u8], others: &[&[u8]]) -> Option<Statement>
    ensures { result ≡ detail_field_of wheel.now name.now (texts others.now) }
{
    let wheel = read_number(wheel)?;
    let name = read_name(name)?;
    let shown = read_option(others)?;
    Some(Statement::DetailField { wheel, name, shown })
}

/// How a field stands on the line of a card: nothing, `INDICATE l` or `MARK m`.
#[tactic(auto, unfolding(crate::specs::HelperForms::option_of))]
fn read_option(operands: &[&[u8]]) -> Option<DetailOption>
    ensures { result ≡ option_of (texts operands.now) }
{
    match operands {
        [] => Some(DetailOption::Plain),
        [word, level] if is(word, b"INDICATE") => {
            Some(DetailOption::Indicated(read_control_level(level)?))
        }
        [word, mark] if is(word, b"MARK") => Some(DetailOption::Marked(read_mark(mark)?)),
        _ => None,
    }
}

/// `TOTAL l w literal`, `TOTAL l w name`, or `TOTAL l w name g` with or without a mark.
#[tactic(auto, unfolding(crate::specs::HelperForms::total_statement))]
fn read_total(alloc: Global, operands: &[&[u8]]) -> Result<Option<Statement>, AllocError>
    ensures { IfOk result (λ statement. statement ≡ total_statement (texts operands.now)) }
{
    let [level, wheel, item, others @ ..] = operands else {
        return Ok(None);
    };
    match read_literal(alloc, item)? {
        Some(literal) => Ok(read_total_literal(level, wheel, literal, others)),
        None => Ok(read_total_field(level, wheel, item, others)),
    }
}

/// A literal on a total line.
#[tactic(auto, unfolding(crate::specs::HelperForms::total_literal_of))]
fn read_total_literal(
    level: &[u8],
    wheel: &[u8],
    literal: Literal,
    others: &[&[u8]],
) -> Option<Statement>
    ensures { result ≡ total_literal_of level.now wheel.now literal (texts others.now) }
{
    match others {
        [] => {
            let level = read_level(level)?;
            let wheel = read_number(wheel)?;
            Some(Statement::TotalLiteral {
                level,
                wheel,
                literal,
            })
        }
        _ => None,
    }
}

/// A control field's text or a total on a total line.
#[tactic(auto, unfolding(crate::specs::HelperForms::total_field_of))]
fn read_total_field(level: &[u8], wheel: &[u8], name: &[u8], others: &[&[u8]]) -> Option<Statement>
    ensures { result ≡ total_field_of level.now wheel.now name.now (texts others.now) }
{
    match others {
        [] => {
            let level = read_level(level)?;
            let wheel = read_number(wheel)?;
            let name = read_name(name)?;
            Some(Statement::TotalText { level, wheel, name })
        }
        [digits, mark @ ..] => read_total_amount(level, wheel, name, digits, mark),
    }
}

/// A total on a total line.
#[tactic(auto, unfolding(crate::specs::HelperForms::total_amount_of))]
fn read_total_amount(
    level: &[u8],
    wheel: &[u8],
    name: &[u8],
    digits: &[u8],
    mark: &[&[u8]],
) -> Option<Statement>
    ensures { result ≡ total_amount_of level.now wheel.now name.now digits.now (texts mark.now) }
{
    let level = read_level(level)?;
    let wheel = read_number(wheel)?;
    let name = read_name(name)?;
    let digits = read_number(digits)?;
    let mark = read_total_mark(mark)?;
    Some(Statement::TotalAmount(TotalLine {
        level,
        wheel,
        name,
        digits,
        mark,
    }))
}

/// The mark of a total: nothing, or `MARK m`.
#[tactic(auto, unfolding(crate::specs::HelperForms::total_mark_of))]
fn read_total_mark(operands: &[&[u8]]) -> Option<Option<Mark>>
    ensures { result ≡ total_mark_of (texts operands.now) }
{
    match operands {
        [] => Some(None),
        [word, mark] if is(word, b"MARK") => Some(Some(read_mark(mark)?)),
        _ => None,
    }
}

/// The kind of body line that tokens begin with, `DETAIL` or `TOTAL l`, and the tokens after it.
#[tactic(auto, unfolding(crate::specs::HelperForms::kind_of))]
fn read_kind<'a, 'b>(operands: &'b [&'a [u8]]) -> Option<(BodyLine, &'b [&'a [u8]])>
    ensures { option_map (λ kind. (kind.0, texts kind.1.now)) result ≡ kind_of (texts operands.now) }
{
    match operands {
        [word, others @ ..] if is(word, b"DETAIL") => Some((BodyLine::Detail, others)),
        [word, level, others @ ..] if is(word, b"TOTAL") => {
            Some((BodyLine::Total(read_level(level)?), others))
        }
        _ => None,
    }
}

/// `SPACE kind n`.
#[tactic(auto, unfolding(crate::specs::HelperForms::space_of))]
fn read_space(operands: &[&[u8]]) -> Option<Statement>
    ensures { result ≡ space_of (texts operands.now) }
{
    let (line, others) = read_kind(operands)?;
    read_spacing(line, others)
}

/// The spacing of a kind of line.
#[tactic(auto, unfolding(crate::specs::HelperForms::spacing_of))]
fn read_spacing(line: BodyLine, operands: &[&[u8]]) -> Option<Statement>
    ensures { result ≡ spacing_of line (texts operands.now) }
{
    match operands {
        [count] => {
            let spacing = read_spacing_lines(count)?;
            Some(Statement::Space { line, spacing })
        }
        _ => None,
    }
}

/// `AFTER kind PAGE` or `AFTER kind SKIP c`.
#[tactic(auto, unfolding(crate::specs::HelperForms::after_of))]
fn read_after(operands: &[&[u8]]) -> Option<Statement>
    ensures { result ≡ after_of (texts operands.now) }
{
    let (line, others) = read_kind(operands)?;
    read_follower(line, others)
}

/// What follows a kind of line.
#[tactic(auto, unfolding(crate::specs::HelperForms::follower_of))]
fn read_follower(line: BodyLine, operands: &[&[u8]]) -> Option<Statement>
    ensures { result ≡ follower_of line (texts operands.now) }
{
    match operands {
        [word] if is(word, b"PAGE") => {
            let action = After::Page;
            Some(Statement::After { line, action })
        }
        [word, channel] if is(word, b"SKIP") => {
            let action = After::Skip(read_number(channel)?);
            Some(Statement::After { line, action })
        }
        _ => None,
    }
}

/// `FORM P T O`.
#[tactic(auto, unfolding(crate::specs::HelperForms::form_of))]
fn read_form(operands: &[&[u8]]) -> Option<Statement>
    ensures { result ≡ form_of (texts operands.now) }
{
    let [lines, first, overflow] = operands else {
        return None;
    };
    let lines = read_number(lines)?;
    let first = read_number(first)?;
    let overflow = read_number(overflow)?;
    Some(Statement::Form {
        lines,
        first,
        overflow,
    })
}

/// `TAPE c n1 n2 ..`.
#[tactic(auto, unfolding(crate::specs::HelperForms::tape_of))]
fn read_tape(alloc: Global, operands: &[&[u8]]) -> Result<Option<Statement>, AllocError>
    ensures { IfOk result (λ statement. statement ≡ tape_of (texts operands.now)) }
{
    let [channel, stops @ ..] = operands else {
        return Ok(None);
    };
    let stops = read_stops(alloc, stops)?;
    match (read_number(channel), stops) {
        (Some(channel), Some(stops)) => Ok(Some(Statement::Tape { channel, stops })),
        _ => Ok(None),
    }
}

/// The 1 to 10 stops of a channel.
#[tactic(auto, unfolding(crate::specs::HelperForms::stops_of))]
fn read_stops(alloc: Global, tokens: &[&[u8]]) -> Result<Option<Stops>, AllocError>
    ensures { IfOk result (λ stops. stops ≡ stops_of (texts tokens.now)) }
{
    if tokens.is_empty() || tokens.len() > MAX_STOPS {
        return Ok(None);
    }
    Ok(read_numbers(alloc, tokens)?.map(Stops::from_vec))
}

/// The numbers that tokens are, or `None` where one is no number.
fn read_numbers(alloc: Global, tokens: &[&[u8]]) -> Result<Option<Vec<u16>>, AllocError>
    ensures value { IfOk result (λ numbers. option_map (λ v. v.items) numbers ≡ numbers_of (texts tokens.now)) }
    ensures size { IfOk result (λ numbers. IfSome numbers (λ v. length v.items ≡ length tokens.now)) }
{
    let mut numbers = Vec::new(alloc);
    for token in tokens {
        match read_number(token) {
            Some(number) => numbers.push(number)?,
            None => return Ok(None),
        }
    }
    Ok(Some(numbers))
}
