//! The pages of an example, explained wheel by wheel.

ghost use Rattle.std.specs.Prelude.{◌≤◌, length};
ghost use Rattle.card_code.specs.MostCards.{most_cards};
ghost use Rattle.explain_wheels.specs.ExplanationsWords.Pages.{IsPageOfSome};

use crate::walked_texts::character_at;
use crate::walked_ways::{Ground, walk};
use anyhow::{Result, bail};
use card_code::Card;
use explain_wheels::explanations::{PageWays, Refusal};
use explain_words::explanation_text::page_wheel_text;
use hubs::setups::Setup;
use std::alloc::Global;

/// What was walked: pages, lines that have a character, characters, and the ways to their wheels.
#[derive(Clone, Copy)]
pub struct Walked {
    pub pages: u32,
    pub lines: u32,
    pub characters: u32,
    pub ways: u32,
}

/// Explains each wheel of each line of some pages, and walks the explanations. A form feed ends each page, a line feed each line.
pub fn explain_pages(
    alloc: Global,
    setup: &Setup,
    asked: &[(String, Setup)],
    cards: &[Card],
    ground: &Ground,
    pages: &str,
) -> Result<Walked>
    requires { length cards.now ≤ most_cards }
{
    let mut walked = Walked {
        pages: 0,
        lines: 0,
        characters: 0,
        ways: 0,
    };
    for page in pages.split('\u{c}') {
        if page != "" {
            walked.pages = walked.pages.saturating_add(1);
            let ways = PageWays::of(alloc, setup, cards, u64::from(walked.pages))?;
            explain_page(alloc, setup, asked, &ways, ground, page, &mut walked)?;
        }
    }
    Ok(walked)
}

// Explains each wheel of each line of a page.
fn explain_page(
    alloc: Global,
    setup: &Setup,
    asked: &[(String, Setup)],
    ways: &PageWays,
    ground: &Ground,
    page: &str,
    walked: &mut Walked,
) -> Result<()>
    requires { IsPageOfSome setup.now ways.now.lines.items }
{
    let mut number = 0u32;
    for line in page.lines() {
        number = number.saturating_add(1);
        if line != "" {
            walked.lines = walked.lines.saturating_add(1);
        }
        for wheel in 1..121u8 {
            let character = character_at(line, u32::from(wheel));
            explain_wheel(
                alloc, setup, asked, ways, ground, number, wheel, character, walked,
            )?;
        }
    }
    Ok(())
}

// Explains a wheel. Where no line was placed, none has a character.
fn explain_wheel(
    alloc: Global,
    setup: &Setup,
    asked: &[(String, Setup)],
    ways: &PageWays,
    ground: &Ground,
    line: u32,
    wheel: u8,
    character: u8,
    walked: &mut Walked,
) -> Result<()>
    requires { IsPageOfSome setup.now ways.now.lines.items }
{
    match page_wheel_text(alloc, setup, asked, ways, line, wheel) {
        Ok(text) => {
            let page = u64::from(walked.pages);
            let many = walk(alloc, ground, text.as_str(), page, line, wheel, character)?;
            if character != b' ' {
                walked.characters = walked.characters.saturating_add(1);
                walked.ways = walked.ways.saturating_add(many);
            }
            Ok(())
        }
        Err(Refusal::NoSuchLine) if character == b' ' => Ok(()),
        Err(_) => bail!("a character is not explained"),
    }
}
