//! The pages that a word names.

ghost use Rattle.std.specs.Prelude.{◌≡◌, ◌≤◌, IfSome};
ghost use Rattle.cli_tasks.specs.Words.{NamesPages, TellsNumber};

/// Pages of a report from one to another, both among them, from 1.
#[derive(Clone, Copy, Debug, PartialEq, Eq)]
pub struct Pages {
    /// The number of the first page.
    pub first: u64,
    /// The number of the last page.
    pub last: u64,
}

// The numbers that a word names, one by itself or two with a hyphen between them.
fn numbers_of(word: &str) -> Option<Pages>
    ensures { IfSome result (NamesPages word.now) }
{
    match word.split_once('-') {
        Some((first, last)) => Some(Pages {
            first: first.parse().ok()?,
            last: last.parse().ok()?,
        }),
        None => {
            let only = word.parse().ok()?;
            Some(Pages {
                first: only,
                last: only,
            })
        }
    }
}

impl Pages {
    /// The pages that a word names, as `4` or `3-5`, or `None` where it names none: it is no number from 1, and not two of them with a hyphen
    /// between them, the lower first.
    pub fn named(word: &str) -> Option<Pages>
        ensures named { IfSome result (NamesPages word.now) }
        ensures lawful { IfSome result (λ pages. (1 ≤ pages.first) × (pages.first ≤ pages.last)) }
    {
        let pages = numbers_of(word)?;
        if pages.first < 1 || pages.last < pages.first {
            return None;
        }
        Some(pages)
    }
}

/// The number of the page that a word names, or `None` where it is no number from 1.
pub fn page_named(word: &str) -> Option<u32>
    ensures named { IfSome result (TellsNumber word.now) }
    ensures lawful { IfSome result (λ page. 1 ≤ page) }
{
    let page: u32 = word.parse().ok()?;
    if page < 1 { None } else { Some(page) }
}
