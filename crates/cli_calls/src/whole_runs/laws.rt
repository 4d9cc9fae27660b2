//! A law of the pages of a text. The function does nothing: its contract is the law.

ghost use Rattle.cli_calls.specs.WholeRuns.PageLaws.{AllPagesAreTheText, PagesAreThere, PagesAreTheirBytes};

/// The pages that are chosen of the text of a report are the bytes of the pages with these numbers, in order. Those up to the last page that
/// has a line are there, and no others; all of them are the whole text.
pub fn pages_are_their_bytes()
    ensures pages { PagesAreTheirBytes }
    ensures there { PagesAreThere }
    ensures all { AllPagesAreTheText }
{}
