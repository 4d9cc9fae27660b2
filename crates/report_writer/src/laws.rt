//! Laws of what is written so far of pages. The functions do nothing: the contract of each is the law.

ghost use Rattle.report_writer.specs.Laws.{OpenGrows, OpenGrowsByAll, OrderGoesOn, PagesBegin, PagesEnd};

/// What is written so far grows by what a line adds.
pub fn open_grows()
    ensures { OpenGrows }
{}

/// What is written so far grows by what lines add, one after another.
pub fn open_grows_by_all()
    ensures { OpenGrowsByAll }
{}

/// Pages begin with what is written so far.
pub fn pages_begin()
    ensures { PagesBegin }
{}

/// Pages are what is written so far, and the end of the last page.
pub fn pages_end()
    ensures { PagesEnd }
{}

/// Lines in order go on in order from where the first of them end.
pub fn order_goes_on()
    ensures { OrderGoesOn }
{}
