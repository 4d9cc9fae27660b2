//! A law of traces. The function does nothing: its contract is the law.

ghost use Rattle.explain_words.specs.TracesWords.OneTrace.{TracesAreOne};

/// A deck has one trace on a panel, so that what the text says of a cycle doesn't hang on who asks.
pub fn traces_are_one()
    ensures { TracesAreOne }
{}
