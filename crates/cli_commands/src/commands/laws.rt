//! Laws over definitions alone.

ghost use Rattle.cli_commands.specs.CommandsWords.Laws.{AnsweredTextsAreNotRefused};

/// What a command answers it doesn't refuse: for no text and no deck is there both an answer and a fault that is told.
pub fn answered_texts_are_not_refused()
    ensures { AnsweredTextsAreNotRefused }
{}
