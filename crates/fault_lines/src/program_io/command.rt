//! The commands by their words.

/// What the program does with a text and a deck.
#[derive(Clone, Copy, Debug, PartialEq, Eq)]
pub enum Command {
    /// Prints the pages of a planning chart's deck.
    Run,
    /// Compiles a planning chart.
    Check,
    /// Prints the wiring chart of a planning chart.
    Wire,
    /// Prints the pages that a machine wired by a wiring chart prints of a deck.
    Replay,
    /// Prints a wiring chart in version 2 of its language.
    Upgrade,
}

impl Command {
    ghost use Rattle.std.specs.Prelude.{◌≡◌, IfSome, IfNone};
    ghost use Rattle.fault_lines.specs.ProgramIo.Commands.{word_of, IsNoCommand};

    /// The command of a word, none where the word is no command.
    pub fn named(word: &str) -> Option<Command>
        ensures found { IfSome result (λ command. word.now ≡ word_of command) }
        ensures none { IfNone result (IsNoCommand word.now) }
    {
        match word {
            "run" => Some(Command::Run),
            "check" => Some(Command::Check),
            "wire" => Some(Command::Wire),
            "replay" => Some(Command::Replay),
            "upgrade" => Some(Command::Upgrade),
            _ => None,
        }
    }
}
