//! The program `run407`: `cli_words` reads the words of the command line as a task of `cli_tasks`, and `cli_calls` does it, on the files
//! that are opened here. It offers `serve` and `replay_by_orders` of `cli_commands` too.
#![tactic(auto)]

mod decks;
mod files;
mod obeying;
mod output;
mod release;
mod watched;
mod words;

use crate::obeying::obey;
use crate::release::VERSION;
use crate::words::{given_words, tell_more, tell_refused, tell_wordless};
use cli_commands::commands::tell;
pub use cli_commands::commands::{replay_by_orders, serve};
use cli_words::read_words;
use std::process::ExitCode;

// Reads the words, does what they ask for and answers the status: 2 if they can't be read, 5 wherever memory runs out.
fn main(rt: HostRuntime) -> ExitCode {
    let status = match given_words(&rt) {
        Ok(words) => match read_words(&rt, VERSION, words.as_slice()) {
            Ok(wanted) => match obey(&rt, &wanted) {
                Ok(done) => {
                    tell_more(&rt, done.status);
                    done.status
                }
                Err(unread) => tell(&unread, &mut rt.stderr()).status,
            },
            Err(refused) => tell_refused(&rt, &refused),
        },
        Err(error) => tell_wordless(&rt, &error),
    };
    ExitCode::from(status)
}
