//! The deck of a task.

use crate::files::{Input, open, open_input};
use cli_commands::commands::Fault;
use cli_tasks::Task;
use report_streams::decks_in_row::DecksInRow;
use std::collections::VecDeque;
use std::io;
use std::io::Read;

/// A file that is opened when it is read first: where it can't be opened, it can't be read.
#[derive(Drop)]
pub struct Unopened<'r, 'a> {
    rt: &'r HostRuntime,
    path: &'a str,
    input: Option<Input>,
}

impl<'r, 'a> Unopened<'r, 'a> {
    /// The file of a path, or standard input if that is `-`.
    pub fn new(rt: &'r HostRuntime, path: &'a str) -> Unopened<'r, 'a> {
        Unopened {
            rt,
            path,
            input: None,
        }
    }
}

impl Read for Unopened<'_, '_> {
    fn read(&mut self, buf: &mut [u8]) -> io::Result<usize> {
        if let Some(input) = &mut self.input {
            return input.read(buf);
        }
        let mut input = open_input(self.rt, self.path)?;
        let count = input.read(buf)?;
        self.input = Some(input);
        Ok(count)
    }
}

// Decks in a row. All are opened before any byte is read.
fn open_all<'a>(rt: &HostRuntime, paths: &[&'a str]) -> Result<DecksInRow<Input>, Fault<'a>> {
    let mut decks = VecDeque::new(rt.alloc());
    for path in paths {
        let deck = open(rt, path)?;
        decks.push_back(deck).map_err(|_| Fault::Memory)?;
    }
    Ok(DecksInRow::new(decks))
}

/// The deck of a task.
#[derive(Drop)]
pub enum Deck<'r, 'a> {
    /// There is none.
    Missing,
    /// One that is open.
    Open(Input),
    /// One that isn't open yet.
    Unopened(Unopened<'r, 'a>),
    /// Decks one behind the other, all open.
    Row(DecksInRow<Input>),
}

impl Read for Deck<'_, '_> {
    fn read(&mut self, buf: &mut [u8]) -> io::Result<usize> {
        match self {
            Deck::Missing => Ok(0),
            Deck::Open(input) => input.read(buf),
            Deck::Unopened(input) => input.read(buf),
            Deck::Row(decks) => decks.read(buf),
        }
    }
}

impl<'r, 'a> Deck<'r, 'a> {
    /// The deck of the files that a task names. A run takes several, one behind the other. A deck whose bad cards are shown isn't opened before
    /// it is read, for the chart may have faults.
    ///
    /// # Errors
    ///
    /// `File` of the first one that can't be opened, `Memory` if a growth was refused.
    pub fn open(
        rt: &'r HostRuntime,
        task: &Task,
        paths: &[&'a str],
    ) -> Result<Deck<'r, 'a>, Fault<'a>> {
        let is_row = matches!(task, Task::Run | Task::RunWhole | Task::RunPages { .. });
        let is_shown = matches!(task, Task::ShowDeck);
        match paths {
            [] => Ok(Deck::Missing),
            _ if is_row => Ok(Deck::Row(open_all(rt, paths)?)),
            [path, ..] if is_shown => Ok(Deck::Unopened(Unopened::new(rt, *path))),
            [path, ..] => Ok(Deck::Open(open(rt, *path)?)),
        }
    }

    /// Whether it is a run's, whose cards are read one after the other.
    pub fn is_row(&self) -> bool {
        matches!(self, Deck::Row(_))
    }
}
