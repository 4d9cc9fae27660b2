//! What the program's commands give, over texts that are all in memory.

use anyhow::Result;
use cli_calls::do_task;
use cli_tasks::Task;
use report_streams::decks_in_row::DecksInRow;
use report_streams::devices::limited::LimitedReader;
use std::alloc::Global;
use std::collections::VecDeque;
use std::io::{Read, Write};

/// What a command printed, what it told, and its status.
#[derive(Drop)]
pub struct Served {
    pub output: Vec<u8>,
    pub told: Vec<u8>,
    pub status: u8,
}

impl Served {
    /// Nothing is printed and nothing told, with status 0.
    pub fn new(alloc: Global) -> Served {
        Served {
            output: Vec::new(alloc),
            told: Vec::new(alloc),
            status: 0,
        }
    }

    /// What a task gives on a text, another text and a deck.
    pub fn on<R: Read + Drop>(
        alloc: Global,
        task: Task,
        text: &[u8],
        other: &[u8],
        deck: R,
    ) -> Served {
        let mut served = Served::new(alloc);
        let ending = do_task(
            alloc,
            task,
            text,
            other,
            "my.deck",
            deck,
            false,
            &mut served.output,
            &mut served.told,
        );
        served.status = ending.status;
        served
    }

    /// What a task gives on a text and a deck.
    pub fn of<R: Read + Drop>(alloc: Global, task: Task, text: &[u8], deck: R) -> Served {
        Served::on(alloc, task, text, b"", deck)
    }

    /// A run over decks in a row, each read three bytes at a time.
    pub fn run_decks(alloc: Global, chart: &[u8], decks: &[u8]) -> Result<Served> {
        let mut row = VecDeque::new(alloc);
        for deck in decks.split(|byte| *byte == b'~') {
            row.push_back(LimitedReader::new(deck, 3, None))?;
        }
        Ok(Served::of(alloc, Task::Run, chart, DecksInRow::new(row)))
    }

    /// Writes what was printed and told.
    pub fn write<W: Write>(&self, out: &mut W) -> Result<()> {
        out.write_all(self.output.as_slice())?;
        out.write_all(self.told.as_slice())?;
        Ok(())
    }

    /// Writes what was printed and told, and the status.
    pub fn write_with_status<W: Write>(&self, out: &mut W) -> Result<()> {
        self.write(out)?;
        write_status(out, self.status)
    }
}

/// Writes a status.
pub fn write_status<W: Write>(out: &mut W, status: u8) -> Result<()> {
    writeln!(out, "status {status}")?;
    Ok(())
}
