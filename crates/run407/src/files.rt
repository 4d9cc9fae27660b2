//! The files that the words name.

ghost use Rattle.std.specs.Prelude.{◌≡◌, ◌≢◌, ◌⊎◌, IfErr};
ghost use Rattle.std.specs.IoError.{error_kind};

use cli_commands::commands::{Fault, read_whole};
use std::fs::File;
use std::io::{ErrorKind, Read, Stdin};
use std::os::unix::fs::{FileTypeExt, MetadataExt};
use std::{fs, io};

/// The word that names standard input, and standard output.
pub const STANDARD: &str = "-";

/// The path of standard input.
const INPUT_FILE: &str = "/dev/stdin";

/// Which file or pipe it is, whatever names and links lead to it.
#[derive(Clone, Copy, PartialEq, Eq)]
struct FileNumber {
    device: u64,
    number: u64,
}

/// A file that a word names, or standard input.
#[derive(Drop)]
pub enum Input {
    /// A file.
    File(File),
    /// Standard input.
    Standard(Stdin),
}

impl Read for Input {
    fn read(&mut self, buf: &mut [u8]) -> io::Result<usize> {
        match self {
            Input::File(file) => file.read(buf),
            Input::Standard(input) => input.read(buf),
        }
    }
}

// What is told of a file that can't be opened.
fn unopened<'a>(error: &io::Error, path: &'a str) -> Fault<'a>
    ensures memory { error_kind error.now ≡ ErrorKind.OutOfMemory → result ≡ Fault.Memory }
    ensures others { error_kind error.now ≢ ErrorKind.OutOfMemory → result ≡ Fault.File path.entry }
{
    match error.kind() {
        ErrorKind::OutOfMemory => Fault::Memory,
        _ => Fault::File { path },
    }
}

/// A file, opened, or standard input if its name is `-`. Its only error is that the file can't be opened.
pub fn open_input(rt: &HostRuntime, path: &str) -> io::Result<Input> {
    if path == STANDARD {
        return Ok(Input::Standard(rt.stdin()));
    }
    Ok(Input::File(fs::open(rt, path)?))
}

/// A file, opened, or standard input, as [`open_input`] opens it.
///
/// # Errors
///
/// `File` if it can't be opened, `Memory` if a growth was refused.
pub fn open<'a>(rt: &HostRuntime, path: &'a str) -> Result<Input, Fault<'a>>
    ensures { IfErr result (λ told. (told ≡ Fault.Memory) ⊎ (told ≡ Fault.File path.entry)) }
{
    match open_input(rt, path) {
        Ok(input) => Ok(input),
        Err(error) => Err(unopened(&error, path)),
    }
}

/// The bytes of a file, or none if no file is named.
///
/// # Errors
///
/// `File` if it can't be opened or read, `Memory` if a growth was refused.
pub fn read<'a>(rt: &HostRuntime, path: Option<&'a str>) -> Result<Vec<u8>, Fault<'a>> {
    match path {
        Some(path) => read_whole(rt.alloc(), open(rt, path)?, path),
        None => Ok(Vec::new(rt.alloc())),
    }
}

// To which file or pipe a path leads; none if it leads to a device or a socket, which may be read and written, or to nothing.
fn number_of(rt: &HostRuntime, path: &str) -> io::Result<Option<FileNumber>> {
    match fs::metadata(rt, path) {
        Ok(known) if known.is_file() || known.file_type().is_fifo() => Ok(Some(FileNumber {
            device: known.dev(),
            number: known.ino(),
        })),
        Err(error) if error.kind() == ErrorKind::OutOfMemory => Err(error),
        _ => Ok(None),
    }
}

// Whether a path leads to one of some files that are read. Its only error is a refused growth.
fn leads_to_any(rt: &HostRuntime, path: &str, inputs: &[&str]) -> io::Result<bool> {
    let Some(file) = number_of(rt, path)? else {
        return Ok(false);
    };
    for input in inputs {
        let input = if *input == STANDARD {
            INPUT_FILE
        } else {
            *input
        };
        if number_of(rt, input)? == Some(file) {
            return Ok(true);
        }
    }
    Ok(false)
}

/// Whether an output is one of some files or pipes that are read: a deck would be lost for its report. A device may be both; `-` and no
/// name are standard output, of which nothing is asked.
///
/// # Errors
///
/// `Memory` if a growth was refused.
pub fn is_read<'a>(
    rt: &HostRuntime,
    output: Option<&str>,
    inputs: &[&str],
) -> Result<bool, Fault<'a>>
    ensures { IfErr result (λ told. told ≡ Fault.Memory) }
{
    match output {
        Some(path) if path != STANDARD => match leads_to_any(rt, path, inputs) {
            Ok(is_one) => Ok(is_one),
            Err(_) => Err(Fault::Memory),
        },
        _ => Ok(false),
    }
}
