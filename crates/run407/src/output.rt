//! Where the answer of a command goes.

ghost use Rattle.std.specs.Prelude.{◌≡◌, ◌≢◌, ◌⊎◌, IfErr};

use crate::files::STANDARD;
use cli_commands::commands::{Ending, Fault, tell, unprinted};
use std::fs::{File, Metadata, OpenOptions};
use std::io::{ErrorKind, IsTerminal, Stdout, Write};
use std::os::unix::fs::OpenOptionsExt;
use std::path::Path;
use std::{fs, io};

/// How many names are tried for a file that is written beside another.
const MOST_NAMES: u32 = 100;

/// How many links are followed, one after the other; as many as the system follows.
const MOST_LINKS: u32 = 40;

/// The mode of a new file, before the system's mask.
const ANY_MODE: u32 = 0o666;

/// The mode of a file that only its owner may read and write.
const OWN_MODE: u32 = 0o600;

/// The paths of standard output.
const OUTPUT_FILES: [&str; 3] = ["/dev/stdout", "/dev/fd/1", "/proc/self/fd/1"];

/// A file that is written beside the one whose place it takes once it is whole.
#[derive(Drop)]
pub struct NewFile {
    path: String,
    beside: String,
    file: File,
}

/// Where the answer of a command goes.
#[derive(Drop)]
pub enum Output {
    /// Standard output.
    Standard(Stdout),
    /// What is written as it is: a device, a pipe or the like, or what is open already.
    Device(File),
    /// A file that takes its place once it is whole.
    New(NewFile),
}

impl Write for Output {
    fn write(&mut self, buf: &[u8]) -> io::Result<usize> {
        match self {
            Output::Standard(out) => out.write(buf),
            Output::Device(file) | Output::New(NewFile { file, .. }) => file.write(buf),
        }
    }

    fn flush(&mut self) -> io::Result<()> {
        match self {
            Output::Standard(out) => out.flush(),
            Output::Device(file) | Output::New(NewFile { file, .. }) => file.flush(),
        }
    }
}

// A new file of this mode beside another, by the first of some names that no file has.
fn beside(rt: &HostRuntime, path: String, mode: u32) -> io::Result<NewFile> {
    for number in 1..=MOST_NAMES {
        let beside = format!(in rt.alloc(); "{path}.{number}.part")?;
        let mut options = OpenOptions::new();
        options.write(true).create_new(true).mode(mode);
        match options.open(rt, &beside) {
            Ok(file) => return Ok(NewFile { path, beside, file }),
            Err(error) if error.kind() == ErrorKind::AlreadyExists => {}
            Err(error) => return Err(error),
        }
    }
    Err(io::Error::from(ErrorKind::AlreadyExists))
}

// A new file in the place of another, with its mode; its owner and its group are those of whoever runs the program. One that nobody may
// write stays.
fn in_place_of(rt: &HostRuntime, path: String, known: &Metadata) -> io::Result<NewFile> {
    let permissions = known.permissions();
    if permissions.readonly() {
        return Err(io::Error::from(ErrorKind::PermissionDenied));
    }
    let new = beside(rt, path, OWN_MODE)?;
    match new.file.set_permissions(permissions) {
        Ok(()) => Ok(new),
        Err(error) => {
            // If it can't be removed, it is left behind, and empty.
            let _ = fs::remove_file(rt, &new.beside);
            Err(error)
        }
    }
}

// Whether a path is that of a file that is open already. A new file in its place would never reach whoever has it open.
fn is_open(path: &str) -> bool {
    path.starts_with("/dev/fd/")
        || path.starts_with("/dev/std")
        || (path.starts_with("/proc/") && path.contains("/fd/"))
}

// Where a link leads, which need not be there; none if a path is no link, or nothing is there.
fn target_of(rt: &HostRuntime, path: &str) -> io::Result<Option<String>> {
    match fs::read_link(rt, path) {
        Ok(target) => {
            let folder = Path::new(path).parent().unwrap_or(Path::new(""));
            Ok(Some(folder.join(rt.alloc(), target.as_path())?.into_string()))
        }
        Err(error) => match error.kind() {
            ErrorKind::InvalidInput | ErrorKind::NotFound => Ok(None),
            _ => Err(error),
        },
    }
}

// Where a path leads by links. What is open already is followed no further.
fn end_of(rt: &HostRuntime, path: &str) -> io::Result<String> {
    let mut place = format!(in rt.alloc(); "{path}")?;
    for _ in 0..=MOST_LINKS {
        if is_open(&place) {
            return Ok(place);
        }
        match target_of(rt, &place)? {
            Some(target) => place = target,
            None => return Ok(place),
        }
    }
    Err(io::Error::from(ErrorKind::InvalidInput))
}

// What this path names. Standard output, a device and a pipe are written as they are. So is what is open already, behind what it holds: it
// is opened once more, so that others who have it open may write over that later. Anything else is a new file; behind links it takes the
// place of the file that they lead to.
fn open_named(rt: &HostRuntime, path: &str) -> io::Result<Output> {
    let place = end_of(rt, path)?;
    if OUTPUT_FILES.contains(&place.as_str()) {
        return Ok(Output::Standard(rt.stdout()));
    }
    if is_open(&place) {
        let file = OpenOptions::new().append(true).open(rt, &place)?;
        return Ok(Output::Device(file));
    }
    match fs::metadata(rt, &place) {
        Ok(known) if known.is_file() => Ok(Output::New(in_place_of(rt, place, &known)?)),
        Ok(_) => {
            let file = OpenOptions::new().write(true).open(rt, &place)?;
            Ok(Output::Device(file))
        }
        Err(error) if error.kind() == ErrorKind::NotFound => {
            Ok(Output::New(beside(rt, place, ANY_MODE)?))
        }
        Err(error) => Err(error),
    }
}

impl Output {
    /// Standard output, or what this path names.
    ///
    /// # Errors
    ///
    /// `Write` if it can't be written, `Memory` if a growth was refused.
    pub fn open<'a>(rt: &HostRuntime, path: Option<&'a str>) -> Result<Output, Fault<'a>>
        ensures { IfErr result (λ told. (told ≡ Fault.Memory) ⊎ (told ≡ Fault.Write)) }
    {
        match path {
            Some(path) if path != STANDARD => match open_named(rt, path) {
                Ok(output) => Ok(output),
                Err(error) => Err(unprinted(&error)),
            },
            _ => Ok(Output::Standard(rt.stdout())),
        }
    }

    /// Whether somebody sees what is written while it is written.
    pub fn is_terminal(&self) -> bool {
        matches!(self, Output::Standard(out) if out.is_terminal())
    }

    /// Ends what a command has written: a new file takes its place if the command was done, and else is removed. That it can't take its place
    /// is told as an output that can't be written.
    pub fn finish(self, rt: &HostRuntime, done: Ending) -> Ending
        ensures { done.status ≢ 0 → result ≡ done }
    {
        let Output::New(NewFile { path, beside, file }) = self else {
            return done;
        };
        drop(file);
        let named = if done.status == 0 {
            fs::rename(rt, &beside, &path)
        } else {
            Ok(())
        };
        if done.status == 0 && named.is_ok() {
            return done;
        }
        // If it can't be removed, it is left behind: nothing else can be done about it.
        let _ = fs::remove_file(rt, &beside);
        match named {
            Ok(()) => done,
            Err(error) => tell(&unprinted(&error), &mut rt.stderr()),
        }
    }
}
