//! The files and the standard streams of the system that the program runs on.

ghost use Rattle.std.specs.Prelude.{◌≡◌, None};

use std::alloc::{AllocError, Global};
use std::fs::{File, Metadata, OpenOptions, Permissions, TryLockError};
use std::io::{BufRead, BufReader, BufWriter, ErrorKind, Stdin, Write};
use std::os::unix::fs::{MetadataExt, OpenOptionsExt, PermissionsExt};
use std::path::AsPath;
use std::{fs, io};
use yapp::{FileFault, Files, SavedFile, Shelf, Unreadable, Unsaved};
use ybase_talk::{Caller, LineFault};
use ytext::{CallCount, Sink, SinkFault};

/// Where the system has what it is given on its standard input.
const STANDARD_INPUT: &str = "/dev/stdin";

/// Why a file can't be read.
fn cause_of(kind: ErrorKind) -> Unreadable {
    match kind {
        ErrorKind::NotFound => Unreadable::NoFile,
        ErrorKind::PermissionDenied => Unreadable::NoPermission,
        ErrorKind::IsADirectory => Unreadable::Directory,
        _ => Unreadable::Other,
    }
}

/// Why a file can't be written.
fn unsaved_by(kind: ErrorKind) -> Unsaved {
    match kind {
        ErrorKind::OutOfMemory => Unsaved::Memory,
        ErrorKind::NotFound | ErrorKind::NotADirectory => Unsaved::NoFolder,
        ErrorKind::PermissionDenied => Unsaved::NoPermission,
        ErrorKind::IsADirectory => Unsaved::NoRegularFile,
        _ => Unsaved::Other,
    }
}

/// What stands behind the name of a file that isn't in its place yet.
const BESIDE: &str = ".part";

/// The bits of a mode that say who may read, write and run a file.
const WHO_MAY: u32 = 0o777;

/// The mode of a new file, of which the system takes what the user's mask excludes.
const NEW_FILE: u32 = 0o666;

/// The system's files; `-` is its standard input.
#[derive(Drop)]
pub struct FileSystem<'a> {
    runtime: &'a HostRuntime,
    reads: CallCount,
    count: CallCount,
    unsaved: CallCount,
    cause: Option<Unsaved>,
}

impl<'a> FileSystem<'a> {
    /// The files that the runtime reaches.
    pub fn new(runtime: &'a HostRuntime) -> FileSystem<'a> {
        FileSystem {
            runtime,
            reads: CallCount::new(),
            count: CallCount::new(),
            unsaved: CallCount::new(),
            cause: None,
        }
    }
}

impl FileSystem<'_> {
    /// Writes a file into its place: where that is a link, into the place of its target, and with the permissions of the
    /// file that is there. What is there and is no regular file stays as it is.
    fn put(&self, name: &str, bytes: &[u8]) -> Result<(), Unsaved> {
        match fs::metadata(self.runtime, name) {
            Ok(found) if found.is_file() => self.put_over(name, bytes, found.permissions()),
            Ok(_) => Err(Unsaved::NoRegularFile),
            Err(error) if error.kind() == ErrorKind::NotFound => self.put_new(name, bytes),
            Err(error) => Err(unsaved_by(error.kind())),
        }
    }

    /// The same where a file is there.
    fn put_over(&self, name: &str, bytes: &[u8], like: Permissions) -> Result<(), Unsaved> {
        let put = match fs::canonicalize(self.runtime, name) {
            Ok(place) => self.put_at(place.path_text(), bytes, Some(like)),
            Err(error) => Err(unsaved_by(error.kind())),
        };
        match put {
            Err(Unsaved::PartThere) if self.is_link(name) => Err(Unsaved::TargetPartThere),
            put => put,
        }
    }

    fn is_link(&self, name: &str) -> bool {
        match fs::symlink_metadata(self.runtime, name) {
            Ok(found) => found.is_symlink(),
            Err(_) => false,
        }
    }

    /// The same where no file is there. A link that leads nowhere stays as it is.
    fn put_new(&self, name: &str, bytes: &[u8]) -> Result<(), Unsaved> {
        match fs::symlink_metadata(self.runtime, name) {
            Ok(_) => Err(Unsaved::NoRegularFile),
            Err(_) => self.put_at(name, bytes, None),
        }
    }

    /// Writes a file beside its place, as a part that no other run holds, and then puts it there.
    fn put_at(&self, place: &str, bytes: &[u8], like: Option<Permissions>) -> Result<(), Unsaved> {
        if !self.takes_files_of(bytes.len()) {
            return Err(Unsaved::Other);
        }
        let Ok(beside) = [place, BESIDE].concat(self.runtime.alloc()) else {
            return Err(Unsaved::Memory);
        };
        let mode = match &like {
            Some(permissions) => permissions.mode() & WHO_MAY,
            None => NEW_FILE,
        };
        let mut part = self.part(beside.as_str(), mode)?;
        let written = fill(&mut part, bytes, like);
        // The part is held until it is in its place.
        match written.and_then(|()| fs::rename(self.runtime, beside.as_str(), place)) {
            Ok(()) => Ok(()),
            Err(error) => {
                // What was written of it isn't needed; whether it goes away changes nothing.
                let _ = fs::remove_file(self.runtime, beside.as_str());
                Err(unsaved_by(error.kind()))
            }
        }
    }

    /// Whether the system lets the program write a file of so many bytes: a write beyond the limit that it tells would end the
    /// program by a signal.
    fn takes_files_of(&self, size: usize) -> bool {
        match fs::read(self.runtime, LIMITS) {
            Ok(limits) => match file_limit(&limits) {
                Some(limit) => size as u64 <= limit,
                None => true,
            },
            Err(_) => true,
        }
    }

    /// The part of a name, held by this run: a new one, or one that was left and that nobody holds.
    fn part(&self, beside: &str, mode: u32) -> Result<File, Unsaved> {
        match new_file(self.runtime, beside, mode) {
            Ok(part) => match part.try_lock() {
                Err(TryLockError::WouldBlock) => Err(Unsaved::PartThere),
                // There are file systems that can't lock.
                Ok(()) | Err(TryLockError::Error(_)) => self.new_part(part, beside),
            },
            Err(error) if error.kind() == ErrorKind::AlreadyExists => self.left_part(beside),
            Err(error) => Err(unsaved_by(error.kind())),
        }
    }

    /// A part that was left by a run which ended before it was put into its place.
    fn left_part(&self, beside: &str) -> Result<File, Unsaved> {
        let Ok(part) = OpenOptions::new().write(true).open(self.runtime, beside) else {
            return Err(Unsaved::PartThere);
        };
        if part.try_lock().is_err() {
            return Err(Unsaved::PartThere);
        }
        let part = self.own_part(part, beside)?;
        match part.set_len(0) {
            Ok(()) => Ok(part),
            Err(error) => Err(unsaved_by(error.kind())),
        }
    }

    /// A new part that is held. It goes away where nothing is known of it.
    fn new_part(&self, part: File, beside: &str) -> Result<File, Unsaved> {
        match self.own_part(part, beside) {
            Ok(part) => Ok(part),
            Err(Unsaved::PartThere) => Err(Unsaved::PartThere),
            Err(cause) => {
                let _ = fs::remove_file(self.runtime, beside);
                Err(cause)
            }
        }
    }

    /// A part that is held, if it is what its name says: a regular file that has no other name.
    fn own_part(&self, part: File, beside: &str) -> Result<File, Unsaved> {
        match (part.metadata(), fs::symlink_metadata(self.runtime, beside)) {
            (Ok(held), Ok(named)) if is_same(&held, &named) => Ok(part),
            (Ok(_), Ok(_)) => Err(Unsaved::PartThere),
            (Ok(_), Err(error)) if error.kind() == ErrorKind::NotFound => Err(Unsaved::PartThere),
            (Err(error), _) | (Ok(_), Err(error)) => Err(unsaved_by(error.kind())),
        }
    }
}

/// Whether both are of one regular file that has one name.
fn is_same(one: &Metadata, other: &Metadata) -> bool {
    one.is_file()
        && one.nlink() == 1
        && one.dev() == other.dev()
        && one.ino() == other.ino()
        && !other.is_symlink()
}

/// A new file for writing, with a mode.
fn new_file(runtime: &HostRuntime, name: &str, mode: u32) -> io::Result<File> {
    OpenOptions::new()
        .write(true)
        .create_new(true)
        .mode(mode)
        .open(runtime, name)
}

/// Fills a new file, with the permissions of another one where there is one, down to the device.
fn fill(file: &mut File, bytes: &[u8], like: Option<Permissions>) -> io::Result<()> {
    if let Some(permissions) = like {
        file.set_permissions(permissions)?;
    }
    file.write_all(bytes)?;
    file.sync_all()
}

/// Where the system tells how large files may be.
const LIMITS: &str = "/proc/self/limits";

/// How large a file may be, in bytes, in the system's table of limits; nothing where it sets none.
fn file_limit(limits: &[u8]) -> Option<u64> {
    let text = str::from_utf8(limits).ok()?;
    for line in text.lines() {
        if let Some(rest) = line.strip_prefix("Max file size") {
            return rest.split_whitespace().next()?.parse::<u64>().ok();
        }
    }
    None
}

impl Shelf for FileSystem<'_> {
    ghost written = { λ _. None };

    ghost failures = { λ s. s.unsaved.calls };

    ghost cause = { λ s. s.cause };

    fn save(&mut self, file: &SavedFile) -> Result<(), Unsaved> {
        match self.put(file.name.as_str(), file.text.as_bytes()) {
            Ok(()) => {
                self.cause = None;
                Ok(())
            }
            Err(cause) => {
                self.unsaved.rise();
                self.cause = Some(cause);
                Err(cause)
            }
        }
    }
}

impl Files for FileSystem<'_> {
    ghost contents = { λ _ _. None };

    ghost reads = { λ s. s.reads.calls };

    ghost failures = { λ s. s.count.calls };

    fn read(&mut self, name: &str) -> Result<Vec<u8>, FileFault> {
        self.reads.rise();
        let path = if name == "-" { STANDARD_INPUT } else { name };
        match fs::read(self.runtime, path) {
            Ok(bytes) => Ok(bytes),
            Err(error) if error.kind() == ErrorKind::OutOfMemory => Err(FileFault::Memory),
            Err(error) => {
                self.count.rise();
                Err(FileFault::Unread(cause_of(error.kind())))
            }
        }
    }
}

/// A standard stream. A write that was interrupted goes on.
#[derive(Drop)]
pub struct Stream<W> {
    stream: W,
    has_failed: bool,
    count: CallCount,
}

impl<W> Stream<W> {
    /// The stream to a writer.
    pub fn new(stream: W) -> Stream<W> {
        Stream {
            stream,
            has_failed: false,
            count: CallCount::new(),
        }
    }
}

impl<W: Write + Drop> Stream<BufWriter<W>> {
    /// Ends the stream: writes out what it holds back, but nothing where a write has failed.
    pub fn finish(self) -> Result<(), SinkFault> {
        let Stream {
            mut stream,
            has_failed,
            count: _,
        } = self;
        let is_written = !has_failed && stream.flush().is_ok();
        // What a failed write left in the buffer would be tried again where a `BufWriter` is dropped whole.
        let (_, _) = stream.into_parts();
        if is_written { Ok(()) } else { Err(SinkFault) }
    }
}

impl<W: Write> Sink for Stream<W> {
    ghost taken = { λ _. None };

    ghost failures = { λ s. s.count.calls };

    fn write(&mut self, part: &[u8]) -> Result<usize, SinkFault> {
        match self.stream.write_all(part) {
            Ok(()) => Ok(part.len()),
            Err(_) => {
                self.has_failed = true;
                self.count.rise();
                Err(SinkFault)
            }
        }
    }
}

/// Who asks on the standard streams: each line of the input is a request, and each answer is written out at once, as a line.
/// What is to be kept is written to the system's files.
#[derive(Drop)]
pub struct Asker<'a> {
    runtime: &'a HostRuntime,
    input: Option<BufReader<Stdin>>,
    count: CallCount,
}

impl<'a> Asker<'a> {
    /// Who asks on the streams of the runtime.
    pub fn new(runtime: &'a HostRuntime) -> Asker<'a> {
        Asker {
            runtime,
            input: None,
            count: CallCount::new(),
        }
    }

    /// The next line of the input, with its line feed.
    fn read_line(&mut self) -> io::Result<Vec<u8>>
        ensures { self.new.count.calls ≡ self.old.count.calls }
    {
        let alloc = self.runtime.alloc();
        let mut input = match self.input.take() {
            Some(input) => input,
            None => BufReader::new(alloc, self.runtime.stdin())?,
        };
        let mut line = Vec::new(alloc);
        let read = input.read_until(LINE_FEED, &mut line);
        self.input = Some(input);
        read?;
        Ok(line)
    }

    /// Writes an answer and a line feed, in one write where there is memory for both together.
    fn write_line(&self, answer: &[u8]) -> io::Result<()> {
        let mut stdout = self.runtime.stdout();
        match whole_line(self.runtime.alloc(), answer) {
            Ok(line) => stdout.write_all(&line)?,
            Err(_) => {
                stdout.write_all(answer)?;
                stdout.write_all(&[LINE_FEED])?;
            }
        }
        stdout.flush()
    }
}

/// What ends a line.
const LINE_FEED: u8 = b'\n';

/// A text with a line feed behind it.
fn whole_line(alloc: Global, text: &[u8]) -> Result<Vec<u8>, AllocError> {
    let mut line = Vec::from_slice(alloc, text)?;
    line.push(LINE_FEED)?;
    Ok(line)
}

impl Caller for Asker<'_> {
    ghost events = { λ _. None };

    ghost failures = { λ s. s.count.calls };

    fn next_line(&mut self) -> Result<Option<Vec<u8>>, LineFault> {
        match self.read_line() {
            Ok(mut line) => {
                if line.is_empty() {
                    return Ok(None);
                }
                if line.last() == Some(&LINE_FEED) {
                    line.pop();
                }
                Ok(Some(line))
            }
            Err(error) if error.kind() == ErrorKind::OutOfMemory => Err(LineFault::Memory),
            Err(_) => {
                self.count.rise();
                Err(LineFault::Unread)
            }
        }
    }

    fn keep(&mut self, name: &str, text: &str) -> Result<(), &'static str> {
        match FileSystem::new(self.runtime).put(name, text.as_bytes()) {
            Ok(()) => Ok(()),
            Err(cause) => Err(cause.words()),
        }
    }

    fn tell(&mut self, answer: &[u8]) -> Result<(), SinkFault> {
        match self.write_line(answer) {
            Ok(()) => Ok(()),
            Err(_) => {
                self.count.rise();
                Err(SinkFault)
            }
        }
    }
}
