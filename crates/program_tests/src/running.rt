//! One run of the program, and what it left.

ghost use Rattle.std.specs.Prelude.{◌≡◌, IfOk, None, false, map, string_bytes};
ghost use Rattle.yspec_run.specs.Output.{Besides, Outcome, printed_with};
ghost use Rattle.ybase_output.specs.Writing.{side};
ghost use Rattle.yapp_words.specs.Running.{Brings};
ghost use Rattle.yapp.specs.Saving.{end_of};
ghost use Rattle.program_tests.specs.Known.{IsKnown, contents_in, told_in, validate_words};

use std::alloc::{AllocError, Global};
use yapp::{Ended, FileFault, Files, SavedFile, Unreadable, run};
use ybase_talk::{Caller, LineFault};
use ytext::{CallCount, Cut, Sink, SinkFault};

pub const MODULE: &str = "module p {
  yang-version 1.1;
  namespace \"urn:p\";
  prefix p;
  container c {
    leaf id { type uint8; mandatory true; }
    leaf note { type string; }
  }
}
";

pub const TWO_FAULTS: &str = "{\"p:c\":{\"id\":256,\"note\":5}}";

pub const BOTH_LINES: &str = "V1 invalid-value - /p:c/id -
V1 invalid-value - /p:c/note -
2 faults
";

/// The words that check the document of the tests under their module.
pub const VALIDATE: &str = "yanglive validate d.json p.yang";

/// A file of a name.
#[derive(Clone, Copy)]
pub struct NamedFile<'a> {
    pub name: &'a str,
    pub bytes: &'a [u8],
}

/// The file of a name with a text.
pub fn file<'a>(name: &'a str, text: &'a str) -> NamedFile<'a> {
    NamedFile {
        name,
        bytes: text.as_bytes(),
    }
}

/// What the first file of a name contains; nothing where there is none.
fn bytes_of<'a>(files: &[NamedFile<'a>], name: &str) -> &'a [u8]
    ensures { result.now ≡ contents_in (map (λ f. f.name.now) files.now) (map (λ f. f.bytes.now) files.now) name.now }
{
    for file in files {
        if file.name == name {
            return file.bytes;
        }
    }
    b""
}

/// Files in memory, which tell what they contain.
#[derive(Drop)]
pub struct Known<'a> {
    alloc: Global,
    files: &'a [NamedFile<'a>],
    reads: u64,
    count: CallCount,
}

impl<'a> Known<'a> {
    fn new(alloc: Global, files: &'a [NamedFile<'a>]) -> Known<'a> {
        Known {
            alloc,
            files,
            reads: 0,
            count: CallCount::new(),
        }
    }
}

impl Files for Known<'_> {
    ghost contents = { λ s. told_in (map (λ f. f.name.now) s.files.now) (map (λ f. f.bytes.now) s.files.now) };

    ghost reads = { λ s. s.count.calls };

    ghost failures = { λ _. 0 };

    fn read(&mut self, name: &str) -> Result<Vec<u8>, FileFault> {
        self.reads = self.reads.saturating_add(1);
        self.count.rise();
        match Vec::from_slice(self.alloc, bytes_of(self.files, name)) {
            Ok(bytes) => Ok(bytes),
            Err(_) => Err(FileFault::Memory),
        }
    }
}

/// Files in memory, of which one read may fail. Reads count from 1.
#[derive(Drop)]
pub struct InMemory<'a> {
    known: Known<'a>,
    failing_read: Option<u64>,
    count: CallCount,
}

impl<'a> InMemory<'a> {
    pub fn new(
        alloc: Global,
        files: &'a [NamedFile<'a>],
        failing_read: Option<u64>,
    ) -> InMemory<'a> {
        InMemory {
            known: Known::new(alloc, files),
            failing_read,
            count: CallCount::new(),
        }
    }
}

impl Files for InMemory<'_> {
    ghost contents = { λ s. told_in (map (λ f. f.name.now) s.known.files.now) (map (λ f. f.bytes.now) s.known.files.now) };

    ghost reads = { λ s. s.known.count.calls };

    ghost failures = { λ s. s.count.calls };

    fn read(&mut self, name: &str) -> Result<Vec<u8>, FileFault> {
        let read = self.known.read(name);
        if self.failing_read == Some(self.known.reads) {
            self.count.rise();
            return Err(FileFault::Unread(Unreadable::NoPermission));
        }
        read
    }
}

/// Who asks nothing.
#[derive(Drop)]
pub struct Nobody {
    count: CallCount,
}

impl Nobody {
    pub fn new() -> Nobody {
        Nobody {
            count: CallCount::new(),
        }
    }
}

impl Caller for Nobody {
    ghost events = { λ _. None };

    ghost failures = { λ s. s.count.calls };

    fn next_line(&mut self) -> Result<Option<Vec<u8>>, LineFault> {
        Ok(None)
    }

    fn keep(&mut self, _name: &str, _text: &str) -> Result<(), &'static str> {
        Err("nobody keeps it")
    }

    fn tell(&mut self, _answer: &[u8]) -> Result<(), SinkFault> {
        self.count.rise();
        Err(SinkFault)
    }
}

/// The words that check `d.json` under `p.yang`.
fn validate_words(alloc: Global) -> Result<Vec<String>, AllocError>
    ensures { IfOk result (λ words. map string_bytes words.items ≡ validate_words) }
{
    let mut words = Vec::new(alloc);
    words.push(String::from_str(alloc, "yanglive")?)?;
    words.push(String::from_str(alloc, "validate")?)?;
    words.push(String::from_str(alloc, "d.json")?)?;
    words.push(String::from_str(alloc, "p.yang")?)?;
    Ok(words)
}

/// Checks a document under a module in files whose contents are known, and answers how that ends.
fn validate_known<O: Sink, E: Sink>(
    alloc: Global,
    files: &mut Known<'_>,
    output: &mut O,
    errors: &mut E,
) -> Result<Ended, AllocError>
    ensures { IfOk result (λ ended. (o : Outcome) × (besides : Besides) × IsKnown (map (λ f. f.name.now) files.old.files.now) (map (λ f. f.bytes.now) files.old.files.now) o
        × Brings (side O.taken O.failures output.old) (side O.taken O.failures output.new)
        (side E.taken E.failures errors.old) (side E.taken E.failures errors.new) (printed_with besides false o) (end_of ended)) }
{
    let words = validate_words(alloc)?;
    Ok(run(alloc, &words, files, &mut Nobody::new(), output, errors))
}

/// How a side takes what is written: so many bytes a call, and perhaps a call that fails. Calls count from 1.
#[derive(Clone, Copy)]
pub struct Way {
    pub bytes_per_call: usize,
    pub failing_call: Option<u64>,
}

pub const WHOLLY: Way = Way {
    bytes_per_call: 4096,
    failing_call: None,
};

/// What a run left on both sides, its status, the file that is to be written then, and how many files it asked for.
#[derive(Drop)]
pub struct Shown {
    pub output: Cut,
    pub errors: Cut,
    pub status: u8,
    pub saved: Option<SavedFile>,
    pub reads: u64,
}

fn side(alloc: Global, way: Way) -> Result<Cut, AllocError> {
    Cut::new(alloc, 4096, way.bytes_per_call, way.failing_call)
}

fn words_of(alloc: Global, line: &str) -> Result<Vec<String>, AllocError> {
    let mut words = Vec::new(alloc);
    for word in line.split_whitespace() {
        words.push(String::from_str(alloc, word)?)?;
    }
    Ok(words)
}

/// Runs a line of words over files.
pub fn shown_by(
    alloc: Global,
    line: &str,
    mut files: InMemory<'_>,
    output_way: Way,
    errors_way: Way,
) -> Result<Shown, AllocError> {
    let words = words_of(alloc, line)?;
    let mut output = side(alloc, output_way)?;
    let mut errors = side(alloc, errors_way)?;
    let Ended { status, saved, .. } = run(
        alloc,
        &words,
        &mut files,
        &mut Nobody::new(),
        &mut output,
        &mut errors,
    );
    Ok(Shown {
        output,
        errors,
        status,
        saved,
        reads: files.known.reads,
    })
}

/// Runs a line of words over files of which none fails, to sides that take all.
pub fn shown_of(alloc: Global, line: &str, files: &[NamedFile<'_>]) -> Result<Shown, AllocError> {
    shown_by(
        alloc,
        line,
        InMemory::new(alloc, files, None),
        WHOLLY,
        WHOLLY,
    )
}

/// Checks a document under a module.
pub fn validated(alloc: Global, module: &[u8], document: &[u8]) -> Result<Shown, AllocError> {
    let mut output = side(alloc, WHOLLY)?;
    let mut errors = side(alloc, WHOLLY)?;
    let files = [
        NamedFile {
            name: "p.yang",
            bytes: module,
        },
        NamedFile {
            name: "d.json",
            bytes: document,
        },
    ];
    let mut files = Known::new(alloc, &files);
    let Ended { status, saved, .. } = validate_known(alloc, &mut files, &mut output, &mut errors)?;
    Ok(Shown {
        output,
        errors,
        status,
        saved,
        reads: files.reads,
    })
}
