//! One session, and what it left.

ghost use Rattle.std.specs.Prelude.{None};

use std::alloc::{AllocError, Global};
use yapp::{Ended, FileFault, Files, Unreadable, run};
use ybase_output::{write_all, write_texts};
use ybase_talk::{Caller, LineFault};
use ytext::{CallCount, Cut, SinkFault};

pub const MODULE: &str = "module p {
  yang-version 1.1;
  namespace \"urn:p\";
  prefix p;
  container c {
    must \"id\";
    leaf id { type uint8; }
    leaf note { type string; }
    leaf seen { config false; type string; }
  }
  container e {
    presence \"e\";
    leaf up { config false; mandatory true; type boolean; }
  }
}
";

/// One that imports a module which isn't named, and that module, in a folder.
const IMPORTING: &str = "module i {
  yang-version 1.1;
  namespace \"urn:i\";
  prefix i;
  import n { prefix n; }
  leaf x { type n:t; }
}
";

const TYPES: &str = "module n {
  yang-version 1.1;
  namespace \"urn:n\";
  prefix n;
  typedef t { type uint8; }
}
";

pub const GOOD: &str = "{\"p:c\":{\"id\":1}}";

/// The words that open a session over the document of the tests.
pub const SESSION: &str = "yanglive session --profile rfc --unjudged must d.json p.yang";

/// What is said of the module's condition.
pub const NOTE: &str = "not judged: 1 must\n";

/// The document and the module of a session.
#[derive(Drop)]
struct Pair<'a> {
    alloc: Global,
    document: &'a str,
    module: &'a str,
    reads: CallCount,
    count: CallCount,
}

impl<'a> Pair<'a> {
    /// What the file of a name contains.
    fn text_of(&self, name: &str) -> Option<&'a str> {
        match name {
            "d.json" => Some(self.document),
            "p.yang" => Some(self.module),
            "i.yang" => Some(IMPORTING),
            "f/n.yang" => Some(TYPES),
            _ => None,
        }
    }
}

impl Files for Pair<'_> {
    ghost contents = { λ _ _. None };

    ghost reads = { λ s. s.reads.calls };

    ghost failures = { λ s. s.count.calls };

    fn read(&mut self, name: &str) -> Result<Vec<u8>, FileFault> {
        self.reads.rise();
        let Some(text) = self.text_of(name) else {
            self.count.rise();
            return Err(FileFault::Unread(Unreadable::NoFile));
        };
        match Vec::from_slice(self.alloc, text.as_bytes()) {
            Ok(bytes) => Ok(bytes),
            Err(_) => Err(FileFault::Memory),
        }
    }
}

/// Who asks some lines, of which one may not be readable, and keeps what is told, in one write an answer, and behind their names
/// the texts that are to be kept. None is kept in a folder `no`. Short answers are told without a request for memory.
#[derive(Drop)]
struct Asking<'a> {
    alloc: Global,
    lines: &'a [&'a str],
    next: usize,
    unread: Option<usize>,
    line: Vec<u8>,
    told: Cut,
    kept: Cut,
    count: CallCount,
}

/// Makes a line of a text, with a line feed behind it.
fn make_line(line: &mut Vec<u8>, text: &[u8]) -> Result<(), AllocError> {
    line.clear();
    line.extend_from_slice(text)?;
    line.push(b'\n')?;
    Ok(())
}

impl Caller for Asking<'_> {
    ghost events = { λ _. None };

    ghost failures = { λ s. s.count.calls };

    fn next_line(&mut self) -> Result<Option<Vec<u8>>, LineFault> {
        if self.unread == Some(self.next) {
            self.count.rise();
            return Err(LineFault::Unread);
        }
        let Some(line) = self.lines.get(self.next) else {
            return Ok(None);
        };
        match Vec::from_slice(self.alloc, line.as_bytes()) {
            Ok(bytes) => {
                self.next = self.next.saturating_add(1);
                Ok(Some(bytes))
            }
            Err(_) => Err(LineFault::Memory),
        }
    }

    fn keep(&mut self, name: &str, text: &str) -> Result<(), &'static str> {
        if name.starts_with("no/") {
            return Err("no such folder");
        }
        match write_texts(&mut self.kept, &[name, " ", text]) {
            Ok(()) => Ok(()),
            Err(SinkFault) => Err("there is no room"),
        }
    }

    fn tell(&mut self, answer: &[u8]) -> Result<(), SinkFault> {
        let written = match make_line(&mut self.line, answer) {
            Ok(()) => write_all(&mut self.told, &self.line),
            Err(_) => Err(SinkFault),
        };
        if written.is_err() {
            self.count.rise();
        }
        written
    }
}

/// What a session is opened by, what it is asked, and what of that fails: lines count from 0, calls from 1.
#[derive(Clone, Copy)]
pub struct Talk<'a> {
    pub words: &'a str,
    pub document: &'a str,
    pub lines: &'a [&'a str],
    pub unread: Option<usize>,
    pub untold: Option<u64>,
    pub unsaid: Option<u64>,
}

/// A talk of which nothing fails.
pub fn over<'a>(words: &'a str, document: &'a str, lines: &'a [&'a str]) -> Talk<'a> {
    Talk {
        words,
        document,
        lines,
        unread: None,
        untold: None,
        unsaid: None,
    }
}

/// What a session told who asked and had kept, what it wrote on both sides, how many lines it was asked, and its status.
#[derive(Drop)]
pub struct Held {
    pub told: Cut,
    pub kept: Cut,
    pub output: Cut,
    pub errors: Cut,
    pub asked: usize,
    pub status: u8,
}

fn words_of(alloc: Global, line: &str) -> Result<Vec<String>, AllocError> {
    let mut words = Vec::new(alloc);
    for word in line.split_whitespace() {
        words.push(String::from_str(alloc, word)?)?;
    }
    Ok(words)
}

/// Holds a talk.
pub fn hold(alloc: Global, talk: Talk<'_>) -> Result<Held, AllocError> {
    let words = words_of(alloc, talk.words)?;
    let mut files = Pair {
        alloc,
        document: talk.document,
        module: MODULE,
        reads: CallCount::new(),
        count: CallCount::new(),
    };
    let mut caller = Asking {
        alloc,
        lines: talk.lines,
        next: 0,
        unread: talk.unread,
        line: Vec::with_capacity(alloc, 4096)?,
        told: Cut::new(alloc, 100_000, 4096, talk.untold)?,
        kept: Cut::new(alloc, 4096, 4096, None)?,
        count: CallCount::new(),
    };
    let mut output = Cut::new(alloc, 4096, 4096, None)?;
    let mut errors = Cut::new(alloc, 4096, 4096, talk.unsaid)?;
    let Ended { status, .. } = run(
        alloc,
        &words,
        &mut files,
        &mut caller,
        &mut output,
        &mut errors,
    );
    let Asking {
        told,
        kept,
        next,
        ..
    } = caller;
    Ok(Held {
        told,
        kept,
        output,
        errors,
        asked: next,
        status,
    })
}

/// Whether a session told this, wrote this on the error side alone, and ended with this status.
pub fn is_held(held: &Held, told: &str, errors: &str, status: u8) -> bool {
    held.told.bytes() == told.as_bytes()
        && held.errors.bytes() == errors.as_bytes()
        && held.output.bytes().is_empty()
        && held.status == status
}
