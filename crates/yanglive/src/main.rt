//! The program: the commands over the system's files and streams.
#![tactic(auto)]

mod system;

use std::io::{BufWriter, Write};
use std::process::ExitCode;
use std::{env, io};
use system::{Asker, FileSystem, Stream};
use yapp::{Ended, refuse, run, save, tell_memory, tell_unwritten};
use ytext::{Sink, SinkFault};

/// The words of the command line.
fn words_of(rt: &HostRuntime) -> io::Result<Vec<String>> {
    let words = env::args(rt)?.collect(rt.alloc())?;
    Ok(words)
}

/// Does what the words of the command line ask for, and answers the exit status. The output is written out at the end, and
/// behind it the file that is due.
fn answer<W: Write + Drop, E: Sink>(rt: &HostRuntime, stdout: BufWriter<W>, errors: &mut E) -> u8 {
    let mut files = FileSystem::new(rt);
    let mut caller = Asker::new(rt);
    let mut output = Stream::new(stdout);
    let ended = match words_of(rt) {
        Ok(words) => run(
            rt.alloc(),
            &words,
            &mut files,
            &mut caller,
            &mut output,
            errors,
        ),
        Err(error) if error.kind() == io::ErrorKind::OutOfMemory => {
            Ended::with_status(tell_memory(errors))
        }
        Err(_) => Ended::with_status(refuse(
            "error: a word of the command line isn't text\n",
            errors,
        )),
    };
    match output.finish() {
        Ok(()) => save(&ended, &mut files, errors),
        Err(SinkFault) => tell_unwritten(&ended, errors),
    }
}

fn main(rt: HostRuntime) -> ExitCode {
    let mut errors = Stream::new(rt.stderr());
    let status = match BufWriter::new(rt.alloc(), rt.stdout()) {
        Ok(stdout) => answer(&rt, stdout, &mut errors),
        Err(_) => tell_memory(&mut errors),
    };
    ExitCode::from(status)
}
