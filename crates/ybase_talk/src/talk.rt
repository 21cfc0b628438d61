//! A talk between who asks in lines and who answers.

ghost use Rattle.std.specs.Prelude.{◌≡◌, ℕ, [], ◌∷◌, List, Option, IfErr, IfOk, OnOk, OnErr, option_map, string_bytes, take};
ghost use Rattle.ybase_talk.specs.Talk.{Exchanges, Talks, is_end, party};

use std::alloc::AllocError;
use thiserror::Error;
use ybase_output::SinkFault;

/// Why there is no line.
#[derive(Clone, Copy, Debug, PartialEq, Eq, Error)]
pub enum LineFault {
    /// It couldn't be read.
    #[error("read failed")]
    Unread,
    /// There was no memory for it.
    #[error("memory")]
    Memory,
}

/// Why a talk ended before its end.
#[derive(Clone, Copy, Debug, PartialEq, Eq, Error)]
pub enum TalkFault {
    /// A line couldn't be read.
    #[error("read failed")]
    Unread,
    /// An answer couldn't be told whole.
    #[error("write failed")]
    Unwritten,
    /// There was no memory for a line, or for an answer.
    #[error("memory")]
    Memory,
    /// It had more lines than can be counted.
    #[error("too many lines")]
    Endless,
}

/// Who asks, and keeps texts.
pub trait Caller {
    ghost use Rattle.ybase_talk.specs.Talk as spec;
    ghost use Rattle.ybase_talk.specs.Talk.{asked, cause_in, failed, followed_by, keeping, kept, left_by, party, told};

    /// What went over so far, where it tells that.
    ghost events: { Self → Option (List spec.Event) };

    /// How many lines couldn't be read, and how many answers couldn't be told.
    ghost failures: { Self → ℕ };

    /// Asks for the next line, which has no line feed; there is none at the end.
    fn next_line(&mut self) -> Result<Option<Vec<u8>>, LineFault>
        ensures ok { IfOk result (λ line. party events failures self.new
            ≡ followed_by (party events failures self.old) (asked (option_map (λ l. l.items) line) ∷ [])) }
        ensures err { IfErr result (λ fault. party events failures self.new
            ≡ left_by fault (party events failures self.old)) };

    /// Keeps a text under a name, in place of the one that it has; or keeps nothing, and says why in words.
    fn keep(&mut self, name: &str, text: &str) -> Result<(), &'static str>
        ensures { party events failures self.new ≡ followed_by (party events failures self.old)
            (kept (keeping name.now text.now (cause_in result)) ∷ []) };

    /// Tells an answer, and holds nothing of it back.
    fn tell(&mut self, answer: &[u8]) -> Result<(), SinkFault>
        ensures ok { OnOk result (party events failures self.new
            ≡ followed_by (party events failures self.old) (told answer.now ∷ [])) }
        ensures err { OnErr result ((n : ℕ) × party events failures self.new
            ≡ failed (followed_by (party events failures self.old) (told (take n answer.now) ∷ []))) };
}

/// Who answers.
pub trait Answerer {
    ghost use Rattle.ybase_talk.specs.Talk.{IsAnswered, IsUnanswered, Keeping};

    /// A line is answered so, once these texts were kept or couldn't be, which leaves that.
    ghost answers: { Self → List ℕ → List Keeping → List ℕ → Self → Type 0 };

    /// The answer to a line, for which the caller may be asked to keep texts. Where memory runs out none was kept.
    fn answer<C: Caller>(&mut self, line: &[u8], caller: &mut C) -> Result<String, AllocError>
        ensures ok { IfOk result (λ text. IsAnswered answers (party C.events C.failures caller.old) self.old line.now
            (string_bytes text) (party C.events C.failures caller.new) self.new) }
        ensures err { OnErr result (IsUnanswered (party C.events C.failures caller.old)
            (party C.events C.failures caller.new)) };
}

/// Asks for lines and answers each before it asks for the next, until there is none or one says `end`.
pub fn converse<C: Caller, A: Answerer>(caller: &mut C, answerer: &mut A) -> Result<(), TalkFault>
    ensures { Talks A.answers (party C.events C.failures caller.old) answerer.old
        (party C.events C.failures caller.new) answerer.new result }
{
    for _ in 0..u64::MAX {
        if !exchange(caller, answerer)? {
            return Ok(());
        }
    }
    Err(TalkFault::Endless)
}

/// Asks for a line and answers it, unless it ends the talk.
fn exchange<C: Caller, A: Answerer>(caller: &mut C, answerer: &mut A) -> Result<bool, TalkFault>
    ensures { Exchanges A.answers (party C.events C.failures caller.old) answerer.old
        (party C.events C.failures caller.new) answerer.new result }
{
    let line = match caller.next_line() {
        Ok(Some(line)) => line,
        Ok(None) => return Ok(false),
        Err(LineFault::Unread) => return Err(TalkFault::Unread),
        Err(LineFault::Memory) => return Err(TalkFault::Memory),
    };
    if says_end(&line) {
        return Ok(false);
    }
    let Ok(answer) = answerer.answer(&line, caller) else {
        return Err(TalkFault::Memory);
    };
    match caller.tell(answer.as_str().as_bytes()) {
        Ok(()) => Ok(true),
        Err(SinkFault) => Err(TalkFault::Unwritten),
    }
}

/// Whether a line ends the talk.
fn says_end(line: &[u8]) -> bool
    ensures { result ≡ is_end (Some line.now) }
{
    line == b"end".as_slice()
}
