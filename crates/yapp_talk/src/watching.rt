//! A session of which it is watched whether a request is refused, and whose document is kept as files.

ghost use Rattle.std.specs.Prelude.{◌≡◌, IfOk, OnErr, string_bytes};
ghost use Rattle.yspec_opening.specs.Closing as spec;
ghost use Rattle.yspec_session.specs.Requests.{request_of};
ghost use Rattle.ybase_talk.specs.Talk.{IsUnanswered, party};
ghost use Rattle.yapp_talk.specs.Saving.{AreKept, file_asked};
ghost use Rattle.yapp_talk.specs.Watching.{AnswersOrSaves};

use crate::saving::{file_named, save};
use std::alloc::{AllocError, Global};
use yapp_session::Session;
use ybase_talk::{Answerer, Caller};

/// A session, and whether a request of it was refused.
#[derive(Drop)]
pub struct Watched {
    pub alloc: Global,
    pub session: Session,
    pub has_refused: bool,
}

/// Whether an answer is a refusal.
fn is_refusal(answer: &str) -> bool
    ensures { result ≡ spec.is_refusal answer.now }
{
    answer.as_bytes().starts_with(b"{\"refused\":".as_slice())
}

/// The answer to a line. Requests to save are the caller's, all others the session's.
fn answer_or_save<C: Caller>(
    alloc: Global,
    session: &mut Session,
    line: &[u8],
    caller: &mut C,
) -> Result<String, AllocError>
    ensures ok { IfOk result (λ text. AreKept
        (AnswersOrSaves (file_asked (request_of line.now)) session.old line.now (string_bytes text) session.new)
        (party C.events C.failures caller.old) (party C.events C.failures caller.new)) }
    ensures err { OnErr result (IsUnanswered (party C.events C.failures caller.old)
        (party C.events C.failures caller.new)) }
{
    let Some(file) = file_named(line) else {
        return session.answer(line);
    };
    save(alloc, session.live(), file, caller)
}

impl Answerer for Watched {
    ghost use Rattle.yapp_talk.specs.Watching.{AnswersWatched};

    ghost answers = { AnswersWatched };

    fn answer<C: Caller>(&mut self, line: &[u8], caller: &mut C) -> Result<String, AllocError> {
        let answer = answer_or_save(self.alloc, &mut self.session, line, caller)?;
        self.has_refused = self.has_refused || is_refusal(answer.as_str());
        Ok(answer)
    }
}
