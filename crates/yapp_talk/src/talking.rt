//! A talk from its beginning to its end.

ghost use Rattle.std.specs.Prelude.{◌≡◌, [], false, if◌then◌else◌, is_ok};
ghost use Rattle.yspec_opening.specs.Closing as spec;
ghost use Rattle.ybase_output.specs.Writing.{side};
ghost use Rattle.ybase_talk.specs.Talk.{party};
ghost use Rattle.yapp_words.specs.Command.{opening_view};
ghost use Rattle.yapp_words.specs.Running.{Ends};
ghost use Rattle.ylive.specs.View.{view};
ghost use Rattle.yspec_session.specs.Session.{configured_by};
ghost use Rattle.yapp_session.specs.Answered.{configured_view};
ghost use Rattle.yapp_talk.specs.Watching.{close_of};
ghost use Rattle.yapp_talk.specs.Talked.{Begins, HoldsOn, IsTalk, IsThere};

use crate::watching::Watched;
use std::alloc::{AllocError, Global};
use yapp_session::Session;
use yapp_words::Opening;
use ybase_output::{Sink, SinkFault, write_texts};
use ybase_talk::{Caller, TalkFault, converse};
use ylive::Live;
use yschema_model::Schema;

/// What is said where a talk ends.
fn closing_text(ended: Result<(), TalkFault>, with_reasons: bool) -> &'static str
    ensures { result.now ≡ spec.closing_text with_reasons (close_of ended) }
{
    match ended {
        Ok(()) => "",
        Err(TalkFault::Unread) => "cannot read -\n",
        Err(TalkFault::Unwritten) => { if with_reasons { "write failed\n" } else { "" } }
        Err(TalkFault::Memory) => "memory\n",
        Err(TalkFault::Endless) => "too many lines\n",
    }
}

/// The exit status where a talk ends, by whether a request was refused, and by how many faults the document has.
fn closing_status(ended: Result<(), TalkFault>, has_refused: bool, faults: usize) -> u8
    ensures { result ≡ spec.closing_status (close_of ended) has_refused faults }
{
    match ended {
        Ok(()) => { if !has_refused && faults == 0 { 0 } else { 1 } }
        Err(TalkFault::Unread | TalkFault::Unwritten | TalkFault::Memory | TalkFault::Endless) => 4,
    }
}

/// The exit status after a text was to be written: that of a failure where a write failed.
fn status_after(written: Result<(), SinkFault>, status: u8) -> u8
    ensures { result ≡ (if is_ok written then status else 4) }
{
    match written {
        Ok(()) => status,
        Err(SinkFault) => 4,
    }
}

/// Writes a text on the error side and answers the exit status, which is another one where a write failed.
fn end_with<E: Sink>(text: &str, status: u8, errors: &mut E) -> u8
    ensures { Ends (side E.taken E.failures errors.old) (side E.taken E.failures errors.new)
        text.now status result }
{
    status_after(write_texts(errors, &[text]), status)
}

/// Answers requests until there are no more, and says then on the error side why that was too early, where it was. Answers the
/// exit status.
fn hold<C: Caller, E: Sink>(
    mut watched: Watched,
    with_reasons: bool,
    caller: &mut C,
    errors: &mut E,
) -> u8
    requires { IsThere watched }
    ensures { HoldsOn watched [] with_reasons (party C.events C.failures caller.old) (party C.events C.failures caller.new)
        (side E.taken E.failures errors.old) (side E.taken E.failures errors.new) result }
{
    let ended = converse(caller, &mut watched);
    match watched.session.fault_count() {
        Ok(faults) => {
            let status = closing_status(ended, watched.has_refused, faults);
            end_with(closing_text(ended, with_reasons), status, errors)
        }
        Err(AllocError) => end_with("memory\n", 4, errors),
    }
}

/// Says what is known of conditions, and holds the talk of a session.
fn begin<C: Caller, E: Sink>(
    watched: Watched,
    note: &str,
    with_reasons: bool,
    caller: &mut C,
    errors: &mut E,
) -> u8
    requires { IsThere watched }
    ensures { Begins watched note.now with_reasons (party C.events C.failures caller.old) (party C.events C.failures caller.new)
        (side E.taken E.failures errors.old) (side E.taken E.failures errors.new) result }
{
    match write_texts(errors, &[note]) {
        Ok(()) => hold(watched, with_reasons, caller, errors),
        Err(SinkFault) => 4,
    }
}

/// Opens a session over a live document, as words ask for it, with the schema of its configuration where that alone is looked
/// at, says what is known of the conditions of its modules, and answers requests until there are no more. Answers the exit status.
pub fn talk<C: Caller, E: Sink>(
    alloc: Global,
    opening: &Opening<'_>,
    live: Live,
    configured: Option<Schema>,
    note: &str,
    with_reasons: bool,
    caller: &mut C,
    errors: &mut E,
) -> u8
    requires fresh { (view live).is_stale ≡ false }
    requires looks { configured_view configured
        ≡ configured_by (opening_view opening.now).of_configuration (view live).schema }
    ensures { IsTalk (opening_view opening.now) (view live).schema (view live).tree note.now with_reasons
        (party C.events C.failures caller.old) (party C.events C.failures caller.new)
        (side E.taken E.failures errors.old) (side E.taken E.failures errors.new) result }
{
    match Session::open(
        alloc,
        live,
        opening.remembers,
        opening.tells_changes,
        configured,
    ) {
        Ok(session) => {
            let watched = Watched {
                alloc,
                session,
                has_refused: false,
            };
            begin(watched, note, with_reasons, caller, errors)
        }
        Err(_) => end_with("memory\n", 4, errors),
    }
}
