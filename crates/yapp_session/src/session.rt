//! A session over a live document.

ghost use Rattle.std.specs.Prelude.{◌≡◌, IfOk, OnErr, length, string_bytes};
ghost use Rattle.ylive.specs.View.{view};
ghost use Rattle.yapp_session.specs.View.{past_view};
ghost use Rattle.yspec_session.specs.Session as sessions;
ghost use Rattle.yspec_session.specs.Requests.{request_of};
ghost use Rattle.ysay_session.specs.AnswerText.{short_text};
ghost use Rattle.yapp_session.specs.Asked.{request_view};
ghost use Rattle.yapp_session.specs.Kept.{AreFit};
ghost use Rattle.yapp_session.specs.Answered.{Holds, IsPlaced, Says, Stays, Told, configured_view};

use crate::past::Past;
use crate::questions::{below, document, page, value};
use crate::replying::{back, begin, change, commit, undo};
use crate::request::{Request, request_of};
use crate::rewinding::rewind;
use crate::telling::count_of;
use std::alloc::{AllocError, Global};
use std::marker::Model;
use ylive::Live;
use ysay_session::{not_understood_text, short_text, unserved_text};
use yschema_model::Schema;

/// A live document, and the edits since another that lead to it.
#[derive(Drop)]
pub struct Session {
    alloc: Global,
    live: Live,
    past: Past,
    limit: usize,
    tells_changes: bool,
    configured: Option<Schema>,
}

impl Model for Session {
    ghost use Rattle.std.specs.Coded.{codes};
    ghost use Rattle.yschema_model.specs.contracts.schema.Schema as schemas;
    ghost use Rattle.ylive.specs.contracts.live.Live as lives;
    ghost use Rattle.yapp_session.specs.contracts.past.Past as pasts;
    ghost use Rattle.yapp_session.specs.Kept.{IsKept, Parts};

    ghost Value = { Parts };

    ghost coded = { Prim.hlevel (codes, schemas.the_row.coded, lives.the_row.coded, pasts.the_row.coded) };

    ghost view = { λ a. record { live = a.live; past = a.past; limit = a.limit; tells_changes = a.tells_changes; configured = a.configured } };

    ghost invariant = { λ a. IsKept a.live a.past };
}

impl Session {
    ghost use Rattle.std.specs.Prelude.{◌≡◌, IfErr, IfOk, OnErr, false, is_some, string_bytes, true};
    ghost use Rattle.yspec_session.specs.Session.{opened};
    ghost use Rattle.ylive.specs.View.{view};
    ghost use Rattle.yapp_session.specs.View.{past_view};
    ghost use Rattle.yapp_session.specs.Answered.{AnswersLine, Holds, configured_view, told_count};

    /// A session over a live document, in which so many edits can be taken back, and perhaps which faults are new and which are
    /// gone is told of each change, and, where the schema of its configuration is given, the faults of that alone. Where memory
    /// runs out the document is given back.
    pub fn open(
        alloc: Global,
        live: Live,
        limit: usize,
        tells_changes: bool,
        configured: Option<Schema>,
    ) -> Result<Session, Live>
        ensures opened { IfOk result (λ session. (view live).is_stale ≡ false
            → Holds (view session.live) (past_view session.past) (opened (view live).tree)) }
        ensures schema { IfOk result (λ session. (view session.live).schema ≡ (view live).schema) }
        ensures limit { IfOk result (λ session. session.limit ≡ limit) }
        ensures changes { IfOk result (λ session. session.tells_changes ≡ tells_changes) }
        ensures looks { IfOk result (λ session. session.configured ≡ configured) }
        ensures err { IfErr result (λ given. given ≡ live) }
    {
        match live.tree() {
            Ok(base) => Ok(Session {
                alloc,
                live,
                past: Past::of(alloc, base),
                limit,
                tells_changes,
                configured,
            }),
            Err(_) => Err(live),
        }
    }

    /// The live document.
    pub fn live(&self) -> &Live
        ensures { result.now ≡ self.now.live }
    {
        &self.live
    }

    /// How many faults are told of its document.
    pub fn fault_count(&self) -> Result<usize, AllocError>
        ensures counted { IfOk result (λ count. (view self.now.live).is_stale ≡ false
            → count ≡ told_count (configured_view self.now.configured) (view self.now.live)) }
        ensures err { OnErr result (is_some self.now.configured ≡ true) }
    {
        count_of(self.alloc, &self.live, &self.configured)
    }

    /// The answer to a line.
    pub fn answer(&mut self, line: &[u8]) -> Result<String, AllocError>
        ensures { IfOk result (λ text. AnswersLine self.old line.now (string_bytes text) self.new) }
    {
        let alloc = self.alloc;
        match answer_line(
            alloc,
            &mut self.live,
            &mut self.past,
            self.limit,
            self.tells_changes,
            &self.configured,
            line,
        ) {
            Ok(text) => {
                settle(&self.live, &mut self.past, self.limit);
                Ok(text)
            }
            Err(_) => mend(alloc, &mut self.live, &self.past),
        }
    }
}

/// What a line is answered.
fn answer_line(
    alloc: Global,
    live: &mut Live,
    past: &mut Past,
    limit: usize,
    tells_changes: bool,
    configured: &Option<Schema>,
    line: &[u8],
) -> Result<String, AllocError>
    requires { AreFit (view live.old).schema (past_view past.old) }
    ensures answer { IfOk result (λ text. Says tells_changes (configured_view configured.now) limit (view live.old) (past_view past.old)
        (request_of line.now) (string_bytes text) (view live.new) (past_view past.new)) }
    ensures stays { Stays (view live.old) (past_view past.old) (view live.new) (past_view past.new) }
    ensures memory { OnErr result (past_view past.new ≡ past_view past.old) }
{
    match request_of(alloc, line)? {
        Some(request) => reply(alloc, live, past, limit, tells_changes, configured, request),
        None => not_understood_text(alloc),
    }
}

/// Forgets what leads to places that can't come back, from time to time: counts from a later document, or keeps a copy to count
/// from later, if there is memory for it.
fn settle(live: &Live, past: &mut Past, limit: usize)
    ensures holds { (s : sessions.Session) → Holds (view live.now) (past_view past.old) s
        → Holds (view live.now) (past_view past.new) s }
    ensures fit { AreFit (view live.now).schema (past_view past.old)
        → AreFit (view live.now).schema (past_view past.new) }
{
    past.settle();
    if !past.is_due(limit) {
        return;
    }
    let Ok(tree) = live.tree() else {
        return;
    };
    past.mark(tree);
}

/// Puts a live document to where its past leads, and says that memory ran out.
fn mend(alloc: Global, live: &mut Live, past: &Past) -> Result<String, AllocError>
    requires { AreFit (view live.old).schema (past_view past.now) }
    ensures text { IfOk result (λ text. string_bytes text ≡ short_text) }
    ensures live { IfOk result (λ text. IsPlaced (view live.old).schema (past_view past.now)
        (length (past_view past.now).groups) (view live.new)) }
    ensures schema { (view live.new).schema ≡ (view live.old).schema }
{
    rewind(live, past, past.groups().len())?;
    short_text(alloc)
}

/// What a request is answered.
fn reply(
    alloc: Global,
    live: &mut Live,
    past: &mut Past,
    limit: usize,
    tells_changes: bool,
    configured: &Option<Schema>,
    request: Request,
) -> Result<String, AllocError>
    requires { AreFit (view live.old).schema (past_view past.old) }
    ensures answer { IfOk result (λ text. Told tells_changes (configured_view configured.now) limit (view live.old) (past_view past.old)
        (request_view request) (string_bytes text) (view live.new) (past_view past.new)) }
    ensures stays { Stays (view live.old) (past_view past.old) (view live.new) (past_view past.new) }
    ensures memory { OnErr result (past_view past.new ≡ past_view past.old) }
{
    match request {
        Request::Change(edit) => change(alloc, live, past, limit, tells_changes, configured, edit),
        Request::Faults { behind, count } => page(alloc, live, configured, behind, count),
        Request::Below(path) => below(alloc, live, configured, &path),
        Request::Value(path) => value(alloc, live, &path),
        Request::Undo => undo(alloc, live, past, limit, tells_changes, configured),
        Request::Document => document(alloc, live),
        Request::Begin => begin(alloc, live, past, limit, tells_changes, configured),
        Request::Commit => commit(alloc, live, past, limit, tells_changes, configured),
        Request::Back => back(alloc, live, past, limit, tells_changes, configured),
        Request::Unserved => unserved_text(alloc),
    }
}
