//! A document after the lines of a script, which knows its faults.

ghost use Rattle.std.specs.Prelude.{◌≡◌, false};
ghost use Rattle.ylive.specs.View as live_view;

use yapp_script::RefusedLine;
use ylive::{Live, Walk};

/// A live document after the lines of a script, with those that were refused. It isn't stale.
#[derive(Drop)]
pub struct EditedDocument {
    pub live: Live,
    pub refused: Vec<RefusedLine>,
    /// The name of the script, where its lines are told as an editor jumps to them.
    pub script: Option<String>,
    pub ghost fresh: { (live_view.view live).is_stale ≡ false },
}

impl EditedDocument {
    ghost use Rattle.std.specs.Prelude.{◌≡◌};
    ghost use Rattle.yspec.specs.edit.Live.{fault_count, faults_in};
    ghost use Rattle.ylive_list.specs.Walked.{left};
    ghost use Rattle.yapp_report.specs.EditedView.{live_of};

    /// How many faults it has.
    pub fn fault_count(&self) -> usize
        ensures { result ≡ fault_count (live_of self.now) }
    {
        self.live.fault_count().unwrap()
    }

    /// A walk over its faults.
    pub fn walk(&self) -> Walk<'_>
        ensures { left result ≡ faults_in (live_of self.now) }
    {
        self.live.walk().unwrap()
    }
}
