//! Where positions turn.

ghost use Rattle.std.specs.Prelude.{◌≡◌, IfOk, Some};
ghost use Rattle.yspec_session.specs.Carrying as carrying;

use std::alloc::AllocError;
use yinst::Spot;
use yschema_model::SchemaId;

/// What the positions of entries or items turn to.
#[derive(Clone, Copy, Debug, PartialEq, Eq)]
pub enum Positions {
    /// One is gone, and those behind it close up.
    ClosedUp(usize),
    /// One comes, and those from there on make room.
    MadeRoom(usize),
    /// One is put to another.
    Turned { from: usize, to: usize },
}

/// Where positions turn: among the instances of a schema node in the row to which steps lead.
#[derive(Debug, Drop)]
pub struct Turn {
    pub above: Vec<Spot>,
    pub id: SchemaId,
    pub positions: Positions,
}

impl Positions {
    ghost use Rattle.std.specs.Prelude.{◌≡◌, IfOk};
    ghost use Rattle.yapp_difference.specs.Turning.{positions_view};

    /// What a position turns to; nothing where what stands there is gone. One that is more than a number holds is told as want of
    /// memory is.
    pub(crate) fn behind(self, position: usize) -> Result<Option<usize>, AllocError>
        ensures { IfOk result (λ behind. behind ≡ positions_view self position) }
    {
        match self {
            Positions::ClosedUp(gone) => Ok(closed_up(gone, position)),
            Positions::MadeRoom(to) => Ok(Some(made_room(to, position)?)),
            Positions::Turned { from, to } => Ok(Some(turned(from, to, position)?)),
        }
    }
}

fn closed_up(gone: usize, position: usize) -> Option<usize>
    ensures { result ≡ carrying.closed_up gone position }
{
    if position == gone {
        None
    } else if gone < position {
        Some(position - 1)
    } else {
        Some(position)
    }
}

fn made_room(to: usize, position: usize) -> Result<usize, AllocError>
    ensures { IfOk result (λ behind. behind ≡ carrying.made_room to position) }
{
    if position < to {
        Ok(position)
    } else if position < usize::MAX {
        Ok(position + 1)
    } else {
        Err(AllocError)
    }
}

fn turned(from: usize, to: usize, position: usize) -> Result<usize, AllocError>
    ensures { IfOk result (λ behind. Some behind ≡ carrying.turned from to position) }
{
    match closed_up(from, position) {
        Some(position) => made_room(to, position),
        None => Ok(to),
    }
}
