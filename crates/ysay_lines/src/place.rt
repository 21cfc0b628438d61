//! Lines and columns of a text.

ghost use Rattle.std.specs.Prelude.{◌≡◌, ◌<◌, ◌^◌, ◌++◌, ◌∷◌, [], if◌then◌else◌, IfOk, OnOk};
ghost use Rattle.ysay_lines.specs.Found.{next_place};
ghost use Rattle.ysay_lines.specs.Lines as spec;

use crate::start::{Mode, begins, behind};
use std::alloc::{AllocError, Global};

/// A byte of a text: its line, and its place among the bytes of the line, each from 1.
#[derive(Clone, Copy, Debug, PartialEq, Eq)]
pub struct Place {
    pub line: usize,
    pub column: usize,
}

/// The first byte of a text.
pub(crate) const TOP: Place = Place { line: 1, column: 1 };

/// The place behind a byte that stands at one.
fn next_place(here: Place, byte: u8) -> Place
    requires line { here.line < 2 ^ 63 }
    requires column { here.column < 2 ^ 63 }
    ensures { result ≡ next_place here byte }
{
    if byte == b'\n' {
        Place {
            line: here.line + 1,
            column: 1,
        }
    } else {
        Place {
            line: here.line,
            column: here.column + 1,
        }
    }
}

/// Adds a place, if a token begins there.
fn add_start(places: &mut Vec<Place>, here: Place, is_start: bool) -> Result<(), AllocError>
    ensures { OnOk result (places.new.items
        ≡ places.old.items ++ (if is_start then here ∷ [] else [])) }
{
    if is_start {
        places.push(here)?;
    }
    Ok(())
}

/// The places at which the tokens of a text begin.
pub(crate) fn token_places(alloc: Global, bytes: &[u8]) -> Result<Vec<Place>, AllocError>
    ensures { IfOk result (λ places. places.items ≡ spec.token_places bytes.now) }
{
    let mut places = Vec::new(alloc);
    let mut mode = Mode::Between;
    let mut here = TOP;
    for byte in bytes {
        add_start(&mut places, here, begins(mode, *byte))?;
        mode = behind(mode, *byte);
        here = next_place(here, *byte);
    }
    Ok(places)
}
