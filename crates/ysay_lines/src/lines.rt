//! Where in a text the value of a node stands.

ghost use Rattle.std.specs.Prelude.{◌≡◌, IfOk, List, None};
ghost use Rattle.json.specs.Value.{value_view};
ghost use Rattle.yspec.specs.document.Document.{Step as SpecStep};
ghost use Rattle.yschema_model.specs.View.{view};
ghost use Rattle.yinst_tree.specs.View.{place_view};
ghost use Rattle.ysay_lines.specs.Found.{found_in};
ghost use Rattle.ysay_lines.specs.Lines.{at_line, found, place_in, token_places};

use crate::located::{Located, from_value};
use crate::place::{Place, TOP, token_places};
use crate::reading::locate;
use json::{Error, Scratch, Value};
use std::alloc::{AllocError, Global};
use yinst_tree::Step;
use yschema_model::Schema;

/// Where in a text the values of nodes stand.
#[derive(Drop)]
pub struct Lines {
    top: Located,
}

/// Those of a text that is this value.
fn lines_of<'a>(
    alloc: Global,
    schema: &Schema,
    bytes: &[u8],
    value: &Value<'a>,
) -> Result<Lines, AllocError>
    ensures { IfOk result (λ lines. (place : List SpecStep) → found_in lines place
        ≡ found (view schema.now) None place (value_view value.now) (token_places bytes.now)) }
{
    let places = token_places(alloc, bytes)?;
    let (top, _) = locate(alloc, schema, None, value, &places)?;
    Ok(Lines { top })
}

/// Those of a text that is no value.
fn no_lines() -> Lines
    ensures { (place : List SpecStep) → found_in result place ≡ at_line 1 1 }
{
    Lines {
        top: Located::Single(TOP),
    }
}

impl Lines {
    /// Those of a text, by one walk over it.
    pub fn read(alloc: Global, schema: &Schema, bytes: &[u8]) -> Result<Lines, AllocError>
        ensures { IfOk result (λ lines. (place : List SpecStep) → found_in lines place
            ≡ place_in (view schema.now) bytes.now place) }
    {
        let mut scratch = Scratch::new(alloc);
        match Value::from_slice(alloc, bytes, &mut scratch) {
            Ok(value) => lines_of(alloc, schema, bytes, &value),
            Err(error) if error == Error::OutOfMemory => Err(AllocError),
            Err(_) => Ok(no_lines()),
        }
    }

    /// Where the value stands to which a place leads: of an absent node that which lacks it; of a text that is no value its
    /// beginning.
    pub fn get(&self, place: &[Step]) -> Place
        ensures { result ≡ found_in self.now (place_view place.now) }
    {
        from_value(&self.top, place)
    }
}
