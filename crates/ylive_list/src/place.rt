//! Steps to a node, in a table of fixed size.

ghost use Rattle.std.specs.Prelude.{◌≡◌, ◌≤◌, length};

use yinst_tree::Step;
use yschema_model::SchemaId;

/// Steps to a node: at most as many as a schema has levels to one that is stored, and from there to one that isn't.
#[derive(Clone, Copy)]
pub struct Place {
    table: [Step; 120],
    count: usize,
    ghost counted: { count ≤ 120 },
    ghost sized: { length table ≡ 120 },
}

impl Place {
    ghost use Rattle.std.specs.Prelude.{◌≡◌, ◌<◌, ◌+◌, ◌++◌, ◌∷◌, []};
    ghost use Rattle.ylive_list.specs.Seen.{steps_in};

    /// No step.
    pub(crate) fn top() -> Place
        ensures steps { steps_in result ≡ [] }
        ensures count { result.count ≡ 0 }
    {
        let step = Step {
            id: SchemaId(0),
            position: None,
        };
        Place {
            table: [step; 120],
            count: 0,
        }
    }

    /// Adds a step further down.
    pub(crate) fn enter(&mut self, step: Step)
        requires { self.old.count < 120 }
        ensures steps { steps_in self.new ≡ steps_in self.old ++ step ∷ [] }
        ensures count { self.new.count ≡ self.old.count + 1 }
    {
        self.table[self.count] = step;
        self.count += 1;
    }

    /// The steps, from the top down.
    pub fn steps(&self) -> &[Step]
        ensures { result.now ≡ steps_in self.now }
    {
        &self.table[..self.count]
    }
}
