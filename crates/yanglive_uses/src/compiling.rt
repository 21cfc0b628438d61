//! From texts to a schema.

ghost use Rattle.std.specs.Prelude.{◌≡◌, map};
ghost use Rattle.yspec.specs.Forest.{end};
ghost use Rattle.yspec.specs.Results.{Gives};
ghost use Rattle.ytext.specs.View.{modules_view};
ghost use Rattle.yschema.specs.View.{view};
ghost use Rattle.yanglive_uses.specs.Compiling.{read_behind, schema_of, told_by};
ghost use Rattle.yanglive_uses.specs.declared.compiling.Uncompiled.TheVariants.{Memory};

use std::alloc::{AllocFailed, Global};
use thiserror::Error;
use yschema::{CompileFault, Schema, compile};
use ytext::{Module, TextFault, parse};

/// Why texts aren't compiled.
#[derive(Clone, Copy, Debug, PartialEq, Eq, Error)]
pub enum Uncompiled {
    /// A text isn't read: its number, from 0, and what is wrong in which line.
    #[error("text {number}: {fault}")]
    Text { number: usize, fault: TextFault },
    /// The set of all texts breaks a rule, at a line of one of them.
    #[error(transparent)]
    Modules(CompileFault),
    #[error("memory")]
    Memory,
}

impl<T: Drop> From<AllocFailed<T>> for Uncompiled {
    ghost from_gives = { λ _ e. e ≡ Memory };

    fn from(_e: AllocFailed<T>) -> Uncompiled {
        Uncompiled::Memory
    }
}

/// The statements of some texts, in order, or the first text that is refused.
pub fn parse_all(alloc: Global, texts: &[&[u8]]) -> Result<Vec<Module>, Uncompiled>
    ensures { Gives (λ read. modules_view read.items) told_by result
        (read_behind end 0 (map (λ t. t.now) texts.now)) }
{
    let mut modules = Vec::new(alloc);
    for text in texts {
        match parse(alloc, *text) {
            Ok(module) => modules.push(module)?,
            Err(fault) => {
                let number = modules.len();
                return Err(Uncompiled::Text { number, fault });
            }
        }
    }
    Ok(modules)
}

/// The schema of some texts of modules, or which text is refused in which line.
pub fn compile_texts(alloc: Global, texts: &[&[u8]]) -> Result<Schema, Uncompiled>
    ensures { Gives view told_by result (schema_of (map (λ t. t.now) texts.now)) }
{
    match parse_all(alloc, texts) {
        Ok(modules) => match compile(alloc, &modules) {
            Ok(schema) => Ok(schema),
            Err(fault) => Err(Uncompiled::Modules(fault)),
        },
        Err(fault) => Err(fault),
    }
}
