//! Why a set of modules isn't compiled.

ghost use Rattle.ylink.specs.declared.fault.CompileFault.TheVariants.{Memory, Refused};

use std::alloc::AllocError;
use thiserror::Error;
use ylink_grammar::{BrokenRule, CompileCode};

/// Why a set of modules isn't compiled: the rule, the module by its number in the set, and the line, counted from 1.
#[derive(Clone, Copy, Debug, PartialEq, Eq, Error)]
pub enum CompileFault {
    #[error("{code}")]
    Refused {
        code: CompileCode,
        module: usize,
        line: u32,
    },
    #[error("memory")]
    Memory,
}

impl From<AllocError> for CompileFault {
    ghost use Rattle.std.specs.Prelude.{◌≡◌};

    ghost from_gives = { λ _ e. e ≡ Memory };

    fn from(_e: AllocError) -> CompileFault {
        CompileFault::Memory
    }
}

impl From<BrokenRule> for CompileFault {
    ghost use Rattle.std.specs.Prelude.{◌≡◌};

    ghost from_gives = { λ broken e. e ≡ Refused broken.code broken.«module» broken.line };

    fn from(broken: BrokenRule) -> CompileFault {
        CompileFault::Refused {
            code: broken.code,
            module: broken.module,
            line: broken.line,
        }
    }
}
