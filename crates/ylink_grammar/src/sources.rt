//! The statements that linking stands on: those of the table, each with its keyword.

ghost use Rattle.ybase_preorder.specs.Layout.{IsLaidOut};
ghost use Rattle.ybase_preorder.specs.View.{slots_in};

use crate::adding::{add_statement, may_restrict};
use crate::language::Language;
use crate::source::Source;
use std::alloc::{AllocError, Global};
use ybase_preorder::{Siblings, Slot, Table};
use ytext::Module;

/// The statements of a set of modules that a compiler looks at, in preorder: each of the table, but for `extension`.
#[derive(Drop)]
pub struct Sources<'a> {
    table: Table<Source<'a>>,
    ghost laid_out: { IsLaidOut (slots_in table) },
}

impl<'a> Sources<'a> {
    ghost use Rattle.std.specs.Prelude.{◌≡◌, ◌+◌, IfOk, Some, None, slice_get, take, drop};
    ghost use Rattle.yspec.specs.Forest.{end};
    ghost use Rattle.yspec_wide.specs.Sources.{sources_in};
    ghost use Rattle.ybase_preorder.specs.Layout.{forest_of, numbered_by};
    ghost use Rattle.ytext.specs.View.{modules_view};
    ghost use Rattle.ybase_preorder.specs.View.{row_by, slots_in};
    ghost use Rattle.ylink_grammar.specs.LanguageView.{language_view};
    ghost use Rattle.ylink_grammar.specs.SourceView.{source_view};
    ghost use Rattle.ylink_grammar.specs.LinkView.{view, wholes};
    ghost use Rattle.ylink_grammar.specs.Wholes.{wholes_in};

    /// The statements of some modules in a language.
    pub fn of_in(
        alloc: Global,
        language: &Language,
        modules: &'a [Module],
    ) -> Result<Sources<'a>, AllocError>
        ensures numbered { IfOk result (λ sources. view sources
            ≡ sources_in (language_view language.now) (modules_view modules.entry.now)) }
        ensures whole { IfOk result (λ sources. wholes sources
            ≡ wholes_in (language_view language.now) (modules_view modules.entry.now)) }
    {
        let mut table = Table::new(alloc);
        for (home, module) in modules.iter().enumerate() {
            let may = may_restrict(language, &module.top);
            add_statement(language, &mut table, None, home, may, false, &module.top)?;
        }
        Ok(Sources { table })
    }

    /// The `module` statements, in order.
    pub fn modules(&self) -> Siblings<'_, Source<'a>>
        ensures { row_by source_view result ≡ view self.now }
    {
        self.table.roots()
    }

    /// The statements right below that of a number, in order; none of a number that none has.
    pub fn below(&self, number: u32) -> Siblings<'_, Source<'a>>
        ensures row { (r : Slot Source) → slice_get (slots_in self.now.table) number ≡ Some r
            → row_by source_view result ≡ numbered_by source_view (number + 1)
            (forest_of (take r.below (drop (number + 1) (slots_in self.now.table)))) }
        ensures none { slice_get (slots_in self.now.table) number ≡ None
            → row_by source_view result ≡ end }
    {
        self.table.children(number)
    }

    /// All statements, as they lie in the table.
    pub fn slots(&self) -> &[Slot<Source<'a>>]
        ensures { result.now ≡ slots_in self.now.table }
    {
        self.table.slots()
    }
}
