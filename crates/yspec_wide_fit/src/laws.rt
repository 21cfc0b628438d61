//! Laws of schemas that compile in a language.

ghost use Rattle.std.specs.Prelude.{◌≡◌, Ok};
ghost use Rattle.yspec.specs.Forest.{Forest};
ghost use Rattle.yspec.specs.text.Statement.{Statement};
ghost use Rattle.yspec.specs.schema.Schema.{Schema};
ghost use Rattle.yspec.specs.document.Fitting.{IsNumbered};
ghost use Rattle.yspec_wide.specs.Language.{Language};
ghost use Rattle.yspec_wide.specs.Compiling.{compiled_in};
ghost use Rattle.yspec_fit.specs.Fit.{IsFit};

/// In any language every schema that compiles is fit, and its nodes are numbered from 0 on.
pub fn schemas_in_a_language()
    ensures fit { (language : Language) (modules : Forest Statement) (schema : Schema) → compiled_in language modules ≡ Ok schema → IsFit schema }
    ensures numbered { (language : Language) (modules : Forest Statement) (schema : Schema) → compiled_in language modules ≡ Ok schema → IsNumbered 0 schema.nodes }
{}
