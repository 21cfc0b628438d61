//! Which schemas documents can rest on.

ghost use Rattle.std.specs.Prelude.{◌≡◌, Ok};
ghost use Rattle.yspec.specs.Forest.{Forest};
ghost use Rattle.yspec.specs.text.Statement.{Statement};
ghost use Rattle.yspec.specs.schema.Schema.{Schema};
ghost use Rattle.yspec.specs.schema.Configuration.{configuration_schema};
ghost use Rattle.yspec.specs.linking.Compiling.{compiled};
ghost use Rattle.yspec_fit.specs.Fit.{IsFit};

/// Every schema that compiles is fit, and so is what a fit one asks of configuration alone.
pub fn fit_schemas()
    ensures compiled { (modules : Forest Statement) (schema : Schema) → compiled modules ≡ Ok schema → IsFit schema }
    ensures configuration { (schema : Schema) → IsFit schema → IsFit (configuration_schema schema) }
{}
