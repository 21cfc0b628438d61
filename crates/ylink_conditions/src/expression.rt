//! Expressions of features.

use std::alloc::AllocError;
use ylink_arguments::Name;

/// A version of YANG.
#[derive(Clone, Copy, Debug)]
pub enum YangVersion {
    /// That of RFC 6020.
    Yang1,
    /// That of RFC 7950.
    Yang1_1,
}

/// An expression of features, as an `if-feature` states one.
#[derive(Debug, Drop)]
pub enum Expression<'t> {
    /// A feature is on.
    Feature(Name<'t>),
    /// An expression doesn't hold.
    Not(Box<Expression<'t>>),
    /// Both of two expressions hold.
    Both(Box<Expression<'t>>, Box<Expression<'t>>),
    /// One of two expressions holds, or both do.
    OneOf(Box<Expression<'t>>, Box<Expression<'t>>),
}

impl<'t> Expression<'t> {
    ghost use Rattle.std.specs.Prelude.{◌≡◌, ◌++◌, OnOk};
    ghost use Rattle.ylink_arguments.specs.NameView.{names_view};
    ghost use Rattle.ylink_conditions.specs.View.{expression_view};
    ghost use Rattle.yspec_wide.specs.Expressions as spec;

    /// Adds the names of the features in it, in their order.
    pub fn add_names(&self, names: &mut Vec<Name<'t>>) -> Result<(), AllocError>
        ensures { OnOk result (names_view names.new.items
            ≡ names_view names.old.items ++ spec.names_in (expression_view self.now)) }
    {
        match self {
            Expression::Feature(name) => Ok(names.push(*name)?),
            Expression::Not(inner) => inner.add_names(names),
            Expression::Both(first, second) | Expression::OneOf(first, second) => {
                first.add_names(names)?;
                second.add_names(names)
            }
        }
    }
}
