//! The statements of modules: the table of what each takes and what breaks it, and the statements of a set in a table of their
//! own.
#![tactic(auto)]

mod added;
mod adding;
mod counted;
mod fault;
mod form;
mod grammar;
mod language;
mod refining;
mod row;
mod rules;
mod source;
mod sources;
mod table;
mod word;

pub use added::{
    is_action, is_anydata, is_anyxml, is_augment, is_call, is_condition, is_feature, is_guard,
    is_notification, is_operation, is_operation_part, is_pattern, is_when,
};
pub use counted::miscounted_in;
pub use fault::{BrokenRule, CompileCode, least, least_when};
pub use form::{Form, WideForm};
pub use grammar::{
    broken, broken_statement_rule_in, form_below, has_fitting_argument, version_below,
};
pub use language::{Choosing, Language, Unjudged, Wide};
pub use refining::may_bear;
pub use row::{argument_of, argument_with, first_with, found_with};
pub use source::{Source, Stated};
pub use sources::Sources;
pub use word::{Word, word_named};
