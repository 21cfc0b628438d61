//! What is said of names in modules that mean nothing.
#![tactic(auto)]

mod keys;
mod named;
mod prefixes;
mod rows;

pub use keys::{children, defines_node, is_child, key_sentence};
pub use named::{
    arguments_called, built_in_names, module_meant, module_named, name_given, name_sentence,
    prefix_given, with_prefix,
};
pub use prefixes::{is_among, prefix_sentence};
pub use rows::{all_statements, has_word, is_named, is_word, only_called};
