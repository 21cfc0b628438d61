//! What the arguments of statements spell: names, paths, numbers and ranges.
#![tactic(auto)]

mod cut;
mod name;
mod number;
mod span;

pub use name::{
    Name, absolute_path, key_names, leafref_path, name_of, relative_path, unique_paths,
};
pub use number::{count, enum_value, fraction_digits, max_elements};
pub use span::spans;
