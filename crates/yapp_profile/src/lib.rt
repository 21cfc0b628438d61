//! In which language the words of a command line ask for modules to be read: a profile, features of modules, and conditions that
//! aren't judged.
#![tactic(auto)]

mod language;

pub use language::{
    chooses_in_core, is_profile, language_in, passes_in_core, profile_in, unfit_choosing_in,
    unfit_unjudged_in,
};
