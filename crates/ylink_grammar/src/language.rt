//! The language in which modules are read (RFC 7950, 1.1, 7.5.3, 7.20.1 and 7.21.5).

/// The features of a module that are chosen.
#[derive(Debug, Drop)]
pub struct Choosing {
    pub module_name: String,
    pub features: Vec<String>,
}

/// Which conditions are read and not judged: `must`, and `when` (RFC 7950, 7.5.3 and 7.21.5).
#[derive(Clone, Copy, Debug)]
pub struct Unjudged {
    pub musts: bool,
    pub whens: bool,
}

impl Unjudged {
    ghost use Rattle.std.specs.Prelude.{◌≡◌, ◌||◌};

    /// Whether one of both isn't judged.
    pub fn is_any(self) -> bool
        ensures { result ≡ (self.musts || self.whens) }
    {
        self.musts || self.whens
    }
}

/// What is chosen of the wide language: features, of each module that is named, where of any other all are; and conditions that
/// aren't judged.
#[derive(Debug, Drop)]
pub struct Wide {
    pub choosings: Vec<Choosing>,
    pub unjudged: Unjudged,
}

/// The language in which modules are read.
#[derive(Debug, Drop)]
pub enum Language {
    /// YANG 1.1 without features.
    Core,
    /// YANG 1 and YANG 1.1.
    Rfc(Wide),
}

impl Language {
    ghost use Rattle.std.specs.Prelude.{◌≡◌, map};
    ghost use Rattle.yspec_wide.specs.Language as languages;
    ghost use Rattle.yspec_wide.specs.Texts as spec;
    ghost use Rattle.ylink_grammar.specs.LanguageView.{choosing_view, language_view};

    /// The wide language with features alone.
    pub fn rfc_with(choosings: Vec<Choosing>) -> Language
        ensures { language_view result ≡ languages.rfc_with (map choosing_view choosings.items) }
    {
        Language::Rfc(Wide {
            choosings,
            unjudged: Unjudged {
                musts: false,
                whens: false,
            },
        })
    }

    /// Whether each text is read by the version that it states (RFC 6020, 6.1.3; RFC 7950, 6.1.3).
    pub fn reads_versions(&self) -> bool
        ensures { result ≡ spec.reads_versions (language_view self.now) }
    {
        matches!(self, Language::Rfc(_))
    }
}
