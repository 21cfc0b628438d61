//! What stands behind a backslash (XML Schema, part 2, appendix F.1.1).

ghost use Rattle.std.specs.Prelude.{◌≡◌, option_map};
ghost use Rattle.yspec_patterns.specs.Escapes as spec;
ghost use Rattle.yspec_patterns.specs.Sets as sets;
ghost use Rattle.ytype_patterns.specs.SymbolView.{escape_view, named_view, made_symbol};

use ucd_category::{GeneralCategory, GeneralCategoryGroup};

/// A set of characters that has a name.
#[derive(Clone, Copy, Debug)]
pub enum NamedSet {
    White,
    NameStarts,
    NameCharacters,
    Words,
    Category(GeneralCategory),
    Group(GeneralCategoryGroup),
}

/// A character or a set, and whether a backslash stood before it.
#[derive(Clone, Copy, Debug)]
pub enum Symbol {
    Sign(char),
    Escaped(char),
    Set { named: NamedSet, outside: bool },
}

/// What was read of an escape that hasn't ended.
#[derive(Clone, Copy, Debug)]
pub enum Escape {
    Nothing,
    Backslash,
    Property {
        outside: bool,
    },
    Brace {
        outside: bool,
    },
    OneLetter {
        outside: bool,
        first: char,
    },
    TwoLetters {
        outside: bool,
        first: char,
        second: char,
    },
}

/// The set that a letter names, and whether it is what lies outside of it.
fn set_of_letter(letter: char) -> Option<(NamedSet, bool)>
    ensures { option_map (λ s. spec.turned s.1 (named_view s.0)) result ≡ sets.set_of_letter letter }
{
    let digits = NamedSet::Category(GeneralCategory::DecimalNumber);
    match letter {
        'd' => Some((digits, false)),
        'D' => Some((digits, true)),
        's' => Some((NamedSet::White, false)),
        'S' => Some((NamedSet::White, true)),
        'i' => Some((NamedSet::NameStarts, false)),
        'I' => Some((NamedSet::NameStarts, true)),
        'c' => Some((NamedSet::NameCharacters, false)),
        'C' => Some((NamedSet::NameCharacters, true)),
        'w' => Some((NamedSet::Words, false)),
        'W' => Some((NamedSet::Words, true)),
        _ => None,
    }
}

fn character_escaped(letter: char) -> Option<char>
    ensures { result ≡ spec.character_escaped letter }
{
    match letter {
        'n' => Some('\n'),
        'r' => Some('\r'),
        't' => Some('\t'),
        '\\' | '|' | '.' | '-' | '^' | '?' | '*' | '+' | '{' | '}' | '(' | ')' | '[' | ']' => Some(
            letter,
        ),
        _ => None,
    }
}

fn group_named(letter: char) -> Option<GeneralCategoryGroup>
    ensures { result ≡ sets.group_named letter }
{
    match letter {
        'L' => Some(GeneralCategoryGroup::Letter),
        'M' => Some(GeneralCategoryGroup::Mark),
        'N' => Some(GeneralCategoryGroup::Number),
        'P' => Some(GeneralCategoryGroup::Punctuation),
        'Z' => Some(GeneralCategoryGroup::Separator),
        'S' => Some(GeneralCategoryGroup::Symbol),
        'C' => Some(GeneralCategoryGroup::Other),
        _ => None,
    }
}

fn letter_named(second: char) -> Option<GeneralCategory>
    ensures { result ≡ sets.letter_named second }
{
    match second {
        'u' => Some(GeneralCategory::UppercaseLetter),
        'l' => Some(GeneralCategory::LowercaseLetter),
        't' => Some(GeneralCategory::TitlecaseLetter),
        'm' => Some(GeneralCategory::ModifierLetter),
        'o' => Some(GeneralCategory::OtherLetter),
        _ => None,
    }
}

fn mark_named(second: char) -> Option<GeneralCategory>
    ensures { result ≡ sets.mark_named second }
{
    match second {
        'n' => Some(GeneralCategory::NonspacingMark),
        'c' => Some(GeneralCategory::SpacingMark),
        'e' => Some(GeneralCategory::EnclosingMark),
        _ => None,
    }
}

fn number_named(second: char) -> Option<GeneralCategory>
    ensures { result ≡ sets.number_named second }
{
    match second {
        'd' => Some(GeneralCategory::DecimalNumber),
        'l' => Some(GeneralCategory::LetterNumber),
        'o' => Some(GeneralCategory::OtherNumber),
        _ => None,
    }
}

fn punctuation_named(second: char) -> Option<GeneralCategory>
    ensures { result ≡ sets.punctuation_named second }
{
    match second {
        'c' => Some(GeneralCategory::ConnectorPunctuation),
        'd' => Some(GeneralCategory::DashPunctuation),
        's' => Some(GeneralCategory::OpenPunctuation),
        'e' => Some(GeneralCategory::ClosePunctuation),
        'i' => Some(GeneralCategory::InitialPunctuation),
        'f' => Some(GeneralCategory::FinalPunctuation),
        'o' => Some(GeneralCategory::OtherPunctuation),
        _ => None,
    }
}

fn separator_named(second: char) -> Option<GeneralCategory>
    ensures { result ≡ sets.separator_named second }
{
    match second {
        's' => Some(GeneralCategory::SpaceSeparator),
        'l' => Some(GeneralCategory::LineSeparator),
        'p' => Some(GeneralCategory::ParagraphSeparator),
        _ => None,
    }
}

fn symbol_named(second: char) -> Option<GeneralCategory>
    ensures { result ≡ sets.symbol_named second }
{
    match second {
        'm' => Some(GeneralCategory::MathSymbol),
        'c' => Some(GeneralCategory::CurrencySymbol),
        'k' => Some(GeneralCategory::ModifierSymbol),
        'o' => Some(GeneralCategory::OtherSymbol),
        _ => None,
    }
}

fn other_named(second: char) -> Option<GeneralCategory>
    ensures { result ≡ sets.other_named second }
{
    match second {
        'c' => Some(GeneralCategory::Control),
        'f' => Some(GeneralCategory::Format),
        'o' => Some(GeneralCategory::PrivateUse),
        'n' => Some(GeneralCategory::Unassigned),
        _ => None,
    }
}

fn category_named(first: char, second: char) -> Option<GeneralCategory>
    ensures { result ≡ sets.category_named first second }
{
    match first {
        'L' => letter_named(second),
        'M' => mark_named(second),
        'N' => number_named(second),
        'P' => punctuation_named(second),
        'Z' => separator_named(second),
        'S' => symbol_named(second),
        'C' => other_named(second),
        _ => None,
    }
}

fn behind_backslash(c: char) -> Option<(Option<Symbol>, Escape)>
    ensures { option_map made_symbol result ≡ spec.behind_backslash c }
{
    match c {
        'p' => Some((None, Escape::Property { outside: false })),
        'P' => Some((None, Escape::Property { outside: true })),
        _ => match set_of_letter(c) {
            Some((named, outside)) => Some((Some(Symbol::Set { named, outside }), Escape::Nothing)),
            None => Some((
                Some(Symbol::Escaped(character_escaped(c)?)),
                Escape::Nothing,
            )),
        },
    }
}

/// The symbol that a character ends, if it ends one, and what was read behind it; none where it can't stand there.
pub fn escape_step(escape: Escape, c: char) -> Option<(Option<Symbol>, Escape)>
    ensures { option_map made_symbol result ≡ spec.escape_step (escape_view escape) c }
{
    match escape {
        Escape::Nothing if c == '\\' => Some((None, Escape::Backslash)),
        Escape::Nothing => Some((Some(Symbol::Sign(c)), Escape::Nothing)),
        Escape::Backslash => behind_backslash(c),
        Escape::Property { outside } if c == '{' => Some((None, Escape::Brace { outside })),
        Escape::Property { .. } => None,
        Escape::Brace { outside } => Some((None, Escape::OneLetter { outside, first: c })),
        Escape::OneLetter { outside, first } if c == '}' => {
            let named = NamedSet::Group(group_named(first)?);
            Some((Some(Symbol::Set { named, outside }), Escape::Nothing))
        }
        Escape::OneLetter { outside, first } => Some((
            None,
            Escape::TwoLetters {
                outside,
                first,
                second: c,
            },
        )),
        Escape::TwoLetters {
            outside,
            first,
            second,
        } if c == '}' => {
            let named = NamedSet::Category(category_named(first, second)?);
            Some((Some(Symbol::Set { named, outside }), Escape::Nothing))
        }
        Escape::TwoLetters { .. } => None,
    }
}
