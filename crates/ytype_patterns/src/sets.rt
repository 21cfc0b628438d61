//! Sets of characters as classes of the engine (XML Schema, part 2, appendix F.1).

ghost use Rattle.std.specs.Prelude.{◌≡◌, IfOk};
ghost use Rattle.regex_class.specs.Ranges.{in_ranges};
ghost use Rattle.yspec_patterns.specs.Escapes as escapes;
ghost use Rattle.yspec_patterns.specs.Sets as spec;
ghost use Rattle.ytype_patterns.specs.SymbolView.{categories_within, named_view};

use crate::symbols::NamedSet;
use regex_class::{Class, MAX};
use std::alloc::{AllocError, Global};
use ucd_category::{GeneralCategory, GeneralCategoryGroup};

/// The characters of two classes.
fn either(first: &Class, second: &Class) -> Result<Class, AllocError>
    ensures { IfOk result (λ class. in_ranges class.ranges.items
        ≡ spec.any_of (in_ranges first.now.ranges.items) (in_ranges second.now.ranges.items)) }
{
    first.union(second)
}

fn outside(class: &Class) -> Result<Class, AllocError>
    ensures { IfOk result (λ outside. in_ranges outside.ranges.items ≡ spec.outside (in_ranges class.now.ranges.items)) }
{
    class.negate(MAX)
}

/// The characters of one class that the other hasn't.
pub fn without(outer: &Class, inner: &Class) -> Result<Class, AllocError>
    ensures { IfOk result (λ class. in_ranges class.ranges.items
        ≡ spec.without (in_ranges outer.now.ranges.items) (in_ranges inner.now.ranges.items)) }
{
    outer.difference(inner)
}

/// The characters from one to another, both among them.
pub fn within(alloc: Global, low: char, high: char) -> Result<Class, AllocError>
    ensures { IfOk result (λ class. in_ranges class.ranges.items ≡ spec.within low high) }
{
    Class::from_ranges(alloc, &[(low as u32, high as u32)])
}

/// The characters of the categories with these numbers.
fn of_categories(alloc: Global, first: u32, last: u32) -> Result<Class, AllocError>
    ensures { IfOk result (λ class. in_ranges class.ranges.items ≡ categories_within first last) }
{
    let ranges = ucd_table::ranges(alloc, GeneralCategory::runs(), first, last)?;
    Class::new(ranges)
}

fn category_class(alloc: Global, category: GeneralCategory) -> Result<Class, AllocError>
    ensures { IfOk result (λ class. in_ranges class.ranges.items ≡ spec.of_category category) }
{
    let number = category.number();
    of_categories(alloc, number, number)
}

fn group_class(alloc: Global, group: GeneralCategoryGroup) -> Result<Class, AllocError>
    ensures { IfOk result (λ class. in_ranges class.ranges.items ≡ spec.of_group group) }
{
    let (first, last) = group.bounds();
    of_categories(alloc, first, last)
}

fn white(alloc: Global) -> Result<Class, AllocError>
    ensures { IfOk result (λ class. in_ranges class.ranges.items ≡ spec.white) }
{
    let ends = either(&within(alloc, '\r', '\r')?, &within(alloc, ' ', ' ')?)?;
    either(&within(alloc, '\t', '\n')?, &ends)
}

/// Any character but a line feed and a carriage return.
pub(crate) fn wildcard(alloc: Global) -> Result<Class, AllocError>
    ensures { IfOk result (λ class. in_ranges class.ranges.items ≡ spec.wildcard) }
{
    outside(&either(&within(alloc, '\n', '\n')?, &within(alloc, '\r', '\r')?)?)
}

fn words(alloc: Global) -> Result<Class, AllocError>
    ensures { IfOk result (λ class. in_ranges class.ranges.items ≡ spec.words) }
{
    let punctuation = group_class(alloc, GeneralCategoryGroup::Punctuation)?;
    let separators = group_class(alloc, GeneralCategoryGroup::Separator)?;
    let others = group_class(alloc, GeneralCategoryGroup::Other)?;
    let rest = either(&separators, &others)?;
    outside(&either(&punctuation, &rest)?)
}

fn cased_letters(alloc: Global) -> Result<Class, AllocError>
    ensures { IfOk result (λ class. in_ranges class.ranges.items
        ≡ spec.any_of (spec.of_category GeneralCategory.UppercaseLetter) (spec.of_category GeneralCategory.LowercaseLetter)) }
{
    let upper = category_class(alloc, GeneralCategory::UppercaseLetter)?;
    let lower = category_class(alloc, GeneralCategory::LowercaseLetter)?;
    either(&upper, &lower)
}

fn uncased_letters(alloc: Global) -> Result<Class, AllocError>
    ensures { IfOk result (λ class. in_ranges class.ranges.items
        ≡ spec.any_of (spec.of_category GeneralCategory.TitlecaseLetter)
        (spec.any_of (spec.of_category GeneralCategory.OtherLetter) (spec.of_category GeneralCategory.LetterNumber))) }
{
    let title = category_class(alloc, GeneralCategory::TitlecaseLetter)?;
    let others = category_class(alloc, GeneralCategory::OtherLetter)?;
    let numbers = category_class(alloc, GeneralCategory::LetterNumber)?;
    let rest = either(&others, &numbers)?;
    either(&title, &rest)
}

fn name_starts(alloc: Global) -> Result<Class, AllocError>
    ensures { IfOk result (λ class. in_ranges class.ranges.items ≡ spec.name_starts) }
{
    let signs = either(&within(alloc, ':', ':')?, &within(alloc, '_', '_')?)?;
    let letters = either(&cased_letters(alloc)?, &uncased_letters(alloc)?)?;
    either(&signs, &letters)
}

fn name_signs(alloc: Global) -> Result<Class, AllocError>
    ensures { IfOk result (λ class. in_ranges class.ranges.items ≡ spec.any_of (spec.within 45 46) (spec.just 0xB7)) }
{
    either(
        &within(alloc, '-', '.')?,
        &within(alloc, '\u{B7}', '\u{B7}')?,
    )
}

fn name_letters(alloc: Global) -> Result<Class, AllocError>
    ensures { IfOk result (λ class. in_ranges class.ranges.items
        ≡ spec.any_of (spec.any_of spec.digits (spec.of_category GeneralCategory.ModifierLetter)) (spec.of_group GeneralCategoryGroup.Mark)) }
{
    let digits = category_class(alloc, GeneralCategory::DecimalNumber)?;
    let letters = category_class(alloc, GeneralCategory::ModifierLetter)?;
    let marks = group_class(alloc, GeneralCategoryGroup::Mark)?;
    let numbered = either(&digits, &letters)?;
    either(&numbered, &marks)
}

fn name_characters(alloc: Global) -> Result<Class, AllocError>
    ensures { IfOk result (λ class. in_ranges class.ranges.items ≡ spec.name_characters) }
{
    let starts = name_starts(alloc)?;
    let rest = either(&name_signs(alloc)?, &name_letters(alloc)?)?;
    either(&starts, &rest)
}

fn named_class(alloc: Global, named: NamedSet) -> Result<Class, AllocError>
    ensures { IfOk result (λ class. in_ranges class.ranges.items ≡ named_view named) }
{
    match named {
        NamedSet::White => white(alloc),
        NamedSet::NameStarts => name_starts(alloc),
        NamedSet::NameCharacters => name_characters(alloc),
        NamedSet::Words => words(alloc),
        NamedSet::Category(category) => category_class(alloc, category),
        NamedSet::Group(group) => group_class(alloc, group),
    }
}

/// A class, or what lies outside of it.
pub(crate) fn turned(is_outside: bool, class: Class) -> Result<Class, AllocError>
    ensures { IfOk result (λ turned. in_ranges turned.ranges.items ≡ escapes.turned is_outside (in_ranges class.ranges.items)) }
{
    if is_outside {
        outside(&class)
    } else {
        Ok(class)
    }
}

/// The class of a set by its name, or of what lies outside of it.
pub fn class_of(alloc: Global, named: NamedSet, is_outside: bool) -> Result<Class, AllocError>
    ensures { IfOk result (λ class. in_ranges class.ranges.items ≡ escapes.turned is_outside (named_view named)) }
{
    turned(is_outside, named_class(alloc, named)?)
}
