//! How often a piece stands (XML Schema, part 2, appendix F).

ghost use Rattle.std.specs.Prelude.{◌≡◌, ◌+◌, ◌*◌, ◌≤◌, IfOk, IfSome, Some, None, option_map};
ghost use Rattle.regex_class.specs.Ranges.{in_ranges};
ghost use Rattle.yspec_patterns.specs.Limits as limits;
ghost use Rattle.yspec_patterns.specs.Quantities as spec;
ghost use Rattle.yspec_patterns.specs.Sets as sets;
ghost use Rattle.ytype_patterns.specs.ClassView.{item_view};
ghost use Rattle.ytype_patterns.specs.PartView.{before_view, counting_view, made_part, mark_view, once_view, sign_view, times_view, token_view};

use crate::classes::Item;
use crate::limits::bounded;
use crate::sets::{wildcard, within};
use crate::times::Times;
use regex_class::Class;
use std::alloc::{AllocError, Global};

/// What a pattern is built of.
#[derive(Debug, Drop)]
pub enum Token {
    OpenGroup,
    CloseGroup,
    Bar,
    Atom(Class),
}

/// A token, and how often it stands where it is said.
#[derive(Debug, Drop)]
pub struct Part {
    pub token: Token,
    pub times: Option<Times>,
}

/// What was read last of quantities.
#[derive(Debug, Drop)]
pub enum Counting {
    /// A token that may be repeated, or none.
    Behind(Option<Token>),
    LeastDue(Token),
    Least { token: Token, least: u32 },
    MostDue { token: Token, least: u32 },
    Most { token: Token, least: u32, most: u32 },
}

/// What stands outside of classes.
#[derive(Debug, Drop)]
enum Sign {
    Token(Token),
    Quantity(Times),
    OpenBrace,
    Misplaced,
}

/// What may stand in the braces of a quantity.
#[derive(Clone, Copy, Debug)]
enum Mark {
    Digit(u32),
    Comma,
    CloseBrace,
    Other,
}

fn sign_of_character(alloc: Global, c: char) -> Result<Sign, AllocError>
    ensures { IfOk result (λ sign. sign_view sign ≡ spec.sign_of_character c) }
{
    match c {
        '(' => Ok(Sign::Token(Token::OpenGroup)),
        ')' => Ok(Sign::Token(Token::CloseGroup)),
        '|' => Ok(Sign::Token(Token::Bar)),
        '.' => Ok(Sign::Token(Token::Atom(wildcard(alloc)?))),
        '?' => Ok(Sign::Quantity(Times {
            least: 0,
            most: Some(1),
        })),
        '*' => Ok(Sign::Quantity(Times {
            least: 0,
            most: None,
        })),
        '+' => Ok(Sign::Quantity(Times {
            least: 1,
            most: None,
        })),
        '{' => Ok(Sign::OpenBrace),
        '}' | ']' => Ok(Sign::Misplaced),
        _ => Ok(Sign::Token(Token::Atom(within(alloc, c, c)?))),
    }
}

fn sign_of(alloc: Global, item: Item) -> Result<Sign, AllocError>
    ensures { IfOk result (λ sign. sign_view sign ≡ spec.sign_of (item_view item)) }
{
    match item {
        Item::Sign(c) => sign_of_character(alloc, c),
        Item::Set(class) => Ok(Sign::Token(Token::Atom(class))),
    }
}

fn mark_of_character(c: char) -> Mark
    ensures { mark_view result ≡ spec.mark_of_character c }
{
    match c {
        '0'..='9' => Mark::Digit(c as u32 - '0' as u32),
        ',' => Mark::Comma,
        '}' => Mark::CloseBrace,
        _ => Mark::Other,
    }
}

fn mark_of(item: &Item) -> Mark
    ensures { mark_view result ≡ spec.mark_of (item_view item.now) }
{
    match item {
        Item::Sign(c) => mark_of_character(*c),
        Item::Set(_) => Mark::Other,
    }
}

/// What can be repeated: a group or a set.
fn repeatable(before: Option<Token>) -> Option<Token>
    ensures { before_view result ≡ spec.repeatable (before_view before) }
{
    match before? {
        Token::CloseGroup => Some(Token::CloseGroup),
        Token::Atom(class) => Some(Token::Atom(class)),
        Token::OpenGroup | Token::Bar => None,
    }
}

pub(crate) fn once(before: Option<Token>) -> Option<Part>
    ensures { once_view result ≡ option_map spec.once (before_view before) }
{
    match before {
        None => None,
        Some(token) => Some(Part { token, times: None }),
    }
}

fn repeated(token: Token, least: u32, most: Option<u32>) -> (Option<Part>, Counting)
    requires { IfSome most (λ m. least ≤ m) }
    ensures { Some (made_part result) ≡ spec.repeated (token_view token) (times_view least most) }
{
    let times = Some(Times { least, most });
    (Some(Part { token, times }), Counting::Behind(None))
}

fn sign_step(before: Option<Token>, sign: Sign) -> Option<(Option<Part>, Counting)>
    ensures { option_map made_part result ≡ spec.sign_step (before_view before) (sign_view sign) }
{
    match sign {
        Sign::Token(token) => Some((once(before), Counting::Behind(Some(token)))),
        Sign::Quantity(times) => Some(repeated(repeatable(before)?, times.least, times.most)),
        Sign::OpenBrace => Some((None, Counting::LeastDue(repeatable(before)?))),
        Sign::Misplaced => None,
    }
}

/// A number with a digit behind it, where it isn't too large.
fn with_digit(number: u32, digit: u32) -> Option<u32>
    ensures { result ≡ limits.bounded (10 * number + digit) }
{
    bounded(10 * u64::from(number) + u64::from(digit))
}

fn least_step(token: Token, least: u32, mark: Mark) -> Option<(Option<Part>, Counting)>
    ensures { option_map made_part result
        ≡ spec.mark_step (spec.least (token_view token) least) (mark_view mark) }
{
    match mark {
        Mark::Digit(digit) => {
            let least = with_digit(least, digit)?;
            Some((None, Counting::Least { token, least }))
        }
        Mark::Comma => Some((None, Counting::MostDue { token, least })),
        Mark::CloseBrace => Some(repeated(token, least, Some(least))),
        Mark::Other => None,
    }
}

fn most_step(token: Token, least: u32, most: u32, mark: Mark) -> Option<(Option<Part>, Counting)>
    ensures { option_map made_part result
        ≡ spec.mark_step (spec.most (token_view token) least most) (mark_view mark) }
{
    match mark {
        Mark::Digit(digit) => {
            let most = with_digit(most, digit)?;
            Some((None, Counting::Most { token, least, most }))
        }
        Mark::CloseBrace if least <= most => Some(repeated(token, least, Some(most))),
        Mark::CloseBrace | Mark::Comma | Mark::Other => None,
    }
}

fn mark_step(state: Counting, mark: Mark) -> Option<(Option<Part>, Counting)>
    ensures { option_map made_part result ≡ spec.mark_step (counting_view state) (mark_view mark) }
{
    match state {
        Counting::Behind(_) => None,
        Counting::LeastDue(token) => match mark {
            Mark::Digit(least) => Some((None, Counting::Least { token, least })),
            Mark::Comma | Mark::CloseBrace | Mark::Other => None,
        },
        Counting::Least { token, least } => least_step(token, least, mark),
        Counting::MostDue { token, least } => match mark {
            Mark::Digit(most) => Some((None, Counting::Most { token, least, most })),
            Mark::CloseBrace => Some(repeated(token, least, None)),
            Mark::Comma | Mark::Other => None,
        },
        Counting::Most { token, least, most } => most_step(token, least, most, mark),
    }
}

/// What an item adds, by what was read of quantities; none where it can't stand there.
pub fn part_step(
    alloc: Global,
    state: Counting,
    item: Item,
) -> Result<Option<(Option<Part>, Counting)>, AllocError>
    ensures { IfOk result (λ step. option_map made_part step ≡ spec.part_step (counting_view state) (item_view item)) }
{
    match state {
        Counting::Behind(before) => Ok(sign_step(before, sign_of(alloc, item)?)),
        Counting::LeastDue(_)
        | Counting::Least { .. }
        | Counting::MostDue { .. }
        | Counting::Most { .. } => Ok(mark_step(state, mark_of(&item))),
    }
}
