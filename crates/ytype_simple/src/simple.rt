//! Types that are no unions: a built-in type with its restrictions.

ghost use Rattle.std.specs.Prelude.{◌≡◌, ◌++◌, ◌∷◌, [], map, option_map, option_and_then, option_to_list, slice_get, ok_or, ◌≤◌, IfOk, IfSome, OnOk};
ghost use Rattle.std.specs.Option.{ForSome};
ghost use Rattle.std.specs.String.{string_bytes};
ghost use Rattle.yspec.specs.types.Types.{is_taken_text, passes, excluding, limited, simple_taken, simple_excluding, simple_error, simple_in};
ghost use Rattle.yspec.specs.types.Values.{simple_read, content_text};
ghost use Rattle.yspec.specs.types.Names.{is_among};
ghost use Rattle.yspec.specs.types.Restriction.{names_in_base, left_after, left_by, limited_by, with_limit, range_base, length_base, may_match, pattern, of_enums, of_bits, with_base, narrowed_simple};
ghost use Rattle.ytype_numbers.specs.View.{text_of, restriction_of};
ghost use Rattle.yspec.specs.Results.{Gives};
ghost use Rattle.ytype_numbers.specs.Words.{narrow_refusal, same};
ghost use Rattle.ytype_simple.specs.View.{raw_of, base_of, content_of, found_of};
ghost use Rattle.ytype_simple.specs.Limits.{numbers_in, test_of};
ghost use Rattle.ytype_simple.specs.Patterns.{expression_of, expressions_in, matching_view, unmatched_by};
ghost use Rattle.ytype_simple.specs.Identities.{is_identity, module_names_view};
ghost use Rattle.ytype_simple.specs.Founds.{founds, contents, now_of};

use crate::base::{Base, Found, Integer};
use crate::canonical::content_text;
use crate::content::Content;
use crate::identity::ModuleNames;
use crate::matching::Matching;
use crate::raw::Raw;
use std::alloc::{AllocError, Global};
use std::marker::Model;
use std::rc::Rc;
use std::slice;
use ybase_row::Row;
use ytype_numbers::{
    ErrorText, Expression, Naming, NarrowFault, Part, Range, Restriction, Span, restricted,
};

/// What a restriction asks of a value.
#[derive(Debug, Drop)]
pub(crate) enum Test {
    /// That it, or how many characters it has, is one of these numbers.
    Within(Range),
    /// That it is a text which the expression describes, or any other.
    Matching {
        expression: Rc<Expression>,
        inverted: bool,
    },
}

impl Clone for Test {
    ghost use Rattle.std.specs.Prelude.{◌≡◌};
    ghost use Rattle.ytype_simple.specs.Limits.{test_of};

    ghost is_clone = { λ test copy. test_of copy ≡ test_of test };

    fn clone(&self) -> Result<Test, AllocError>
        ensures { IfOk result (λ copy. test_of copy ≡ test_of self.now) }
    {
        match self {
            Test::Within(range) => Ok(Test::Within(range.clone()?)),
            Test::Matching {
                expression,
                inverted,
            } => Ok(Test::Matching {
                expression: expression.clone()?,
                inverted: *inverted,
            }),
        }
    }
}

fn is_taken_text(
    alloc: Global,
    expression: &Rc<Expression>,
    inverted: bool,
    text: &str,
) -> Result<bool, AllocError>
    ensures { IfOk result (λ b. b ≡ is_taken_text expression.now.value inverted text.now) }
{
    let matches = expression.matches(alloc, text)?;
    if inverted { Ok(!matches) } else { Ok(matches) }
}

impl Test {
    /// Whether a value has what it asks.
    fn passes(&self, alloc: Global, found: &Found<'_>) -> Result<bool, AllocError>
        ensures { IfOk result (λ b. b ≡ passes (test_of self.now) (found_of found.now)) }
    {
        match self {
            Test::Within(range) => Ok(range.holds(found.measure())),
            Test::Matching {
                expression,
                inverted,
            } => match found {
                Found::Text(text) => is_taken_text(alloc, expression, *inverted, text),
                _ => Ok(true),
            },
        }
    }

    /// The numbers of which it asks that a value be one.
    fn numbers(&self) -> Option<&[Part]>
        ensures { now_of result ≡ numbers_in (test_of self.now) }
    {
        match self {
            Test::Within(range) => Some(range.parts()),
            Test::Matching { .. } => None,
        }
    }

    fn expression(&self) -> Option<Matching<'_>>
        ensures { option_map matching_view result ≡ expression_of (test_of self.now) }
    {
        match self {
            Test::Within(_) => None,
            Test::Matching {
                expression,
                inverted,
            } => Some(Matching {
                expression: expression.text(),
                inverted: *inverted,
            }),
        }
    }
}

/// A restriction, with what it says of other values.
#[derive(Debug, Drop)]
pub(crate) struct Limit {
    test: Test,
    error: ErrorText,
}

impl Model for Limit {
    ghost use Rattle.yspec.specs.types.Ranges as ranges;
    ghost use Rattle.ytype_simple.specs.Limits.{test_of};

    ghost Value = { ranges.Limit };

    ghost view = { λ l. record { test = test_of l.test; error = l.error } };
}

impl Clone for Limit {
    ghost use Rattle.std.specs.Prelude.{◌≡◌};

    ghost is_clone = { λ limit copy. copy ≡ limit };

    fn clone(&self) -> Result<Limit, AllocError>
        ensures { IfOk result (λ copy. copy ≡ self.now) }
    {
        Ok(Limit {
            test: self.test.clone()?,
            error: self.error.clone()?,
        })
    }
}

impl Limit {
    fn error(&self) -> &ErrorText
        ensures { result.now ≡ self.now.error }
    {
        &self.error
    }

    fn numbers(&self) -> Option<&[Part]>
        ensures { now_of result ≡ numbers_in self.now.test }
    {
        self.test.numbers()
    }

    fn expression(&self) -> Option<Matching<'_>>
        ensures { option_map matching_view result ≡ expression_of self.now.test }
    {
        self.test.expression()
    }

    fn excluding(&self, alloc: Global, found: &Found<'_>) -> Result<Option<&Limit>, AllocError>
        ensures { IfOk result (λ limit. now_of limit
            ≡ excluding (self.now ∷ []) (found_of found.now)) }
    {
        if self.test.passes(alloc, found)? {
            Ok(None)
        } else {
            Ok(Some(self))
        }
    }
}

fn excluding_at<'a>(
    alloc: Global,
    limits: &'a Row<Limit>,
    index: usize,
    found: &Found<'_>,
) -> Result<Option<&'a Limit>, AllocError>
    ensures { IfOk result (λ limit. now_of limit
        ≡ option_and_then (λ l. excluding (l ∷ []) (found_of found.now))
        (slice_get limits.now index)) }
{
    match limits.get(index) {
        None => Ok(None),
        Some(limit) => limit.excluding(alloc, found),
    }
}

fn excluding<'a>(
    alloc: Global,
    limits: &'a Row<Limit>,
    found: &Found<'_>,
) -> Result<Option<&'a Limit>, AllocError>
    ensures { IfOk result (λ limit. now_of limit
        ≡ excluding limits.now (found_of found.now)) }
{
    'limits: for index in 0..limits.len() {
        match excluding_at(alloc, limits, index, found)? {
            None => {}
            Some(limit) => return Ok(Some(limit)),
        }
    }
    Ok(None)
}

fn numbers_at<'a>(limits: &'a Row<Limit>, index: usize) -> Option<&'a [Part]>
    ensures { now_of result
        ≡ option_and_then (λ l. numbers_in l.test) (slice_get limits.now index) }
{
    limits.get(index)?.numbers()
}

/// The numbers that the outermost restriction by numbers leaves, or these where there is none.
fn left_after<'a>(limits: &'a Row<Limit>, parts: &'a [Part]) -> &'a [Part]
    ensures { result.now ≡ left_after parts.now limits.now }
{
    let mut count = limits.len();
    while count > 0 {
        count -= 1;
        match numbers_at(limits, count) {
            None => {}
            Some(numbers) => return numbers,
        }
    }
    parts
}

/// Adds the expression of a restriction, where it has one.
fn add_expression<'a>(limit: &'a Limit, found: &mut Vec<Matching<'a>>) -> Result<(), AllocError>
    ensures { OnOk result (map matching_view found.new.items
        ≡ map matching_view found.old.items ++ option_to_list (expression_of limit.now.test)) }
{
    if let Some(expression) = limit.expression() {
        found.push(expression)?;
    }
    Ok(())
}

fn add_expression_at<'a>(
    limits: &'a Row<Limit>,
    index: usize,
    found: &mut Vec<Matching<'a>>,
) -> Result<(), AllocError>
    ensures { OnOk result (map matching_view found.new.items
        ≡ map matching_view found.old.items
        ++ expressions_in (option_to_list (slice_get limits.now index))) }
{
    match limits.get(index) {
        None => Ok(()),
        Some(limit) => add_expression(limit, found),
    }
}

fn expressions_in<'a>(
    alloc: Global,
    limits: &'a Row<Limit>,
) -> Result<Vec<Matching<'a>>, AllocError>
    ensures { IfOk result (λ found. map matching_view found.items ≡ expressions_in limits.now) }
{
    let mut found = Vec::new(alloc);
    'limits: for index in 0..limits.len() {
        add_expression_at(limits, index, &mut found)?;
    }
    Ok(found)
}

/// A built-in type with restrictions, which stand from the built-in type outwards.
#[derive(Debug, Drop)]
struct LimitedType {
    base: Base,
    limits: Row<Limit>,
}

impl Model for LimitedType {
    ghost use Rattle.yspec.specs.types.Types as types;

    ghost Value = { types.SimpleType };

    ghost use Rattle.ytype_simple.specs.View.{base_of};

    ghost view = { λ l. record { base = base_of l.base; limits = l.limits } };
}

impl LimitedType {
    fn base(&self) -> &Base
        ensures { base_of result.now ≡ self.now.base }
    {
        &self.base
    }

    fn excluding(&self, alloc: Global, found: &Found<'_>) -> Result<Option<&Limit>, AllocError>
        ensures { IfOk result (λ limit. now_of limit
            ≡ excluding self.now.limits (found_of found.now)) }
    {
        excluding(alloc, &self.limits, found)
    }

    fn of_module(&self, home: &Rc<String>) -> Result<LimitedType, AllocError>
        ensures { IfOk result (λ type. type ≡ simple_in (string_bytes home.now.value) self.now) }
    {
        Ok(LimitedType {
            base: self.base.of_module(home)?,
            limits: self.limits.clone()?,
        })
    }

    fn with_base(&self, base: Base) -> Result<LimitedType, AllocError>
        ensures { IfOk result (λ type. type ≡ with_base self.now (base_of base)) }
    {
        Ok(LimitedType {
            base,
            limits: self.limits.clone()?,
        })
    }

    fn left<'a>(&'a self, numbers: &'a Part) -> &'a [Part]
        ensures { result.now ≡ left_by numbers.now self.now.limits }
    {
        left_after(&self.limits, slice::from_ref(numbers))
    }

    fn limits(&self) -> Result<Row<Limit>, AllocError>
        ensures { IfOk result (λ limits. limits ≡ self.now.limits) }
    {
        self.limits.clone()
    }

    fn expressions(&self, alloc: Global) -> Result<Vec<Matching<'_>>, AllocError>
        ensures { IfOk result (λ found. map matching_view found.items
            ≡ expressions_in self.now.limits) }
    {
        expressions_in(alloc, &self.limits)
    }
}

#[derive(Debug, Drop)]
enum Form {
    Plain(Base),
    Limited(Rc<LimitedType>),
}

/// A type that is no union. Copies share its restrictions.
#[derive(Debug, Drop)]
pub struct SimpleType {
    form: Form,
}

impl Model for SimpleType {
    ghost use Rattle.yspec.specs.types.Types as types;

    ghost Value = { types.SimpleType };

    ghost use Rattle.ytype_simple.specs.Forms.{simple_of};

    ghost view = { λ s. simple_of s.form };
}

impl Clone for SimpleType {
    ghost use Rattle.std.specs.Prelude.{◌≡◌};

    ghost is_clone = { λ type copy. copy ≡ type };

    fn clone(&self) -> Result<SimpleType, AllocError>
        ensures { IfOk result (λ copy. copy ≡ self.now) }
    {
        let form = match &self.form {
            Form::Plain(base) => Form::Plain(base.clone()?),
            Form::Limited(limited) => Form::Limited(limited.clone()?),
        };
        Ok(SimpleType { form })
    }
}

impl SimpleType {
    /// A built-in type without restrictions.
    pub fn plain(base: Base) -> SimpleType
        ensures { result ≡ record { base = base_of base; limits = [] } }
    {
        SimpleType {
            form: Form::Plain(base),
        }
    }

    /// The built-in type that it begins with.
    pub fn base(&self) -> &Base
        ensures { base_of result.now ≡ self.now.base }
    {
        match &self.form {
            Form::Plain(base) => base,
            Form::Limited(limited) => limited.base(),
        }
    }

    fn excluding(&self, alloc: Global, found: &Found<'_>) -> Result<Option<&Limit>, AllocError>
        ensures { IfOk result (λ limit. now_of limit
            ≡ excluding self.now.limits (found_of found.now)) }
    {
        match &self.form {
            Form::Plain(_) => Ok(None),
            Form::Limited(limited) => limited.excluding(alloc, found),
        }
    }

    fn within(&self, alloc: Global, found: Option<Found<'_>>) -> Result<Option<Content>, AllocError>
        ensures { IfOk result (λ content. contents content
            ≡ option_and_then (limited self.now.limits) (founds found.entry)) }
    {
        match found {
            None => Ok(None),
            Some(found) => match self.excluding(alloc, &found)? {
                Some(_) => Ok(None),
                None => Ok(Some(found.into_content(alloc)?)),
            },
        }
    }

    /// The value of what a document has.
    pub fn taken(&self, alloc: Global, raw: &Raw) -> Result<Option<Content>, AllocError>
        ensures { IfOk result (λ content. contents content
            ≡ simple_taken self.now (raw_of raw.now)) }
    {
        self.within(alloc, self.base().taken(alloc, raw)?)
    }

    /// The value of a text of a module.
    pub fn read(
        &self,
        alloc: Global,
        names: &ModuleNames<'_>,
        text: &str,
    ) -> Result<Option<Content>, AllocError>
        ensures { IfOk result (λ content. contents content
            ≡ simple_read (module_names_view names.now) self.now text.now) }
    {
        self.within(alloc, self.base().read(alloc, names, text)?)
    }

    /// The same for leafs of a module of this name.
    pub fn of_module(&self, alloc: Global, home: &Rc<String>) -> Result<SimpleType, AllocError>
        ensures { IfOk result (λ type. type ≡ simple_in (string_bytes home.now.value) self.now) }
    {
        if self.is_identity() {
            self.made_for(alloc, home)
        } else {
            self.clone()
        }
    }

    /// Whether it is an enumeration or bits with such a name.
    pub fn has_name(&self, name: &str) -> bool
        ensures { result ≡ is_among (map (λ a. a.name) (names_in_base self.now.base)) name.now }
    {
        self.base().has_name(name)
    }

    /// Whether it begins with an identityref.
    pub fn is_identity(&self) -> bool
        ensures { result ≡ is_identity self.now.base }
    {
        self.base().is_identity()
    }

    fn made_for(&self, alloc: Global, home: &Rc<String>) -> Result<SimpleType, AllocError>
        ensures { IfOk result (λ type. type ≡ simple_in (string_bytes home.now.value) self.now) }
    {
        let form = match &self.form {
            Form::Plain(base) => Form::Plain(base.of_module(home)?),
            Form::Limited(limited) => Form::Limited(Rc::new(alloc, limited.of_module(home)?)?),
        };
        Ok(SimpleType { form })
    }

    /// The canonical text of what it took.
    pub fn text_of(&self, alloc: Global, content: &Content) -> Result<String, AllocError>
        ensures { IfOk result (λ text. string_bytes text
            ≡ content_text self.now.base (content_of content.now)) }
    {
        content_text(alloc, self.base(), content)
    }

    /// The first restriction that excludes what a document has.
    fn excluding_value(&self, alloc: Global, raw: &Raw) -> Result<Option<&Limit>, AllocError>
        ensures { IfOk result (λ limit. now_of limit ≡ simple_excluding self.now (raw_of raw.now)) }
    {
        match self.base().taken(alloc, raw)? {
            None => Ok(None),
            Some(found) => self.excluding(alloc, &found),
        }
    }

    /// What the first restriction that excludes what a document has says of it.
    pub fn error(&self, alloc: Global, raw: &Raw) -> Result<Option<&ErrorText>, AllocError>
        ensures { IfOk result (λ error. now_of error
            ≡ simple_error self.now (raw_of raw.now)) }
    {
        match self.excluding_value(alloc, raw)? {
            None => Ok(None),
            Some(limit) => Ok(Some(limit.error())),
        }
    }

    /// The expression for which the first restriction excludes what a document has, where it does so for one.
    pub fn unmatched(&self, alloc: Global, raw: &Raw) -> Result<Option<Matching<'_>>, AllocError>
        ensures { IfOk result (λ expression. option_map matching_view expression
            ≡ unmatched_by self.now (raw_of raw.now)) }
    {
        match self.excluding_value(alloc, raw)? {
            None => Ok(None),
            Some(limit) => Ok(limit.expression()),
        }
    }

    /// The expressions that its texts match, or don't match, from the built-in type outwards.
    pub fn expressions(&self, alloc: Global) -> Result<Vec<Matching<'_>>, AllocError>
        ensures { IfOk result (λ found. map matching_view found.items
            ≡ expressions_in self.now.limits) }
    {
        match &self.form {
            Form::Plain(_) => Ok(Vec::new(alloc)),
            Form::Limited(limited) => limited.expressions(alloc),
        }
    }
}

impl SimpleType {
    /// The numbers that a range may restrict, in units of the last digit, and how many digits they have after the point.
    pub fn range_bounds(&self) -> Option<(Part, u32)>
        ensures bounds { result ≡ range_base self.now.base }
        ensures digits { IfSome result (λ b. b.1 ≤ 18) }
    {
        match self.base() {
            Base::Integer(integer) => Some((integer.numbers(), 0)),
            Base::Decimal(digits) => Some((Integer::Int64.numbers(), digits.digits())),
            _ => None,
        }
    }

    /// The numbers that a length may restrict, which have no digits after a point.
    pub fn length_bounds(&self) -> Option<(Part, u32)>
        ensures bounds { result ≡ length_base self.now.base }
        ensures digits { IfSome result (λ b. b.1 ≤ 18) }
    {
        match self.base() {
            Base::Text | Base::Binary => Some((Part::new(0, 0xFFFF_FFFF_FFFF_FFFF), 0)),
            _ => None,
        }
    }

    fn limits(&self) -> Result<Row<Limit>, AllocError>
        ensures { IfOk result (λ limits. limits ≡ self.now.limits) }
    {
        match &self.form {
            Form::Plain(_) => Ok(Row::new()),
            Form::Limited(limited) => limited.limits(),
        }
    }

    /// The numbers that its restrictions leave of those of its built-in type.
    pub fn left<'a>(&'a self, numbers: &'a Part) -> &'a [Part]
        ensures { result.now ≡ left_by numbers.now self.now.limits }
    {
        match &self.form {
            Form::Plain(_) => slice::from_ref(numbers),
            Form::Limited(limited) => limited.left(numbers),
        }
    }

    fn limited_by(
        &self,
        alloc: Global,
        spans: &[Span],
        error: &ErrorText,
        bounds: (Part, u32),
    ) -> Result<SimpleType, NarrowFault>
        requires { bounds.1 ≤ 18 }
        ensures { Gives same narrow_refusal result
            (ok_or (limited_by self.now spans.now error.now bounds) tt) }
    {
        match restricted(alloc, self.left(&bounds.0), bounds.1, spans) {
            Err(fault) => Err(fault),
            Ok(range) => Ok(self.with_limit(alloc, Test::Within(range), error)?),
        }
    }

    fn with_limit(
        &self,
        alloc: Global,
        test: Test,
        error: &ErrorText,
    ) -> Result<SimpleType, AllocError>
        ensures { IfOk result (λ type. type ≡ with_limit self.now error.now (test_of test)) }
    {
        let error = error.clone()?;
        let outermost = Row::one(Rc::new(alloc, Limit { test, error })?);
        let limited = LimitedType {
            base: self.base().clone()?,
            limits: Row::joined(alloc, &self.limits()?, &outermost)?,
        };
        Ok(SimpleType {
            form: Form::Limited(Rc::new(alloc, limited)?),
        })
    }

    fn limited_where(
        &self,
        alloc: Global,
        spans: &[Span],
        error: &ErrorText,
        bounds: Option<(Part, u32)>,
    ) -> Result<SimpleType, NarrowFault>
        requires { ForSome bounds (λ b. b.1 ≤ 18) }
        ensures { Gives same narrow_refusal result
            (ok_or (option_and_then (limited_by self.now spans.now error.now) bounds)
            tt) }
    {
        match bounds {
            None => Err(NarrowFault::Refused),
            Some(bounds) => self.limited_by(alloc, spans, error, bounds),
        }
    }

    fn may_match(&self) -> bool
        ensures { result ≡ may_match self.now.base }
    {
        matches!(self.base(), Base::Text)
    }

    fn matching(
        &self,
        alloc: Global,
        expression: &Rc<Expression>,
        inverted: bool,
        error: &ErrorText,
    ) -> Result<SimpleType, NarrowFault>
        ensures { Gives same narrow_refusal result
            (ok_or (narrowed_simple self.now (pattern expression.now.value inverted error.now)) tt) }
    {
        if !self.may_match() {
            return Err(NarrowFault::Refused);
        }
        let expression = expression.clone()?;
        let test = Test::Matching {
            expression,
            inverted,
        };
        Ok(self.with_limit(alloc, test, error)?)
    }

    /// The same with another base.
    fn with_base(&self, alloc: Global, base: Base) -> Result<SimpleType, AllocError>
        ensures { IfOk result (λ type. type ≡ with_base self.now (base_of base)) }
    {
        let form = match &self.form {
            Form::Plain(_) => Form::Plain(base),
            Form::Limited(limited) => Form::Limited(Rc::new(alloc, limited.with_base(base)?)?),
        };
        Ok(SimpleType { form })
    }

    /// The type that some enums make of it.
    fn with_enums(&self, alloc: Global, namings: &[Naming]) -> Result<SimpleType, NarrowFault>
        ensures { Gives same narrow_refusal result
            (ok_or (narrowed_simple self.now (of_enums namings.now)) tt) }
    {
        match self.base().enums_left(alloc, namings) {
            Err(fault) => Err(fault),
            Ok(base) => Ok(self.with_base(alloc, base)?),
        }
    }

    /// The type that some bits make of it.
    fn with_bits(&self, alloc: Global, namings: &[Naming]) -> Result<SimpleType, NarrowFault>
        ensures { Gives same narrow_refusal result
            (ok_or (narrowed_simple self.now (of_bits namings.now)) tt) }
    {
        match self.base().bits_left(alloc, namings) {
            Err(fault) => Err(fault),
            Ok(base) => Ok(self.with_base(alloc, base)?),
        }
    }

    /// The type that a range, a length, a pattern or names make of it.
    pub fn narrow(
        &self,
        alloc: Global,
        restriction: &Restriction,
    ) -> Result<SimpleType, NarrowFault>
        ensures { Gives same narrow_refusal result
            (ok_or (narrowed_simple self.now (restriction_of restriction.now)) tt) }
    {
        match restriction {
            Restriction::Range { spans, error } => {
                self.limited_where(alloc, spans, error, self.range_bounds())
            }
            Restriction::Length { spans, error } => {
                self.limited_where(alloc, spans, error, self.length_bounds())
            }
            Restriction::Pattern {
                expression,
                inverted,
                error,
            } => self.matching(alloc, expression, *inverted, error),
            Restriction::Enums(namings) => self.with_enums(alloc, namings),
            Restriction::Bits(namings) => self.with_bits(alloc, namings),
            Restriction::RequireInstance(_) => Err(NarrowFault::Refused),
        }
    }
}
