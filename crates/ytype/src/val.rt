//! What a type makes of a value that it takes.

ghost use Rattle.std.specs.Prelude.{◌≡◌, IfOk};
ghost use Rattle.yspec.specs.types.Order.{member_number};

use crate::ytype::YType;
use std::alloc::{AllocError, Global};
use std::cmp::Ordering;
use std::marker::Model;
use ytype_simple::Content;

/// A value of a type: equal to another of that type where both are the same, and in a union the same member took them.
#[derive(Debug, Drop)]
pub struct Val {
    member: Option<usize>,
    content: Content,
}

impl Model for Val {
    ghost use Rattle.yspec.specs.types.Types as types;

    ghost Value = { types.Val };

    ghost use Rattle.ytype_simple.specs.View.{content_of};

    ghost view = { λ v. record { member = v.member; content = content_of v.content } };
}

impl Clone for Val {
    ghost use Rattle.std.specs.Prelude.{◌≡◌};

    ghost is_clone = { λ val copy. copy ≡ val };

    fn clone(&self) -> Result<Val, AllocError>
        ensures { IfOk result (λ copy. copy ≡ self.now) }
    {
        Ok(Val {
            member: self.member,
            content: self.content.clone()?,
        })
    }
}

fn member_number(member: Option<usize>) -> u128
    ensures { result ≡ member_number member }
{
    match member {
        None => 0,
        Some(number) => number as u128 + 1,
    }
}

impl PartialEq for Val {
    ghost use Rattle.yspec.specs.types.Order.{same_value};
    ghost use Rattle.ytype.specs.Laws.{same_value_laws};

    ghost eq = { same_value };

    ghost laws = { same_value_laws };

    fn eq(&self, other: &Val) -> bool {
        self.cmp(other).is_eq()
    }
}

impl Eq for Val {
    ghost use Rattle.ytype.specs.Laws.{same_value_equiv};

    ghost laws = { same_value_equiv };
}

impl PartialOrd for Val {
    ghost use Rattle.std.specs.Ordering.{as_partial_cmp};
    ghost use Rattle.yspec.specs.types.Order.{value_cmp};
    ghost use Rattle.ytype.specs.Laws.{value_order_laws};

    ghost partial_cmp = { as_partial_cmp value_cmp };

    ghost laws = { value_order_laws };

    fn partial_cmp(&self, other: &Val) -> Option<Ordering> {
        Some(self.cmp(other))
    }
}

impl Ord for Val {
    ghost use Rattle.std.specs.Prelude.{refl};
    ghost use Rattle.yspec.specs.types.Order.{value_cmp};
    ghost use Rattle.ytype.specs.Laws.{value_total};

    ghost cmp = { value_cmp };

    ghost total = { value_total };

    ghost matches_partial_cmp = { λ v w. refl };

    ghost matches_eq = { λ v w. refl };

    fn cmp(&self, other: &Val) -> Ordering {
        match member_number(self.member).cmp(&member_number(other.member)) {
            Ordering::Equal => self.content.compare(&other.content),
            order => order,
        }
    }
}

impl Val {
    ghost use Rattle.std.specs.Prelude.{◌≡◌};
    ghost use Rattle.std.specs.String.{string_bytes};
    ghost use Rattle.yspec.specs.types.Types.{value};
    ghost use Rattle.yspec.specs.types.Values.{canonical};
    ghost use Rattle.ytype_simple.specs.View.{content_of};

    pub(crate) fn new(member: Option<usize>, content: Content) -> Val
        ensures { result ≡ value member (content_of content) }
    {
        Val { member, content }
    }

    /// The number of the member of a union that took it, those of unions in it numbered as well; none of another type.
    pub fn member(&self) -> Option<usize>
        ensures { result ≡ self.now.member }
    {
        self.member
    }

    /// The same as a member of another union took it, or another type that is none.
    pub fn of_member(self, member: Option<usize>) -> Val
        ensures { result ≡ value member self.content }
    {
        Val {
            member,
            content: self.content,
        }
    }

    /// The canonical text of the value, which is one of this type (RFC 7950, 9.1).
    pub fn canonical(&self, alloc: Global, of: &YType) -> Result<String, AllocError>
        ensures { IfOk result (λ text. string_bytes text ≡ canonical of.now self.now) }
    {
        match of.taker(self.member) {
            None => Ok(String::new(alloc)),
            Some(simple) => simple.text_of(alloc, &self.content),
        }
    }
}
