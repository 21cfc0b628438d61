//! Members of unions.

ghost use Rattle.std.specs.Prelude.{◌≡◌, [], ◌∷◌, ◌++◌, IfOk, OnOk, map, option_and_then, option_to_list, slice_get, length, string_bytes};
ghost use Rattle.std.specs.List.{list_any};
ghost use Rattle.yspec.specs.types.Types.{simple_taken, first_value, simple_in};
ghost use Rattle.yspec.specs.types.Values.{simple_read};
ghost use Rattle.ytype_simple.specs.View.{raw_of};
ghost use Rattle.ytype_simple.specs.Founds.{contents, now_of};
ghost use Rattle.ytype_simple.specs.Identities.{is_identity, module_names_view};

use crate::val::Val;
use std::alloc::{AllocError, Global};
use std::marker::Model;
use std::rc::Rc;
use ybase_row::Row;
use ytype_simple::{Content, ModuleNames, Raw, SimpleType};

/// The members of a union in their order, which copies and the unions around it share.
#[derive(Debug, Drop)]
pub(crate) struct Members {
    row: Row<SimpleType>,
    // Whether one of them begins with an identityref.
    have_identity: bool,
}

impl Model for Members {
    ghost use Rattle.std.specs.Prelude.{◌≡◌, List};
    ghost use Rattle.std.specs.List.{list_any};
    ghost use Rattle.yspec.specs.types.Types as types;
    ghost use Rattle.ytype_simple.specs.Identities.{is_identity};

    ghost Value = { List types.SimpleType };

    ghost view = { λ m. m.row };

    ghost invariant = { λ m. m.have_identity ≡ list_any (λ (s : types.SimpleType). is_identity s.base) m.row };
}

impl Clone for Members {
    ghost use Rattle.std.specs.Prelude.{◌≡◌};

    ghost is_clone = { λ members copy. copy ≡ members };

    fn clone(&self) -> Result<Members, AllocError>
        ensures { IfOk result (λ copy. copy ≡ self.now) }
    {
        Ok(Members {
            row: self.row.clone()?,
            have_identity: self.have_identity,
        })
    }
}

impl Members {
    pub(crate) fn new() -> Members
        ensures { result ≡ [] }
    {
        Members {
            row: Row::new(),
            have_identity: false,
        }
    }

    /// The only one.
    pub(crate) fn one(alloc: Global, simple: SimpleType) -> Result<Members, AllocError>
        ensures { IfOk result (λ members. members ≡ simple ∷ []) }
    {
        Ok(Members {
            have_identity: simple.is_identity(),
            row: Row::one(Rc::new(alloc, simple)?),
        })
    }

    /// Those of two unions, in this order.
    #[tactic(auto, using(crate::proofs::MemberLemmas::any_of_both))]
    pub(crate) fn joined(
        alloc: Global,
        front: &Members,
        back: &Members,
    ) -> Result<Members, AllocError>
        ensures { IfOk result (λ members. members ≡ front.now ++ back.now) }
    {
        Ok(Members {
            row: Row::joined(alloc, &front.row, &back.row)?,
            have_identity: front.have_identity || back.have_identity,
        })
    }

    /// How many there are.
    pub(crate) fn len(&self) -> usize
        ensures { result ≡ length self.now }
    {
        self.row.len()
    }

    /// The member with so many before it.
    pub(crate) fn get(&self, number: usize) -> Option<&SimpleType>
        ensures { now_of result ≡ slice_get self.now number }
    {
        self.row.get(number)
    }

    fn have_identity(&self) -> bool
        ensures { result ≡ list_any (λ s. is_identity s.base) self.now }
    {
        self.have_identity
    }
}

/// What the member with so many before it makes of what a document has.
fn taken_at(
    alloc: Global,
    members: &Members,
    number: usize,
    raw: &Raw,
) -> Result<Option<Content>, AllocError>
    ensures { IfOk result (λ content. contents content
        ≡ option_and_then (λ s. simple_taken s (raw_of raw.now)) (slice_get members.now number)) }
{
    match members.get(number) {
        None => Ok(None),
        Some(member) => member.taken(alloc, raw),
    }
}

/// The value by the first member that takes what a document has.
pub(crate) fn first_taken(
    alloc: Global,
    members: &Members,
    raw: &Raw,
) -> Result<Option<Val>, AllocError>
    ensures { IfOk result (λ val. val
        ≡ first_value (λ s. simple_taken s (raw_of raw.now)) 0 members.now) }
{
    'members: for number in 0..members.len() {
        match taken_at(alloc, members, number, raw)? {
            None => {}
            Some(content) => return Ok(Some(Val::new(Some(number), content))),
        }
    }
    Ok(None)
}

/// What the member with so many before it makes of a text of a module.
fn read_at(
    alloc: Global,
    members: &Members,
    number: usize,
    names: &ModuleNames<'_>,
    text: &str,
) -> Result<Option<Content>, AllocError>
    ensures { IfOk result (λ content. contents content
        ≡ option_and_then (λ s. simple_read (module_names_view names.now) s text.now)
        (slice_get members.now number)) }
{
    match members.get(number) {
        None => Ok(None),
        Some(member) => member.read(alloc, names, text),
    }
}

/// The value by the first member that reads a text of a module.
pub(crate) fn first_read(
    alloc: Global,
    members: &Members,
    names: &ModuleNames<'_>,
    text: &str,
) -> Result<Option<Val>, AllocError>
    ensures { IfOk result (λ val. val
        ≡ first_value (λ s. simple_read (module_names_view names.now) s text.now) 0 members.now) }
{
    'members: for number in 0..members.len() {
        match read_at(alloc, members, number, names, text)? {
            None => {}
            Some(content) => return Ok(Some(Val::new(Some(number), content))),
        }
    }
    Ok(None)
}

/// The member with so many before it for leafs of a module of this name, alone.
fn made_at(
    alloc: Global,
    members: &Members,
    number: usize,
    home: &Rc<String>,
) -> Result<Members, AllocError>
    ensures { IfOk result (λ made. made
        ≡ map (simple_in (string_bytes home.now.value)) (option_to_list (slice_get members.now number))) }
{
    match members.get(number) {
        None => Ok(Members::new()),
        Some(member) => Members::one(alloc, member.of_module(alloc, home)?),
    }
}

#[tactic(auto, using(crate::proofs::MemberLemmas::made_more))]
fn made_for(alloc: Global, members: &Members, home: &Rc<String>) -> Result<Members, AllocError>
    ensures { IfOk result (λ made. made ≡ map (simple_in (string_bytes home.now.value)) members.now) }
{
    let mut made = Members::new();
    'members: for number in 0..members.len() {
        let next = made_at(alloc, members, number, home)?;
        made = Members::joined(alloc, &made, &next)?;
    }
    Ok(made)
}

/// The same members for leafs of a module of this name.
pub(crate) fn members_in(
    alloc: Global,
    members: &Members,
    home: &Rc<String>,
) -> Result<Members, AllocError>
    ensures { IfOk result (λ made. made ≡ map (simple_in (string_bytes home.now.value)) members.now) }
{
    if members.have_identity() {
        made_for(alloc, members, home)
    } else {
        members.clone()
    }
}

fn push_at(all: &mut Vec<SimpleType>, members: &Members, number: usize) -> Result<(), AllocError>
    ensures { OnOk result (all.new.items
        ≡ all.old.items ++ option_to_list (slice_get members.now number)) }
{
    match members.get(number) {
        None => Ok(()),
        Some(member) => Ok(all.push(member.clone()?)?),
    }
}

/// All of them.
#[tactic(auto, using(crate::proofs::MemberLemmas::pushed_more))]
pub(crate) fn all_of(alloc: Global, members: &Members) -> Result<Vec<SimpleType>, AllocError>
    ensures { IfOk result (λ all. all.items ≡ members.now) }
{
    let mut all = Vec::with_capacity(alloc, members.len())?;
    'members: for number in 0..members.len() {
        push_at(&mut all, members, number)?;
    }
    Ok(all)
}
