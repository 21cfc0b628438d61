//! Types.

ghost use Rattle.std.specs.Prelude.{◌≡◌, ◌++◌, Ok, IfOk, OnOk, Some, None, option_map, ok_or, string_bytes};
ghost use Rattle.yspec.specs.types.Types.{taken, error_text_of, app_tag_of, message_of, shape_in, type_in, plain, integer_type, string_type, uint8_type, int8, int16, int32, int64, uint8, uint16, uint32, uint64, boolean_base, empty_base, decimal_base, enumeration_base, bits_base, binary_base};
ghost use Rattle.yspec.specs.types.Values.{value_of_text, taker};
ghost use Rattle.yspec.specs.types.Names as names;
ghost use Rattle.yspec.specs.types.Restriction.{has_name, is_union, member_count, members_of, union_type, leafref_type, narrowed};
ghost use Rattle.ytype_numbers.specs.View.{restriction_of, text_of};
ghost use Rattle.yspec.specs.Results.{Gives};
ghost use Rattle.ytype_numbers.specs.Words.{narrow_refusal, same};
ghost use Rattle.ytype_simple.specs.View.{raw_of, base_of, integer_of};
ghost use Rattle.ytype_simple.specs.Founds.{now_of};
ghost use Rattle.ytype.specs.Shapes.{shape_of};
ghost use Rattle.ytype_simple.specs.Identities.{identities_view, module_names_view};
ghost use Rattle.ytype.specs.Refusals.{value_refusal};

use crate::fault::BadValue;
use crate::members::{Members, all_of, first_read, first_taken, members_in};
use crate::val::Val;
use std::alloc::{AllocError, Global};
use std::marker::Model;
use std::rc::Rc;
use ytype_numbers::{
    ErrorText, FractionDigits, Naming, NarrowFault, Restriction, bit_names, enum_names,
};
use ytype_simple::{Base, Identities, Integer, ModuleNames, Raw, SimpleType};

#[derive(Debug, Drop)]
enum Shape {
    Single(SimpleType),
    Union(Members),
}

impl Clone for Shape {
    ghost use Rattle.std.specs.Prelude.{◌≡◌};

    ghost is_clone = { λ shape copy. shape_of copy ≡ shape_of shape };

    fn clone(&self) -> Result<Shape, AllocError>
        ensures { IfOk result (λ copy. shape_of copy ≡ shape_of self.now) }
    {
        match self {
            Shape::Single(simple) => Ok(Shape::Single(simple.clone()?)),
            Shape::Union(members) => Ok(Shape::Union(members.clone()?)),
        }
    }
}

/// A type of values.
#[derive(Debug, Drop)]
pub struct YType {
    shape: Shape,
    requires_instance: Option<bool>,
}

impl Model for YType {
    ghost use Rattle.yspec.specs.types.Types.{YangType};

    ghost Value = { YangType };

    ghost use Rattle.ytype.specs.Shapes.{shape_of};

    ghost view = { λ t. record { shape = shape_of t.shape; requires_instance = t.requires_instance } };
}

impl Clone for YType {
    ghost use Rattle.std.specs.Prelude.{◌≡◌};

    ghost is_clone = { λ type copy. copy ≡ type };

    fn clone(&self) -> Result<YType, AllocError>
        ensures { IfOk result (λ copy. copy ≡ self.now) }
    {
        Ok(YType {
            shape: self.shape.clone()?,
            requires_instance: self.requires_instance,
        })
    }
}

fn plain(base: Base) -> YType
    ensures { result ≡ plain (base_of base) }
{
    YType {
        shape: Shape::Single(SimpleType::plain(base)),
        requires_instance: None,
    }
}

fn integer(integer: Integer) -> Result<YType, NarrowFault>
    ensures { result ≡ Ok (integer_type (integer_of integer)) }
{
    Ok(plain(Base::Integer(integer)))
}

/// The built-in types (RFC 7950, 9.2 to 9.12).
impl YType {
    /// Numbers of 8 bits with a sign.
    pub fn int8(_alloc: Global) -> Result<YType, NarrowFault>
        ensures { result ≡ Ok (integer_type int8) }
    {
        integer(Integer::Int8)
    }

    /// Numbers of 16 bits with a sign.
    pub fn int16(_alloc: Global) -> Result<YType, NarrowFault>
        ensures { result ≡ Ok (integer_type int16) }
    {
        integer(Integer::Int16)
    }

    /// Numbers of 32 bits with a sign.
    pub fn int32(_alloc: Global) -> Result<YType, NarrowFault>
        ensures { result ≡ Ok (integer_type int32) }
    {
        integer(Integer::Int32)
    }

    /// Numbers of 64 bits with a sign.
    pub fn int64(_alloc: Global) -> Result<YType, NarrowFault>
        ensures { result ≡ Ok (integer_type int64) }
    {
        integer(Integer::Int64)
    }

    /// Numbers of 8 bits without a sign.
    pub fn uint8(_alloc: Global) -> Result<YType, NarrowFault>
        ensures { result ≡ Ok uint8_type }
    {
        integer(Integer::Uint8)
    }

    /// Numbers of 16 bits without a sign.
    pub fn uint16(_alloc: Global) -> Result<YType, NarrowFault>
        ensures { result ≡ Ok (integer_type uint16) }
    {
        integer(Integer::Uint16)
    }

    /// Numbers of 32 bits without a sign.
    pub fn uint32(_alloc: Global) -> Result<YType, NarrowFault>
        ensures { result ≡ Ok (integer_type uint32) }
    {
        integer(Integer::Uint32)
    }

    /// Numbers of 64 bits without a sign.
    pub fn uint64(_alloc: Global) -> Result<YType, NarrowFault>
        ensures { result ≡ Ok (integer_type uint64) }
    {
        integer(Integer::Uint64)
    }

    /// Numbers with so many digits after the point, of 64 bits in units of the last one (9.3).
    pub fn decimal64(_alloc: Global, digits: FractionDigits) -> Result<YType, NarrowFault>
        ensures { result ≡ Ok (plain (decimal_base digits)) }
    {
        Ok(plain(Base::Decimal(digits)))
    }

    /// Texts (9.4).
    pub fn string(_alloc: Global) -> Result<YType, NarrowFault>
        ensures { result ≡ Ok string_type }
    {
        Ok(plain(Base::Text))
    }

    /// True and false (9.5).
    pub fn boolean(_alloc: Global) -> Result<YType, NarrowFault>
        ensures { result ≡ Ok (plain boolean_base) }
    {
        Ok(plain(Base::Boolean))
    }

    /// The one value of a leaf that says by its presence alone (9.11).
    pub fn empty(_alloc: Global) -> Result<YType, NarrowFault>
        ensures { result ≡ Ok (plain empty_base) }
    {
        Ok(plain(Base::Empty))
    }

    /// The names of enums in their order (9.6). Refused where a name or a number comes twice, a name is empty or has
    /// white space at an end, or a number doesn't lie between -2147483648 and 2147483647.
    pub fn enumeration(alloc: Global, namings: &[Naming]) -> Result<YType, NarrowFault>
        ensures { Gives same narrow_refusal result
            (ok_or (option_map (λ ns. plain (enumeration_base ns)) (names.enum_names namings.now))
            tt) }
    {
        match enum_names(alloc, namings) {
            Err(fault) => Err(fault),
            Ok(names) => Ok(plain(Base::Enumeration(Rc::new(alloc, names)?))),
        }
    }

    /// The names of bits in their order (9.7). Refused where a name or a position comes twice, or a position doesn't
    /// lie between 0 and 4294967295.
    pub fn bits(alloc: Global, namings: &[Naming]) -> Result<YType, NarrowFault>
        ensures { Gives same narrow_refusal result
            (ok_or (option_map (λ ns. plain (bits_base ns)) (names.bit_names namings.now)) tt) }
    {
        match bit_names(alloc, namings) {
            Err(fault) => Err(fault),
            Ok(names) => Ok(plain(Base::Bits(Rc::new(alloc, names)?))),
        }
    }

    /// Octets (9.8).
    pub fn binary(_alloc: Global) -> Result<YType, NarrowFault>
        ensures { result ≡ Ok (plain binary_base) }
    {
        Ok(plain(Base::Binary))
    }

    /// Identities that derive from others (9.10).
    pub fn identityref(_alloc: Global, identities: &Identities) -> Result<YType, NarrowFault>
        ensures { Gives same narrow_refusal result (Ok (plain (identities_view identities.now))) }
    {
        Ok(plain(Base::Identity(identities.clone()?)))
    }

    /// What one of its members takes (9.12).
    pub fn union(alloc: Global, types: &[YType]) -> Result<YType, NarrowFault>
        ensures { Gives same narrow_refusal result (Ok (union_type types.now)) }
    {
        let mut members = Members::new();
        'types: for member in types {
            let more = member.shape.members(alloc)?;
            members = Members::joined(alloc, &members, &more)?;
        }
        Ok(YType {
            shape: Shape::Union(members),
            requires_instance: None,
        })
    }

    /// The values of its target's type; it requires an instance unless that is said (9.9).
    pub fn leafref(_alloc: Global, target: &YType) -> Result<YType, NarrowFault>
        ensures { Gives same narrow_refusal result (Ok (leafref_type target.now)) }
    {
        Ok(YType {
            shape: target.shape.clone()?,
            requires_instance: Some(true),
        })
    }
}

impl Shape {
    fn members(&self, alloc: Global) -> Result<Members, AllocError>
        ensures { IfOk result (λ members. members ≡ members_of (shape_of self.now)) }
    {
        match self {
            Shape::Single(simple) => Members::one(alloc, simple.clone()?),
            Shape::Union(members) => members.clone(),
        }
    }
}

impl Shape {
    fn of_module(&self, alloc: Global, home: &Rc<String>) -> Result<Shape, AllocError>
        ensures { IfOk result (λ shape. shape_of shape
            ≡ shape_in (string_bytes home.now.value) (shape_of self.now)) }
    {
        match self {
            Shape::Single(simple) => Ok(Shape::Single(simple.of_module(alloc, home)?)),
            Shape::Union(members) => Ok(Shape::Union(members_in(alloc, members, home)?)),
        }
    }
}

impl YType {
    /// The same type for leafs of a module of this name: a name of an identity without a module is of that one.
    pub fn of_module(&self, alloc: Global, home: &Rc<String>) -> Result<YType, AllocError>
        ensures { IfOk result (λ type. type ≡ type_in (string_bytes home.now.value) self.now) }
    {
        Ok(YType {
            shape: self.shape.of_module(alloc, home)?,
            requires_instance: self.requires_instance,
        })
    }

    /// The type that took a value of a member.
    pub(crate) fn taker(&self, member: Option<usize>) -> Option<&SimpleType>
        ensures { now_of result ≡ taker self.now.shape member }
    {
        match (&self.shape, member) {
            (Shape::Single(simple), _) => Some(simple),
            (Shape::Union(_), None) => None,
            (Shape::Union(members), Some(number)) => members.get(number),
        }
    }

    /// The members of a union, of unions in it as well; of another type itself, as its only one.
    pub fn members(&self, alloc: Global) -> Result<Vec<SimpleType>, AllocError>
        ensures { IfOk result (λ members. members.items ≡ members_of self.now.shape) }
    {
        all_of(alloc, &self.shape.members(alloc)?)
    }

    /// Whether it is a union.
    pub fn is_union(&self) -> bool
        ensures { result ≡ is_union self.now.shape }
    {
        match &self.shape {
            Shape::Single(_) => false,
            Shape::Union(_) => true,
        }
    }

    /// How many members a union has, those of unions in it as well; 1 of another type.
    pub fn member_count(&self) -> usize
        ensures { result ≡ member_count self.now }
    {
        match &self.shape {
            Shape::Single(_) => 1,
            Shape::Union(members) => members.len(),
        }
    }

    /// Whether a leafref requires an instance; none for another type.
    pub fn requires_instance(&self) -> Option<bool>
        ensures { result ≡ self.now.requires_instance }
    {
        self.requires_instance
    }

    /// Whether it is an enumeration or bits with such a name.
    pub fn has_name(&self, name: &str) -> bool
        ensures { result ≡ has_name self.now name.now }
    {
        match &self.shape {
            Shape::Single(simple) => simple.has_name(name),
            Shape::Union(_) => false,
        }
    }

    /// The type that a restriction makes of it. Refused where the type may not bear the restriction, a part's first bound
    /// is above its second, parts aren't disjoint and ascending, a bound has too many digits after its point, or the
    /// numbers don't all lie within those of the type; where a name isn't one of the type's, has another number there, or comes
    /// twice.
    pub fn narrow(&self, alloc: Global, restriction: &Restriction) -> Result<YType, NarrowFault>
        ensures { Gives same narrow_refusal result
            (ok_or (narrowed self.now (restriction_of restriction.now)) tt) }
    {
        match (self.requires_instance, &self.shape) {
            (None, Shape::Single(simple)) => match simple.narrow(alloc, restriction) {
                Err(fault) => Err(fault),
                Ok(simple) => Ok(YType {
                    shape: Shape::Single(simple),
                    requires_instance: None,
                }),
            },
            (None, Shape::Union(_)) => Err(NarrowFault::Refused),
            (Some(_), shape) => match restriction {
                Restriction::RequireInstance(flag) => Ok(YType {
                    shape: shape.clone()?,
                    requires_instance: Some(*flag),
                }),
                _ => Err(NarrowFault::Refused),
            },
        }
    }

    /// The value that the type takes from what a document has at a leaf. A refusal bears the error-app-tag of the first
    /// restriction, from the built-in type outwards, that excludes it; a union gives none.
    pub fn check(&self, alloc: Global, raw: &Raw) -> Result<Val, BadValue>
        ensures { Gives same value_refusal result
            (ok_or (taken self.now (raw_of raw.now)) (app_tag_of self.now (raw_of raw.now))) }
    {
        match &self.shape {
            Shape::Single(simple) => match simple.taken(alloc, raw)? {
                Some(content) => Ok(Val::new(None, content)),
                None => {
                    let app_tag = self.app_tag(alloc, raw)?;
                    Err(BadValue::Refused { app_tag })
                }
            },
            Shape::Union(members) => match first_taken(alloc, members, raw)? {
                Some(val) => Ok(val),
                None => Err(BadValue::Refused { app_tag: None }),
            },
        }
    }

    /// What the first restriction that excludes what a document has says of it; a union says nothing.
    fn error(&self, alloc: Global, raw: &Raw) -> Result<Option<&ErrorText>, AllocError>
        ensures { IfOk result (λ error. now_of error ≡ error_text_of self.now (raw_of raw.now)) }
    {
        match &self.shape {
            Shape::Single(simple) => simple.error(alloc, raw),
            Shape::Union(_) => Ok(None),
        }
    }

    fn app_tag(&self, alloc: Global, raw: &Raw) -> Result<Option<String>, AllocError>
        ensures { IfOk result (λ tag. text_of tag ≡ app_tag_of self.now (raw_of raw.now)) }
    {
        match self.error(alloc, raw)? {
            None => Ok(None),
            Some(error) => error.app_tag(),
        }
    }

    /// The error-message of the first restriction, from the built-in type outwards, that excludes what a document has (RFC
    /// 7950, 7.5.4.1); a union gives none.
    pub fn message(&self, alloc: Global, raw: &Raw) -> Result<Option<String>, AllocError>
        ensures { IfOk result (λ message. text_of message ≡ message_of self.now (raw_of raw.now)) }
    {
        match self.error(alloc, raw)? {
            None => Ok(None),
            Some(error) => error.message(),
        }
    }

    /// The value of a text of a module, as a default is one, given what the module calls itself and others. A refusal bears no
    /// error-app-tag.
    pub fn from_text(
        &self,
        alloc: Global,
        text: &str,
        names: &ModuleNames<'_>,
    ) -> Result<Val, BadValue>
        ensures { Gives same value_refusal result
            (ok_or (value_of_text (module_names_view names.now) self.now text.now) None) }
    {
        match &self.shape {
            Shape::Single(simple) => match simple.read(alloc, names, text)? {
                Some(content) => Ok(Val::new(None, content)),
                None => Err(BadValue::Refused { app_tag: None }),
            },
            Shape::Union(members) => match first_read(alloc, members, names, text)? {
                Some(val) => Ok(val),
                None => Err(BadValue::Refused { app_tag: None }),
            },
        }
    }
}
