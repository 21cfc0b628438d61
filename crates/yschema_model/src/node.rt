//! Schema nodes.

ghost use Rattle.std.specs.Prelude.{◌≡◌, ◌<◌, ◌^◌};

use std::alloc::{AllocError, Global};
use ybase_words::{BuiltIn, Status};
use ytype::{Val, YType};

/// A schema node, named by its number in preorder over all nodes of the schema, modules as given.
#[derive(Clone, Copy, Debug, PartialEq, Eq, PartialOrd, Ord, Hash)]
pub struct SchemaId(pub u32);

impl SchemaId {
    /// The node of a number.
    pub fn new(number: u32) -> SchemaId
        ensures { result ≡ record { 0 = number } }
    {
        SchemaId(number)
    }

    /// Its number, from 0.
    pub fn number(self) -> usize
        ensures value { result ≡ self.0 }
        ensures bound { result < 2 ^ 32 }
    {
        self.0 as usize
    }
}

/// The name of a type as its `type` statement has it, with its prefix (RFC 7950, 7.4).
#[derive(Debug, Drop)]
pub enum TypeName {
    /// That of a built-in type.
    BuiltIn(BuiltIn),
    /// Any other: that of a derived type.
    Derived(String),
}

impl TypeName {
    ghost use Rattle.std.specs.Prelude.{◌≡◌, IfOk};
    ghost use Rattle.yschema_model.specs.Layout.{type_name_view};

    /// The name that a text is. That of a built-in type takes no memory.
    pub fn of(alloc: Global, text: &str) -> Result<TypeName, AllocError>
        ensures { IfOk result (λ name. type_name_view name ≡ text.now) }
    {
        match BuiltIn::named(text) {
            Some(built_in) => Ok(TypeName::BuiltIn(built_in)),
            None => Ok(TypeName::Derived(String::from_str(alloc, text)?)),
        }
    }

    /// Its text.
    pub fn text(&self) -> &str
        ensures { result.now ≡ type_name_view self.now }
    {
        match self {
            TypeName::BuiltIn(built_in) => built_in.name(),
            TypeName::Derived(text) => text.as_str(),
        }
    }
}

/// What a member of a union refers to that is one of a leafref's (RFC 7950, 9.9 and 9.12).
#[derive(Clone, Copy, Debug, PartialEq, Eq)]
pub struct MemberTarget {
    /// The leafref's target.
    pub target: SchemaId,
    /// As which member of its type the value stands there, where that is a union.
    pub member: Option<usize>,
    pub is_required: bool,
}

/// What members of a union refer to that stand one behind the other, however many they are.
#[derive(Clone, Copy, Debug, PartialEq, Eq)]
pub enum MemberTargets {
    /// So many that are no leafref's: nothing.
    Own(usize),
    /// That of a leafref whose target's type is no union.
    One {
        target: SchemaId,
        is_required: bool,
    },
    /// Those of a leafref whose target's type is a union of so many members, in its order.
    All {
        target: SchemaId,
        count: usize,
        is_required: bool,
    },
}

impl MemberTargets {
    ghost use Rattle.std.specs.Prelude.{◌≡◌, ◌<◌, None, length, option_map, slice_get, unwrap_or};
    ghost use Rattle.yspec.specs.schema.References as words;
    ghost use Rattle.yschema_model.specs.Layout.{each_target, member_target_view, targets_view};

    /// How many these members are.
    pub(crate) fn count(&self) -> usize
        ensures { result ≡ length (each_target self.now) }
    {
        match self {
            MemberTargets::Own(count) => *count,
            MemberTargets::One { .. } => 1,
            MemberTargets::All { count, .. } => *count,
        }
    }

    /// What the one of a number among them refers to.
    fn at(&self, number: usize) -> Option<MemberTarget>
        ensures { number < length (each_target self.now)
            → option_map member_target_view result
            ≡ unwrap_or (slice_get (each_target self.now) number) None }
    {
        match self {
            MemberTargets::Own(_) => None,
            MemberTargets::One {
                target,
                is_required,
            } => Some(MemberTarget {
                target: *target,
                member: None,
                is_required: *is_required,
            }),
            MemberTargets::All {
                target,
                is_required,
                ..
            } => Some(MemberTarget {
                target: *target,
                member: Some(number),
                is_required: *is_required,
            }),
        }
    }

    /// What the member of a number refers to, of all members of a union.
    fn found(all: &[MemberTargets], number: usize) -> Option<MemberTarget>
        ensures { option_map member_target_view result
            ≡ unwrap_or (slice_get (targets_view all.now) number) None }
    {
        let mut left = number;
        for members in all {
            let count = members.count();
            if left < count {
                return members.at(left);
            }
            left -= count;
        }
        None
    }

    /// Whether there is any member.
    fn are_some(all: &[MemberTargets]) -> bool
        ensures { result ≡ words.has_leafrefs (targets_view all.now) }
    {
        for members in all {
            if members.count() > 0 {
                return true;
            }
        }
        false
    }
}

/// How a document has a value.
#[derive(Clone, Copy, Debug, PartialEq, Eq)]
pub enum JsonForm {
    /// As its type says (RFC 7951, 6).
    ByType,
    /// It has any JSON value, whose compact text the value is: an `anyxml` (RFC 7951, 5.6).
    AnyValue,
    /// It has any object: an `anydata` (RFC 7951, 5.5).
    AnyObject,
}

/// The type of a leaf or of items, and its name in the `type` statement; of a leafref it is that of its target, which
/// stands beside it (RFC 7950, 9.9). Beside a union with leafrefs stands what its members refer to, those of the targets'
/// types being its own; beside any other, nothing.
#[derive(Debug, Drop)]
pub struct LeafType {
    pub name: TypeName,
    pub value_type: YType,
    pub target: Option<SchemaId>,
    pub targets: Vec<MemberTargets>,
    pub form: JsonForm,
}

/// What a value refers to: a schema node, the value that an instance of it has, and whether there must be one.
#[derive(Debug, Drop)]
pub struct Reference {
    pub target: SchemaId,
    pub value: Val,
    pub is_required: bool,
}

impl LeafType {
    ghost use Rattle.std.specs.Prelude.{◌≡◌, option_map};
    ghost use Rattle.yspec.specs.schema.References as words;
    ghost use Rattle.yschema_model.specs.Layout.{leaf_type_view, member_target_view, reference_view, targets_view};

    /// Whether a value of it may refer to something that must be there.
    pub fn may_require(&self) -> bool
        ensures { result ≡ words.may_require (leaf_type_view self.now) }
    {
        if MemberTargets::are_some(&self.targets) {
            return true;
        }
        match self.target {
            Some(_) => self.requires_instance(),
            None => false,
        }
    }

    /// Whether an instance of its target is required, where it is a leafref.
    fn requires_instance(&self) -> bool
        ensures { result ≡ words.requires_instance self.now.value_type }
    {
        self.value_type.requires_instance().unwrap_or(false)
    }

    /// What the member of a union refers to that took a value.
    pub fn member_target(&self, value: &Val) -> Option<MemberTarget>
        ensures { option_map member_target_view result
            ≡ words.member_target (targets_view self.now.targets.items) value.now }
    {
        match value.member() {
            Some(number) => MemberTargets::found(&self.targets, number),
            None => None,
        }
    }

    /// What a value of it refers to, by the leafref that it is or the member of a union that took the value.
    pub fn reference(&self, value: Val) -> Option<Reference>
        ensures { option_map reference_view result
            ≡ words.reference_in (leaf_type_view self.now) value }
    {
        match self.target {
            Some(target) => Some(Reference {
                target,
                value,
                is_required: self.requires_instance(),
            }),
            None => self.member_reference(value),
        }
    }

    /// What a value refers to by the member of a union that took it.
    fn member_reference(&self, value: Val) -> Option<Reference>
        ensures { option_map reference_view result ≡ option_map (words.member_reference value)
            (words.member_target (targets_view self.now.targets.items) value) }
    {
        match self.member_target(&value) {
            Some(member) => Some(Reference {
                target: member.target,
                value: value.of_member(member.member),
                is_required: member.is_required,
            }),
            None => None,
        }
    }
}

/// What it means that a leaf isn't stored.
#[derive(Debug, Drop)]
pub enum Absence {
    /// Nothing.
    Allowed,
    /// Its default is in use (RFC 7950, 7.6.1).
    DefaultUsed(Val),
    /// It is mandatory (RFC 7950, 7.6.5).
    Mandatory,
    /// It is a key of its list (RFC 7950, 7.8.2).
    Key,
}

/// How many entries or items there may be: min-elements and max-elements (RFC 7950, 7.7.5 and 7.7.6).
#[derive(Clone, Copy, Debug, PartialEq, Eq)]
pub struct Amount {
    pub min_elements: u32,
    pub max_elements: Option<u32>,
}

/// The leafs of a list whose values tell its entries apart (RFC 7950, 7.8.2 and 7.8.3).
#[derive(Debug, Drop)]
pub struct Tuples {
    /// Those of its key, which stand directly in it.
    pub keys: Vec<SchemaId>,
    /// Those of each `unique`, each by the containers that lead to it and itself.
    pub uniques: Vec<Vec<Vec<SchemaId>>>,
}

/// What only one kind of node has.
#[derive(Debug, Drop)]
pub enum Kind {
    /// A container, and whether its presence means something (RFC 7950, 7.5.1).
    Container {
        presence: bool,
    },
    /// A leaf, an `anydata` or an `anyxml` (RFC 7950, 7.6, 7.10 and 7.11).
    Leaf {
        leaf_type: LeafType,
        absence: Absence,
    },
    /// With its defaults (RFC 7950, 7.7).
    LeafList {
        leaf_type: LeafType,
        defaults: Vec<Val>,
        amount: Amount,
    },
    /// RFC 7950, 7.8.
    List {
        tuples: Tuples,
        amount: Amount,
    },
    /// With its default case (RFC 7950, 7.9).
    Choice {
        default_case: Option<SchemaId>,
        mandatory: bool,
    },
    Case,
}

impl Kind {
    ghost use Rattle.std.specs.Prelude.{◌≡◌, option_map};
    ghost use Rattle.yspec.specs.schema.Schema as spec;
    ghost use Rattle.yschema_model.specs.Layout.{form_view, kind_view, leaf_type_view, numbers_of};

    /// Whether it stands in documents: all but choices and cases.
    pub fn is_data(&self) -> bool
        ensures { result ≡ spec.is_data (kind_view self.now) }
    {
        !matches!(self, Kind::Choice { .. } | Kind::Case)
    }

    /// Whether it may be stored more than once in a row.
    pub fn is_many(&self) -> bool
        ensures { result ≡ spec.is_many (kind_view self.now) }
    {
        matches!(self, Kind::List { .. } | Kind::LeafList { .. })
    }

    /// Whether it holds a value.
    pub fn has_value(&self) -> bool
        ensures { result ≡ spec.has_value (kind_view self.now) }
    {
        matches!(self, Kind::Leaf { .. } | Kind::LeafList { .. })
    }

    /// The key leafs of a list; none of another kind, nor of a list without key.
    pub fn keys(&self) -> &[SchemaId]
        ensures { numbers_of result.now ≡ spec.keys_in (kind_view self.now) }
    {
        match self {
            Kind::List { tuples, .. } => tuples.keys.as_slice(),
            _ => &[],
        }
    }

    /// The type of a leaf or of items; none of a kind without a value.
    pub fn leaf_type(&self) -> Option<&LeafType>
        ensures { option_map (λ t. leaf_type_view t.now) result
            ≡ spec.type_in (kind_view self.now) }
    {
        match self {
            Kind::Leaf { leaf_type, .. } | Kind::LeafList { leaf_type, .. } => Some(leaf_type),
            _ => None,
        }
    }

    /// How a document has its values; as its type says where it has none.
    pub fn form(&self) -> JsonForm
        ensures { form_view result ≡ spec.form_in (kind_view self.now) }
    {
        match self {
            Kind::Leaf { leaf_type, .. } | Kind::LeafList { leaf_type, .. } => leaf_type.form,
            _ => JsonForm::ByType,
        }
    }
}

/// All that a schema holds of a node. The module is given by its number in the set.
#[derive(Debug, Drop)]
pub struct SchemaNode {
    pub module: usize,
    pub name: String,
    pub config: bool,
    /// Whether none of its items may stand twice, where it is a leaf-list (RFC 7950, 7.7; RFC 6020, 7.7).
    pub distinct_items: bool,
    pub status: Status,
    pub kind: Kind,
}
