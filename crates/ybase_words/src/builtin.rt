//! The names of the built-in types (RFC 7950, 4.2.4).

ghost use Rattle.std.specs.Prelude.{◌≡◌, option_map};
ghost use Rattle.yspec.specs.linking.TypeStatements.{built_in_name, built_in_named};
ghost use Rattle.ybase_words.specs.Lengths.{is_four, is_five, is_six, is_another, type_among};
ghost use Rattle.ybase_words.specs.BuiltInView.{built_in_view};

/// A built-in type that is compiled.
#[derive(Clone, Copy, Debug, PartialEq, Eq)]
pub enum BuiltIn {
    Int8,
    Int16,
    Int32,
    Int64,
    Uint8,
    Uint16,
    Uint32,
    Uint64,
    Decimal64,
    String,
    Boolean,
    Empty,
    Enumeration,
    Bits,
    Union,
    Leafref,
    Identityref,
    Binary,
}

impl BuiltIn {
    /// The built-in type of a name. It is looked for among those of its length, frequent ones first.
    pub fn named(name: &str) -> Option<BuiltIn>
        ensures { option_map built_in_view result ≡ built_in_named name.now }
    {
        let length = name.len();
        if length == 5 {
            of_five(name)
        } else if length == 6 {
            of_six(name)
        } else if length == 4 {
            of_four(name)
        } else {
            of_another_length(name)
        }
    }

    /// Its name.
    pub fn name(self) -> &'static str
        ensures { result.now ≡ built_in_name (built_in_view self) }
    {
        match self {
            BuiltIn::Int8 => "int8",
            BuiltIn::Int16 => "int16",
            BuiltIn::Int32 => "int32",
            BuiltIn::Int64 => "int64",
            BuiltIn::Uint8 => "uint8",
            BuiltIn::Uint16 => "uint16",
            BuiltIn::Uint32 => "uint32",
            BuiltIn::Uint64 => "uint64",
            BuiltIn::Decimal64 => "decimal64",
            BuiltIn::String => "string",
            BuiltIn::Boolean => "boolean",
            BuiltIn::Empty => "empty",
            BuiltIn::Enumeration => "enumeration",
            BuiltIn::Bits => "bits",
            BuiltIn::Union => "union",
            BuiltIn::Leafref => "leafref",
            BuiltIn::Identityref => "identityref",
            BuiltIn::Binary => "binary",
        }
    }
}

fn of_four(name: &str) -> Option<BuiltIn>
    ensures { option_map built_in_view result ≡ type_among is_four name.now }
{
    Some(match name {
        "int8" => BuiltIn::Int8,
        "bits" => BuiltIn::Bits,
        _ => return None,
    })
}

fn of_five(name: &str) -> Option<BuiltIn>
    ensures { option_map built_in_view result ≡ type_among is_five name.now }
{
    Some(match name {
        "int16" => BuiltIn::Int16,
        "int32" => BuiltIn::Int32,
        "int64" => BuiltIn::Int64,
        "uint8" => BuiltIn::Uint8,
        "empty" => BuiltIn::Empty,
        "union" => BuiltIn::Union,
        _ => return None,
    })
}

fn of_six(name: &str) -> Option<BuiltIn>
    ensures { option_map built_in_view result ≡ type_among is_six name.now }
{
    Some(match name {
        "string" => BuiltIn::String,
        "uint16" => BuiltIn::Uint16,
        "uint32" => BuiltIn::Uint32,
        "uint64" => BuiltIn::Uint64,
        "binary" => BuiltIn::Binary,
        _ => return None,
    })
}

fn of_another_length(name: &str) -> Option<BuiltIn>
    ensures { option_map built_in_view result ≡ type_among is_another name.now }
{
    Some(match name {
        "boolean" => BuiltIn::Boolean,
        "enumeration" => BuiltIn::Enumeration,
        "leafref" => BuiltIn::Leafref,
        "decimal64" => BuiltIn::Decimal64,
        "identityref" => BuiltIn::Identityref,
        _ => return None,
    })
}
