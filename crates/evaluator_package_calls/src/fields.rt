//! The attributes of rules.
ghost use Rattle.std.specs.Prelude.{◌≡◌, map, length};
ghost use Rattle.evaluator_semantics.specs.Names.{has_name};
ghost use Rattle.evaluator_semantics.specs.Rules.{shapes_of};
ghost use Rattle.evaluator_package_calls.specs.Fields.{field_name, field_named, place_of, shapes, known_names, IsOnlyField};

use values_heap::Builtin;

/// A parameter of a rule: the target's name, or an attribute.
#[derive(Clone, Copy)]
pub enum Field {
    Actual,
    Cmd,
    Data,
    Name,
    Outs,
    Srcs,
    Tags,
    Tests,
    Tools,
    Visibility,
}

/// How many parameters there are.
pub const FIELDS: usize = 10;

const FILEGROUP: [Field; 4] = [Field::Data, Field::Srcs, Field::Tags, Field::Visibility];

const GENRULE: [Field; 6] = [
    Field::Cmd,
    Field::Outs,
    Field::Srcs,
    Field::Tags,
    Field::Tools,
    Field::Visibility,
];

const ALIAS: [Field; 3] = [Field::Actual, Field::Tags, Field::Visibility];

const TEST_SUITE: [Field; 3] = [Field::Tags, Field::Tests, Field::Visibility];

/// Returns the attributes of a rule other than `name`, in byte order.
pub fn fields_of(f: Builtin) -> &'static [Field]
    ensures { shapes result.now ≡ shapes_of f }
{
    match f {
        Builtin::Filegroup => &FILEGROUP,
        Builtin::Genrule => &GENRULE,
        Builtin::Alias => &ALIAS,
        Builtin::TestSuite => &TEST_SUITE,
        _ => &[],
    }
}

/// Returns the name of a parameter.
pub fn field_name(field: Field) -> &'static str
    ensures { result.now ≡ field_name field }
{
    match field {
        Field::Actual => "actual",
        Field::Cmd => "cmd",
        Field::Data => "data",
        Field::Name => "name",
        Field::Outs => "outs",
        Field::Srcs => "srcs",
        Field::Tags => "tags",
        Field::Tests => "tests",
        Field::Tools => "tools",
        Field::Visibility => "visibility",
    }
}

/// Returns the place of a parameter among all, in byte order of their names.
pub fn place_of(field: Field) -> usize
    ensures { result ≡ place_of field }
{
    match field {
        Field::Actual => 0,
        Field::Cmd => 1,
        Field::Data => 2,
        Field::Name => 3,
        Field::Outs => 4,
        Field::Srcs => 5,
        Field::Tags => 6,
        Field::Tests => 7,
        Field::Tools => 8,
        Field::Visibility => 9,
    }
}

// Returns the only parameter that can have a name of four bytes.
fn four_bytes(name: &[u8]) -> Field
    requires { length name.now ≡ 4 }
    ensures { IsOnlyField name.now (Some result) }
{
    match name[0] {
        b'd' => Field::Data,
        b'n' => Field::Name,
        b'o' => Field::Outs,
        b's' => Field::Srcs,
        _ => Field::Tags,
    }
}

// Returns the only parameter that can have a name of five bytes.
fn five_bytes(name: &[u8]) -> Field
    requires { length name.now ≡ 5 }
    ensures { IsOnlyField name.now (Some result) }
{
    match name[1] {
        b'e' => Field::Tests,
        _ => Field::Tools,
    }
}

// Returns the only parameter that can have a name, by its length and a byte of it.
fn only_field(name: &[u8]) -> Option<Field>
    ensures { IsOnlyField name.now result }
{
    match name.len() {
        3 => Some(Field::Cmd),
        4 => Some(four_bytes(name)),
        5 => Some(five_bytes(name)),
        6 => Some(Field::Actual),
        10 => Some(Field::Visibility),
        _ => None,
    }
}

/// Returns the parameter with a name.
pub fn field_named(name: &str) -> Option<Field>
    ensures { result ≡ field_named name.now }
{
    match only_field(name.as_bytes()) {
        Some(field) => if name == field_name(field) {
            Some(field)
        } else {
            None
        },
        None => None,
    }
}

// Returns whether an attribute is among these.
fn is_among(field: Field, fields: &[Field]) -> bool
    ensures { result ≡ has_name (field_name field) (map (λ a. a.0) (shapes fields.now)) }
{
    for other in fields {
        if place_of(field) == place_of(*other) {
            return true;
        }
    }
    false
}

/// Returns whether a parameter is `name` or an attribute among these.
pub fn is_known(field: Field, fields: &[Field]) -> bool
    ensures { result ≡ has_name (field_name field) (known_names (shapes fields.now)) }
{
    match field {
        Field::Name => true,
        _ => is_among(field, fields),
    }
}
