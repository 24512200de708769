//! What names stand for: those of a scope, and those of a description.

ghost use Rattle.std.specs.Prelude.{◌≡◌, ◌<◌, find, length, slice_get, IfSome};
ghost use Rattle.std.specs.Option.{option_copied};
ghost use Rattle.std.specs.Str.{bytes_eq};
ghost use Rattle.mspec_expr.specs.Kinds.{case_fields, constants_in, constants_of, def_named, fields_in, fields_of, first_cases, layer, params_of, switch_cases};

use crate::scopes::MeantName;
use mspec_tree::{Body, Case, Constant, Def, DefBody, Description, Field, Name, Param};
use sqlite_items::at;

/// Whether a name is spelt so.
pub fn is_named(name: &Name, bytes: &[u8]) -> bool
    ensures { result ≡ bytes_eq name.now bytes.now }
{
    name.as_slice() == bytes
}

/// The first of these names that is spelt so.
pub fn meant_named<'a>(names: &'a [MeantName], name: &[u8]) -> Option<&'a MeantName>
    ensures { option_copied result ≡ find (λ seen. bytes_eq seen.name name.now) names.now }
{
    names.iter().find(|seen| is_named(&seen.name, name))
}

/// The place of the first definition of this name.
pub fn def_named(d: &Description, name: &[u8]) -> Option<usize>
    ensures { result ≡ def_named d.now name.now }
{
    d.defs
        .as_slice()
        .iter()
        .position(|def| is_named(&def.name, name))
}

/// The definition at a place.
pub fn def_at(d: &Description, def: usize) -> Option<&Def>
    ensures { option_copied result ≡ slice_get d.now.defs def }
{
    d.defs.get(def)
}

fn fields_in(body: &DefBody) -> &[Field]
    ensures { result.now ≡ fields_in body.now }
{
    match body {
        DefBody::Plain(fields) => fields.as_slice(),
        DefBody::Switched(fields) => fields.as_slice(),
        DefBody::DataIo(field) => std::slice::from_ref(field),
        DefBody::Enum(..) => &[],
    }
}

/// The fields of the definition at a place.
pub fn fields_of(d: &Description, def: usize) -> &[Field]
    ensures { result.now ≡ fields_of d.now def }
{
    match def_at(d, def) {
        Some(found) => fields_in(&found.body),
        None => &[],
    }
}

fn constants_in(body: &DefBody) -> &[Constant]
    ensures { result.now ≡ constants_in body.now }
{
    match body {
        DefBody::Enum(_, constants) => constants.as_slice(),
        _ => &[],
    }
}

/// The constants of the enum at a place.
pub fn constants_of(d: &Description, def: usize) -> &[Constant]
    ensures { result.now ≡ constants_of d.now def }
{
    match def_at(d, def) {
        Some(found) => constants_in(&found.body),
        None => &[],
    }
}

/// The parameters of the definition at a place.
pub fn params_of(d: &Description, def: usize) -> &[Param]
    ensures { result.now ≡ params_of d.now def }
{
    match def_at(d, def) {
        Some(found) => found.params.as_slice(),
        None => &[],
    }
}

/// The first constant of this name.
pub fn constant_named<'a>(constants: &'a [Constant], name: &[u8]) -> Option<&'a Constant>
    ensures { option_copied result ≡ find (λ constant. bytes_eq constant.name name.now) constants.now }
{
    constants
        .iter()
        .find(|constant| is_named(&constant.name, name))
}

/// The first parameter of this name.
pub fn param_named<'a>(params: &'a [Param], name: &[u8]) -> Option<&'a Param>
    ensures { option_copied result ≡ find (λ param. bytes_eq param.name name.now) params.now }
{
    params.iter().find(|param| is_named(&param.name, name))
}

/// The fields of a case.
pub fn case_fields(case: usize, cases: &[Case]) -> &[Field]
    ensures { result.now ≡ case_fields case cases.now }
{
    if case == 0 {
        return &[];
    }
    match at(cases, case - 1) {
        Some(found) => found.fields.as_slice(),
        None => &[],
    }
}

/// The cases of a switch.
fn switch_cases(field: &Field) -> Option<&[Case]>
    ensures { option_copied result ≡ switch_cases (layer field.now) }
{
    match &field.body {
        Body::Switch(_, cases) => Some(cases.as_slice()),
        _ => None,
    }
}

/// The cases of the first switch among fields.
pub fn first_cases(fields: &[Field]) -> &[Case]
    ensures { result.now ≡ first_cases fields.now }
{
    for field in fields {
        if let Some(cases) = switch_cases(field) {
            return cases;
        }
    }
    &[]
}
