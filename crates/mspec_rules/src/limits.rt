//! The first definition, parameter, case or field past a limit.

ghost use Rattle.std.specs.Prelude.{◌≡◌, List, Option, map, slice_get};
ghost use Rattle.std.specs.List.{flat_map};
ghost use Rattle.mspec_tree.specs.declared.fields.Case.{out-Case};
ghost use Rattle.mspec_tree.specs.declared.fields.Field.{out-Field};
ghost use Rattle.mspec_tree.specs.declared.words.Place.{Place};
ghost use Rattle.mspec_expr.specs.Kinds.{entry_fields, entry_fields_in, fields_in, layer};
ghost use Rattle.mspec_rules.specs.Wrongs.{earlier, found};
ghost use Rattle.mspec_rules.specs.Limits.{case_limits, def_limits, field_limits, field_places, limit_at, most_cases, most_defs, most_fields, param_limit, past, switch_limit};

use crate::walks::told_of_all;
use crate::wrongs::{CheckWhy, Rule, Wrong, told_if};
use mspec_expr::{case_fields, first_cases};
use mspec_tree::{Body, Case, Def, DefBody, Field, Param, Place};
use sqlite_items::at;

/// How many definitions a description may have.
pub const MOST_DEFS: usize = 1024;

/// How many fields a type may have, a case counted with its parent.
pub const MOST_FIELDS: usize = 256;

/// How many cases a switch may have.
pub const MOST_CASES: usize = 256;

/// How many parameters a definition may have.
pub const MOST_PARAMS: usize = 16;

/// What is told of the first past a limit, if there is one.
pub(crate) fn limit_at(first: Option<Wrong>, place: Option<Place>) -> Option<Wrong>
    ensures { result ≡ earlier first (found (limit_at place)) }
{
    match place {
        Some(place) => told_if(first, true, place, Rule::Limits, CheckWhy::Limit),
        None => first,
    }
}

/// The first definition past the limit.
pub(crate) fn defs_limit(first: Option<Wrong>, defs: &[Def]) -> Option<Wrong>
    ensures { result ≡ earlier first (found (past most_defs (map (λ def. def.place) defs.now))) }
{
    limit_at(first, at(defs, MOST_DEFS).map(|def| def.place))
}

fn param_limit(first: Option<Wrong>, params: &[Param]) -> Option<Wrong>
    ensures { result ≡ earlier first (found (param_limit params.now)) }
{
    limit_at(first, at(params, MOST_PARAMS).map(|param| param.place))
}

fn case_past(cases: &[Case]) -> Option<Place>
    ensures { result ≡ slice_get (map (λ case. (out-Case case).place) cases.now) most_cases }
{
    at(cases, MOST_CASES).map(|case| case.place)
}

fn switch_limit(first: Option<Wrong>, field: &Field) -> Option<Wrong>
    ensures { result ≡ earlier first (found (switch_limit field.now)) }
{
    match &field.body {
        Body::Switch(_, cases) => limit_at(first, case_past(cases.as_slice())),
        _ => first,
    }
}

/// A field, or the fields of a case in its switch's place.
fn own_fields(case: usize, field: &Field) -> &[Field]
    ensures { result.now ≡ entry_fields_in case field.now (layer field.now) }
{
    match &field.body {
        Body::Switch(_, cases) => case_fields(case, cases.as_slice()),
        _ => std::slice::from_ref(field),
    }
}

/// The first past the limit of the fields outside of switches and those of this case, which stand in its switch's place.
fn field_past(fields: &[Field], case: usize) -> Option<Place>
    ensures { result ≡ slice_get (field_places (entry_fields case fields.now)) most_fields }
{
    let mut left = MOST_FIELDS;
    for field in fields {
        let own = own_fields(case, field);
        if let Some(found) = at(own, left) {
            return Some(found.place);
        }
        left -= own.len();
    }
    None
}

fn case_limits(first: Option<Wrong>, fields: &[Field], cases: &[Case]) -> Option<Wrong>
    ensures { result ≡ earlier first (found (case_limits fields.now 1 cases.now)) }
{
    let mut next = first;
    for i in 0..cases.len() {
        next = limit_at(next, field_past(fields, i + 1));
    }
    next
}

fn field_limits(first: Option<Wrong>, fields: &[Field]) -> Option<Wrong>
    ensures { result ≡ earlier first (found (field_limits fields.now)) }
{
    let outside = limit_at(first, field_past(fields, 0));
    case_limits(outside, fields, first_cases(fields))
}

/// The fields of a definition's bracket.
pub(crate) fn fields_in(body: &DefBody) -> &[Field]
    ensures { result.now ≡ fields_in body.now }
{
    match body {
        DefBody::Plain(fields) => fields.as_slice(),
        DefBody::Switched(fields) => fields.as_slice(),
        DefBody::DataIo(field) => std::slice::from_ref(field),
        DefBody::Enum(..) => &[],
    }
}

#[tactic(auto, using(crate::specs::Found::found_then))]
fn switch_limits(first: Option<Wrong>, fields: &[Field]) -> Option<Wrong>
    ensures { result ≡ earlier first (found (flat_map switch_limit fields.now)) }
{
    told_of_all(first, fields, |so_far, field| switch_limit(so_far, field))
}

#[tactic(auto, using(crate::specs::Found::found_then))]
fn def_limits(first: Option<Wrong>, def: &Def) -> Option<Wrong>
    ensures { result ≡ earlier first (found (def_limits def.now)) }
{
    let fields = fields_in(&def.body);
    let params = param_limit(first, def.params.as_slice());
    let own = field_limits(params, fields);
    switch_limits(own, fields)
}

/// The parameters, fields and cases of each definition.
pub(crate) fn defs_limits(first: Option<Wrong>, defs: &[Def]) -> Option<Wrong>
    ensures { result ≡ earlier first (found (flat_map def_limits defs.now)) }
{
    told_of_all(first, defs, |so_far, def| def_limits(so_far, def))
}
