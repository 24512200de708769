//! Definitions, fields, cases, parameters and constants with the name of one before them.

ghost use Rattle.std.specs.Prelude.{◌≡◌, ◌++◌, ◌+◌, ◌<◌, [], List, map, length};
ghost use Rattle.std.specs.List.{flat_map, list_any};
ghost use Rattle.std.specs.Str.{bytes_eq};
ghost use Rattle.mspec_tree.specs.declared.fields.Case.{out-Case};
ghost use Rattle.mspec_tree.specs.declared.fields.Field.{out-Field};
ghost use Rattle.mspec_expr.specs.Kinds.{layer};
ghost use Rattle.mspec_rules.specs.Wrongs.{earlier, found};
ghost use Rattle.mspec_rules.specs.Names.{case_names, cases_names, clashes, constant_names, def_doubled, def_names, doubled, entry_names, field_names, fields_doubled, is_nameless, meets, name_wrongs, param_names, switch_doubled};
ghost use Rattle.mspec_rules.specs.Fronts.{front_names};

use crate::titles::titles_doubled;
use crate::walks::told_of_all;
use crate::wrongs::{CheckWhy, Rule, Wrong, matters, told_if};
use mspec_expr::is_named;
use mspec_tree::{Body, Case, Constant, Def, DefBody, Description, Field, Param};

/// What stands before a case's fields: the parameters of its definition, the fields before its switch, and the cases before it. `case` is
/// its number, from 1, or 0 for the fields outside of cases.
#[derive(Drop)]
pub(crate) struct Front<'a> {
    params: &'a [Param],
    fields: &'a [Field],
    cases: &'a [Case],
    case: usize,
}

// Whether something has a name, of what stands in one list with the fields of a case.

fn has_param(params: &[Param], name: &[u8]) -> bool
    ensures { result ≡ list_any (λ param. bytes_eq param.name name.now) params.now }
{
    params.iter().any(|param| is_named(&param.name, name))
}

fn meets(case: usize, other: usize) -> bool
    ensures { result ≡ meets case other }
{
    other == 0 || case == 0 || case == other
}

fn is_nameless(field: &Field) -> bool
    ensures { result ≡ is_nameless (layer field.now) }
{
    matches!(&field.body, Body::Reserved(..) | Body::Switch(..))
}

/// `of` is the number of the field's case.
fn has_field(of: usize, field: &Field, case: usize, name: &[u8]) -> bool
    ensures { result ≡ list_any (clashes name.now case) (field_names of field.now) }
{
    !is_nameless(field) && meets(case, of) && is_named(&field.name, name)
}

fn have_fields(of: usize, fields: &[Field], case: usize, name: &[u8]) -> bool
    ensures { result ≡ list_any (λ field. list_any (clashes name.now case) (field_names of field)) fields.now }
{
    fields.iter().any(|field| has_field(of, field, case, name))
}

fn have_cases(cases: &[Case], case: usize, name: &[u8]) -> bool
    ensures { result ≡ list_any (clashes name.now case) (cases_names 1 cases.now) }
{
    for (i, one) in cases.iter().enumerate() {
        if have_fields(i + 1, one.fields.as_slice(), case, name) {
            return true;
        }
    }
    false
}

fn has_entry(field: &Field, case: usize, name: &[u8]) -> bool
    ensures { result ≡ list_any (clashes name.now case) (entry_names field.now) }
{
    match &field.body {
        Body::Switch(_, cases) => have_cases(cases.as_slice(), case, name),
        _ => has_field(0, field, case, name),
    }
}

fn have_entries(fields: &[Field], case: usize, name: &[u8]) -> bool
    ensures { result ≡ list_any (λ field. list_any (clashes name.now case) (entry_names field)) fields.now }
{
    fields.iter().any(|field| has_entry(field, case, name))
}

fn is_taken(front: &Front<'_>, own: &[Field], name: &[u8]) -> bool
    ensures { result ≡ list_any (clashes name.now front.now.case) (front_names front.now ++ flat_map (field_names front.now.case) own.now) }
{
    has_param(front.params, name)
        || have_entries(front.fields, front.case, name)
        || have_cases(front.cases, front.case, name)
        || have_fields(front.case, own, front.case, name)
}

// Walks over the fields of a definition.

/// A field with these before it in its own list. They aren't looked at where it wouldn't be told.
fn field_doubled(
    first: Option<Wrong>,
    front: &Front<'_>,
    own: &[Field],
    field: &Field,
) -> Option<Wrong>
    ensures { result ≡ earlier first (found (doubled (front_names front.now ++ flat_map (field_names front.now.case) own.now) (field_names front.now.case field.now))) }
{
    if is_nameless(field) {
        return first;
    }
    let place = field.named;
    let (rule, why) = (Rule::Names, CheckWhy::DoubledName);
    if !matters(first, Wrong { place, rule, why }) {
        return first;
    }
    let is_second = is_taken(front, own, field.name.as_slice());
    told_if(first, is_second, place, rule, why)
}

/// The fields of a case.
fn case_doubled(first: Option<Wrong>, front: &Front<'_>, fields: &[Field]) -> Option<Wrong>
    ensures { result ≡ earlier first (found (doubled (front_names front.now) (flat_map (field_names front.now.case) fields.now))) }
{
    let mut next = first;
    for (i, field) in fields.iter().enumerate() {
        next = field_doubled(next, front, &fields[..i], field);
    }
    next
}

/// The fields of all cases of a switch, with these fields before it.
fn cases_doubled(
    first: Option<Wrong>,
    params: &[Param],
    fields: &[Field],
    cases: &[Case],
) -> Option<Wrong>
    ensures { result ≡ earlier first (found (doubled (param_names params.now ++ flat_map entry_names fields.now) (cases_names 1 cases.now))) }
{
    let mut next = first;
    for (i, one) in cases.iter().enumerate() {
        let front = Front {
            params,
            fields,
            cases: &cases[..i],
            case: i + 1,
        };
        next = case_doubled(next, &front, one.fields.as_slice());
    }
    next
}

/// A field outside of cases, or the fields of a switch's cases, with these fields before it.
fn entry_doubled(
    first: Option<Wrong>,
    params: &[Param],
    fields: &[Field],
    field: &Field,
) -> Option<Wrong>
    ensures { result ≡ earlier first (found (doubled (param_names params.now ++ flat_map entry_names fields.now) (entry_names field.now))) }
{
    if let Body::Switch(_, cases) = &field.body {
        return cases_doubled(first, params, fields, cases.as_slice());
    }
    let front = Front {
        params,
        fields,
        cases: &[],
        case: 0,
    };
    field_doubled(first, &front, &[], field)
}

/// Parameters and fields of a definition with the name of one before them.
pub(crate) fn fields_doubled(
    first: Option<Wrong>,
    params: &[Param],
    fields: &[Field],
) -> Option<Wrong>
    ensures { result ≡ earlier first (found (fields_doubled params.now fields.now)) }
{
    let mut next = titles_doubled(first, params);
    for (i, field) in fields.iter().enumerate() {
        next = entry_doubled(next, params, &fields[..i], field);
    }
    next
}

// The other lists.

fn cases_titled(first: Option<Wrong>, cases: &[Case]) -> Option<Wrong>
    ensures { result ≡ earlier first (found (doubled [] (case_names cases.now))) }
{
    titles_doubled(first, cases)
}

fn enum_titled(first: Option<Wrong>, params: &[Param], constants: &[Constant]) -> Option<Wrong>
    ensures { result ≡ earlier first (found (doubled [] (param_names params.now) ++ doubled [] (constant_names constants.now))) }
{
    let own = titles_doubled(first, params);
    titles_doubled(own, constants)
}

fn defs_titled(first: Option<Wrong>, defs: &[Def]) -> Option<Wrong>
    ensures { result ≡ earlier first (found (doubled [] (def_names defs.now))) }
{
    titles_doubled(first, defs)
}

fn switch_doubled(first: Option<Wrong>, field: &Field) -> Option<Wrong>
    ensures { result ≡ earlier first (found (switch_doubled field.now)) }
{
    match &field.body {
        Body::Switch(_, cases) => cases_titled(first, cases.as_slice()),
        _ => first,
    }
}

#[tactic(auto, using(crate::specs::Found::found_then))]
fn def_doubled(first: Option<Wrong>, def: &Def) -> Option<Wrong>
    ensures { result ≡ earlier first (found (def_doubled def.now)) }
{
    let params = def.params.as_slice();
    match &def.body {
        DefBody::Plain(fields) => fields_doubled(first, params, fields.as_slice()),
        DefBody::Switched(fields) => {
            let own = fields_doubled(first, params, fields.as_slice());
            told_of_all(own, fields.as_slice(), |so_far, field| {
                switch_doubled(so_far, field)
            })
        }
        DefBody::DataIo(field) => fields_doubled(first, params, std::slice::from_ref(field)),
        DefBody::Enum(_, constants) => enum_titled(first, params, constants.as_slice()),
    }
}

/// All names of a description.
#[tactic(auto, using(crate::specs::Found::found_then))]
pub(crate) fn names_wrong(d: &Description, first: Option<Wrong>) -> Option<Wrong>
    ensures { result ≡ earlier first (found (name_wrongs d.now)) }
{
    let defs = defs_titled(first, d.defs.as_slice());
    told_of_all(defs, d.defs.as_slice(), |so_far, def| {
        def_doubled(so_far, def)
    })
}
