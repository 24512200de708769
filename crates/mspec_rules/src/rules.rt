//! All that is wrong with a description by the rules that need no ranges of expressions.

ghost use Rattle.std.specs.Prelude.{◌≡◌, ◌++◌};
ghost use Rattle.std.specs.List.{flat_map};
ghost use Rattle.mspec_tree.specs.declared.fields.Field.{out-Field};
ghost use Rattle.mspec_tree.specs.declared.fields.Case.{out-Case};
ghost use Rattle.mspec_rules.specs.Wrongs.{earlier, found};
ghost use Rattle.mspec_rules.specs.Literals.{constant_wrongs};
ghost use Rattle.mspec_rules.specs.Types.{param_wrongs};
ghost use Rattle.mspec_rules.specs.Rules.{body_wrongs, case_wrongs, def_wrongs, entry_wrongs, field_wrongs, type_wrongs};
ghost use Rattle.mspec_rules.specs.Limits.{limit_wrongs};

use crate::limits::{defs_limit, defs_limits};
use crate::literals::{constant_wrong, field_literal};
use crate::names::names_wrong;
use crate::parts::parts_limit;
use crate::switches::{key_count, switch_count};
use crate::types::{base_wrong, field_count, field_kind, field_order, field_width, param_wrong};
use crate::walks::told_of_all;
use crate::wrongs::Wrong;
use mspec_tree::{Body, Case, Constant, Def, DefBody, Description, Field, Name, Param, Simple};

#[tactic(auto, using(crate::specs::Found::found_then))]
fn field_wrong(d: &Description, first: Option<Wrong>, field: &Field) -> Option<Wrong>
    ensures { result ≡ earlier first (found (field_wrongs d.now field.now)) }
{
    let kind = field_kind(d, first, field);
    let wide = field_width(kind, field);
    let order = field_order(d, wide, field);
    let literal = field_literal(order, field);
    field_count(d, literal, field)
}

#[tactic(auto, using(crate::specs::Found::found_then))]
fn case_wrong(d: &Description, first: Option<Wrong>, names: &[Name], case: &Case) -> Option<Wrong>
    ensures { result ≡ earlier first (found (case_wrongs d.now names.now case.now)) }
{
    let keys = key_count(first, names, case);
    told_of_all(keys, case.fields.as_slice(), |so_far, field| {
        field_wrong(d, so_far, field)
    })
}

fn entry_wrong(d: &Description, first: Option<Wrong>, field: &Field) -> Option<Wrong>
    ensures { result ≡ earlier first (found (entry_wrongs d.now field.now)) }
{
    match &field.body {
        Body::Switch(names, cases) => {
            let names = names.as_slice();
            told_of_all(first, cases.as_slice(), |so_far, case| {
                case_wrong(d, so_far, names, case)
            })
        }
        _ => field_wrong(d, first, field),
    }
}

fn entries_wrong(d: &Description, first: Option<Wrong>, fields: &[Field]) -> Option<Wrong>
    ensures { result ≡ earlier first (found (flat_map (entry_wrongs d.now) fields.now)) }
{
    told_of_all(first, fields, |so_far, field| entry_wrong(d, so_far, field))
}

fn constants_wrong(
    d: &Description,
    first: Option<Wrong>,
    base: Simple,
    params: &[Param],
    constants: &[Constant],
) -> Option<Wrong>
    ensures { result ≡ earlier first (found (flat_map (constant_wrongs d.now base params.now) constants.now)) }
{
    told_of_all(first, constants, |so_far, constant| {
        constant_wrong(d, so_far, base, params, constant)
    })
}

#[tactic(auto, using(crate::specs::Found::found_then))]
fn body_wrong(d: &Description, first: Option<Wrong>, def: &Def) -> Option<Wrong>
    ensures { result ≡ earlier first (found (body_wrongs d.now def.now def.now.body)) }
{
    match &def.body {
        DefBody::Plain(fields) => entries_wrong(d, first, fields.as_slice()),
        DefBody::Switched(fields) => {
            let count = switch_count(first, def.named, fields.as_slice());
            entries_wrong(d, count, fields.as_slice())
        }
        DefBody::DataIo(field) => entry_wrong(d, first, field),
        DefBody::Enum(base, constants) => {
            let kind = base_wrong(first, def.place, *base);
            constants_wrong(d, kind, *base, def.params.as_slice(), constants.as_slice())
        }
    }
}

#[tactic(auto, using(crate::specs::Found::found_then))]
fn def_wrong(d: &Description, first: Option<Wrong>, def: &Def) -> Option<Wrong>
    ensures { result ≡ earlier first (found (def_wrongs d.now def.now)) }
{
    let params = told_of_all(first, def.params.as_slice(), |so_far, param| {
        param_wrong(d, so_far, param)
    });
    body_wrong(d, params, def)
}

/// What is wrong with definitions by themselves.
fn defs_wrong(d: &Description, first: Option<Wrong>) -> Option<Wrong>
    ensures { result ≡ earlier first (found (flat_map (def_wrongs d.now) d.now.defs)) }
{
    told_of_all(first, d.defs.as_slice(), |so_far, def| {
        def_wrong(d, so_far, def)
    })
}

/// What is past a limit.
#[tactic(auto, using(crate::specs::Found::found_then))]
fn limits_wrong(d: &Description, first: Option<Wrong>) -> Option<Wrong>
    ensures { result ≡ earlier first (found (limit_wrongs d.now)) }
{
    let defs = defs_limit(first, d.defs.as_slice());
    let each = defs_limits(defs, d.defs.as_slice());
    parts_limit(d, each)
}

/// The first of all that is wrong with a description by the rules that need no ranges of expressions: the one at the least place, at one
/// place the one of the lowest rule, and within a rule the first word. Limits are looked at before names, since what stands behind a
/// fault isn't compared with all that stands before it. It takes no memory.
#[tactic(auto, using(crate::specs::Found::found_then))]
pub fn type_wrong(d: &Description) -> Option<Wrong>
    ensures { result ≡ found (type_wrongs d.now) }
{
    let limits = limits_wrong(d, None);
    let types = defs_wrong(d, limits);
    names_wrong(d, types)
}
