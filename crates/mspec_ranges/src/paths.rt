//! What names, paths and casts are.

ghost use Rattle.std.specs.Prelude.{◌≡◌, ◌<◌, ◌&&◌, ◌||◌, IfSome, find, length, not, slice_get};
ghost use Rattle.std.specs.List.{position};
ghost use Rattle.mspec_tree.specs.declared.fields.Case.{out-Case};
ghost use Rattle.std.specs.Option.{option_copied};
ghost use Rattle.std.specs.Str.{bytes_eq};
ghost use Rattle.mspec_tree.specs.declared.fields.Field.{out-Field};
ghost use Rattle.mspec_tree.specs.declared.exprs.Expr.{out-Expr};
ghost use Rattle.mspec_tree.specs.declared.exprs.Shape.{out-Shape};
ghost use Rattle.mspec_expr.specs.Kinds.{case_fields, constants_of, entry_fields, entry_fields_in, first_cases, layer};
ghost use Rattle.mspec_expr.specs.Ranges.{Judged, case_from, cast_meant, constant_is, def_is_switched, dotted_meant, enum_of_shape, field_named, found_name, has_constant, is_given, is_optional, name_in};
ghost use Rattle.mspec_ranges.specs.Verdicts.{Tells};

use crate::verdicts::{Verdict, field_is, is, nothing, unknown};
use mspec_expr::{
    ExprWhy, Meant, Scope, Target, case_fields, constant_named, constants_of, def_at, field_meant,
    fields_of, first_cases, is_named, meant_named, param_named, params_of, ref_meant, target_named,
};
use mspec_tree::{Body, Case, DefBody, Description, Expr, Field, Place, Shape};

/// What a name is in a scope.
pub(crate) fn name_is(scope: &Scope, place: Place, name: &[u8]) -> Verdict
    ensures { Tells result (found_name place (name_in scope.now name.now)) }
{
    match meant_named(scope.names.as_slice(), name) {
        Some(found) => field_is(found.meant, found.optional, None),
        None => nothing(place, ExprWhy::UnknownName, None),
    }
}

/// The enum that an expression names, where no field or parameter of the name is seen.
pub(crate) fn enum_of(d: &Description, scope: &Scope, e: &Expr) -> Option<usize>
    ensures { result ≡ enum_of_shape d.now scope.now (out-Shape (out-Expr e.now).shape) }
{
    let Shape::Name(name) = &e.shape else {
        return None;
    };
    if meant_named(scope.names.as_slice(), name.as_slice()).is_some() {
        return None;
    }
    match target_named(d, name.as_slice()) {
        Target::Enum { def, .. } => Some(def),
        Target::Group(_) => None,
    }
}

/// A constant of an enum.
pub(crate) fn constant_is(d: &Description, place: Place, def: usize, name: &[u8]) -> Verdict
    ensures { Tells result (constant_is place def (has_constant (find (λ constant. bytes_eq constant.name name.now) (constants_of d.now def)))) }
{
    if constant_named(constants_of(d, def), name).is_some() {
        is(Meant::EnumOf(def), None)
    } else {
        nothing(place, ExprWhy::UnknownName, None)
    }
}

fn is_given(field: &Field) -> bool
    ensures { result ≡ is_given (layer field.now) }
{
    matches!(
        &field.body,
        Body::Simple(_)
            | Body::Discriminator(_)
            | Body::Optional(..)
            | Body::CountArray(..)
            | Body::LengthArray(..)
    )
}

fn is_optional(field: &Field) -> bool
    ensures { result ≡ is_optional (layer field.now) }
{
    matches!(&field.body, Body::Optional(..))
}

/// Whether a path may go on by this field.
fn is_passed(implicit: bool, name: &[u8], field: &Field) -> bool
    ensures { result ≡ (bytes_eq (out-Field field.now).name name.now && (not implicit || is_given (layer field.now))) }
{
    is_named(&field.name, name) && (!implicit || is_given(field))
}

fn field_among<'a>(implicit: bool, name: &[u8], fields: &'a [Field]) -> Option<&'a Field>
    ensures { option_copied result ≡ field_named implicit name.now fields.now }
{
    fields.iter().find(|field| is_passed(implicit, name, field))
}

fn entry_named<'a>(implicit: bool, name: &[u8], case: usize, field: &'a Field) -> Option<&'a Field>
    ensures { option_copied result ≡ field_named implicit name.now (entry_fields_in case field.now (layer field.now)) }
{
    match &field.body {
        Body::Switch(_, cases) => field_among(implicit, name, case_fields(case, cases.as_slice())),
        _ if is_passed(implicit, name, field) => Some(field),
        _ => None,
    }
}

/// The field of this name among those that have entries.
fn field_named<'a>(
    implicit: bool,
    name: &[u8],
    case: usize,
    fields: &'a [Field],
) -> Option<&'a Field>
    ensures { option_copied result ≡ field_named implicit name.now (entry_fields case fields.now) }
{
    for field in fields {
        if let Some(found) = entry_named(implicit, name, case, field) {
            return Some(found);
        }
    }
    None
}

/// What a name behind a dot is, of what stands before it.
pub(crate) fn dotted(
    d: &Description,
    scope: &Scope,
    place: Place,
    name: &[u8],
    a: Verdict,
) -> Verdict
    ensures { (x : Judged) → Tells a x → Tells result (dotted_meant d.now scope.now place name.now x.faults x.meant) }
{
    let Some(meant) = a.meant else {
        return unknown(a.fault);
    };
    match meant {
        Meant::GroupOf { def, case } => {
            match field_named(scope.words.length, name, case, fields_of(d, def)) {
                Some(field) => field_is(field_meant(d, field), is_optional(field), a.fault),
                None => nothing(place, ExprWhy::UnknownName, a.fault),
            }
        }
        Meant::EnumOf(def) => match param_named(params_of(d, def), name) {
            Some(param) => is(ref_meant(d, &param.kind), a.fault),
            None => nothing(place, ExprWhy::UnknownName, a.fault),
        },
        _ => nothing(place, ExprWhy::UnknownName, a.fault),
    }
}

fn case_place(cases: &[Case], name: &[u8]) -> Option<usize>
    ensures place { result ≡ position (λ case. bytes_eq (out-Case case).name name.now) cases.now }
    ensures within { IfSome result (λ place. place < length cases.now) }
{
    cases.iter().position(|case| is_named(&case.name, name))
}

/// The number of the first case of this name, from 1.
fn case_named(cases: &[Case], name: &[u8]) -> Option<usize>
    ensures { result ≡ case_from 1 name.now cases.now }
{
    case_place(cases, name).map(|place| place + 1)
}

fn is_switched(d: &Description, def: usize) -> bool
    ensures { result ≡ def_is_switched (slice_get d.now.defs def) }
{
    match def_at(d, def) {
        Some(found) => matches!(&found.body, DefBody::Switched(_)),
        None => false,
    }
}

/// A value as one of the case of this name.
pub(crate) fn cast(d: &Description, place: Place, name: &[u8], a: Verdict) -> Verdict
    ensures { (x : Judged) → Tells a x → Tells result (cast_meant d.now place name.now x.faults x.meant) }
{
    let Some(meant) = a.meant else {
        return unknown(a.fault);
    };
    let Meant::GroupOf { def, .. } = meant else {
        return nothing(place, ExprWhy::KindMismatch, a.fault);
    };
    if !is_switched(d, def) {
        return nothing(place, ExprWhy::KindMismatch, a.fault);
    }
    match case_named(first_cases(fields_of(d, def)), name) {
        Some(case) => is(Meant::GroupOf { def, case }, a.fault),
        None => nothing(place, ExprWhy::UnknownName, a.fault),
    }
}
