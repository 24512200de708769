//! What is wrong with the fields of a description.

ghost use Rattle.std.specs.Prelude.{◌≡◌, ◌++◌, [], false, IfOk, IfSome, OnOk};
ghost use Rattle.std.specs.List.{flat_map};
ghost use Rattle.mspec_tree.specs.declared.fields.Field.{out-Field};
ghost use Rattle.mspec_expr.specs.Kinds.{fields_in, layer};
ghost use Rattle.mspec_expr.specs.Ranges.{is_given};
ghost use Rattle.mspec_rules.specs.Wrongs.{found};
ghost use Rattle.mspec_check.specs.Fields.{any_field_wrongs, case_wrongs, def_wrongs, count_wrongs, field_wrongs, implicit_wrongs, own_expression, placed_wrongs, scope_wrongs, switch_wrongs, type_arguments};
ghost use Rattle.mspec_check.specs.Expressions.{expr_wrongs};
ghost use Rattle.mspec_check.specs.Scopes.{is_const, names_before, placed, seen_before, seen_given};
ghost use Rattle.mspec_check.specs.Sites.{IsKept, around, around_outer, earlier_of};

use crate::arguments::body_arguments;
use crate::expressions::expr_wrong;
use crate::paddings::parts_wrong;
use crate::scopes::{
    CHECKSUM_WORDS, NO_WORDS, PADDING_WORDS, Shown, forget, is_const, see_field, see_params,
    seen_given,
};
use crate::sites::{Outer, Site, outer_of, site_at};
use crate::switches::{keys_wrong, names_wrong};
use crate::wants::{Want, want_of};
use mspec_expr::{Scope, Words, ref_meant, simple_meant};
use mspec_rules::{Wrong, earlier};
use mspec_tree::{Body, Case, Def, DefBody, Description, Expr, Field, Name, Place, Ref};
use sqlite_items::Items;
use std::alloc::{AllocError, Global};

/// No description has an expression of more levels.
const LEVELS: u8 = 32;

/// The scope of an implicit expression, which is gathered once for the fields between two const ones.
fn gathered(
    alloc: Global,
    d: &Description,
    given: Option<Scope>,
    site: &Site,
    field: &Field,
) -> Result<Scope, AllocError>
    requires own { is_given (layer field.now) ≡ false }
    requires kept { IsKept d.now (around site.now) field.now given }
    ensures { IfOk result (λ seen. seen ≡ seen_given d.now (around site.now)) }
{
    match given {
        Some(seen) => Ok(seen),
        None => seen_given(alloc, d, site),
    }
}

fn implicit_wrong(
    alloc: Global,
    d: &Description,
    given: &mut Option<Scope>,
    site: &Site,
    field: &Field,
    kind: &Ref,
    value: &Expr,
) -> Result<Option<Wrong>, AllocError>
    requires own { is_given (layer field.now) ≡ false }
    requires kept { IsKept d.now (around site.now) field.now given.old }
    ensures told { IfOk result (λ told. told ≡ found (implicit_wrongs d.now (around site.now) kind.now value.now)) }
    ensures kept { OnOk result (IsKept d.now (around site.now) field.now given.new) }
{
    let seen = gathered(alloc, d, given.take(), site, field)?;
    let want = want_of(ref_meant(d, kind));
    let told = expr_wrong(d, &seen, want, value);
    *given = Some(seen);
    Ok(told)
}

/// What stays gathered behind a field.
fn kept(given: Option<Scope>, field: &Field) -> Option<Scope>
    ensures { IfSome result (λ seen. (given ≡ Some seen) × (is_const (layer field.now) ≡ false)) }
{
    if is_const(field) { None } else { given }
}

/// What is told of an expression that sees the names of the scope and has these words.
fn seen_wrong(
    d: &Description,
    scope: &mut Scope,
    site: &Site,
    words: Words,
    want: Want,
    e: &Expr,
) -> Option<Wrong>
    requires { scope.old.names ≡ names_before d.now site.now.params.now (earlier_of site.now) }
    ensures told { result ≡ found (expr_wrongs d.now (seen_before d.now (around site.now) words) want e.now) }
    ensures names { scope.new.names ≡ scope.old.names }
{
    scope.words = words;
    expr_wrong(d, scope, want, e)
}

#[tactic(auto, using(crate::proofs::Told::found_both))]
fn padding_wrong(d: &Description, scope: &mut Scope, site: &Site, count: &Expr) -> Option<Wrong>
    requires { scope.old.names ≡ names_before d.now site.now.params.now (earlier_of site.now) }
    ensures told { result ≡ found (count_wrongs d.now (around site.now) count.now) }
    ensures names { scope.new.names ≡ scope.old.names }
{
    let own = seen_wrong(d, scope, site, PADDING_WORDS, Want::Numbers, count);
    earlier(own, parts_wrong(site, count, LEVELS))
}

/// What is told of a field's own expression. The scope has the names that the field sees.
fn own_wrong(
    alloc: Global,
    d: &Description,
    scope: &mut Scope,
    given: &mut Option<Scope>,
    site: &Site,
    field: &Field,
) -> Result<Option<Wrong>, AllocError>
    requires names { scope.old.names ≡ names_before d.now site.now.params.now (earlier_of site.now) }
    requires kept { IsKept d.now (around site.now) field.now given.old }
    ensures told { IfOk result (λ told. told ≡ found (own_expression d.now (around site.now) (layer field.now))) }
    ensures names { OnOk result (scope.new.names ≡ scope.old.names) }
    ensures kept { OnOk result (IsKept d.now (around site.now) field.now given.new) }
{
    match &field.body {
        Body::Implicit(kind, value) => implicit_wrong(alloc, d, given, site, field, kind, value),
        Body::Virtual(kind, value) => {
            let want = want_of(ref_meant(d, kind));
            Ok(seen_wrong(d, scope, site, NO_WORDS, want, value))
        }
        Body::Optional(_, condition) => {
            Ok(seen_wrong(d, scope, site, NO_WORDS, Want::Flags, condition))
        }
        Body::Checksum(simple, value) => {
            let want = want_of(simple_meant(*simple));
            Ok(seen_wrong(d, scope, site, CHECKSUM_WORDS, want, value))
        }
        Body::Padding(_, _, count) => Ok(padding_wrong(d, scope, site, count)),
        Body::CountArray(_, count) => Ok(seen_wrong(
            d,
            scope,
            site,
            NO_WORDS,
            Want::Numbers,
            count,
        )),
        Body::LengthArray(_, bytes) => Ok(seen_wrong(
            d,
            scope,
            site,
            NO_WORDS,
            Want::Numbers,
            bytes,
        )),
        _ => Ok(None),
    }
}

/// What is told of a field that is no switch.
#[tactic(auto, using(crate::proofs::Told::found_both))]
fn field_wrong(
    alloc: Global,
    d: &Description,
    scope: &mut Scope,
    given: &mut Option<Scope>,
    site: &Site,
    field: &Field,
) -> Result<Option<Wrong>, AllocError>
    requires names { scope.old.names ≡ names_before d.now site.now.params.now (earlier_of site.now) }
    requires kept { IsKept d.now (around site.now) field.now given.old }
    ensures told { IfOk result (λ told. told ≡ found (field_wrongs d.now (around site.now) (layer field.now))) }
    ensures names { OnOk result (scope.new.names ≡ scope.old.names) }
    ensures kept { OnOk result (IsKept d.now (around site.now) field.now given.new) }
{
    scope.words = NO_WORDS;
    let args = body_arguments(d, scope, field);
    let own = own_wrong(alloc, d, scope, given, site, field)?;
    Ok(earlier(args, own))
}

/// What is told of a case's fields. The scope has the names that the switch sees, and then those of the fields too.
fn case_fields_wrong<'a>(
    alloc: Global,
    d: &Description,
    scope: &mut Scope,
    outer: &Outer<'a>,
    fields: &'a [Field],
) -> Result<Option<Wrong>, AllocError>
    requires { scope.old.names ≡ names_before d.now outer.now.params.now outer.now.before.now }
    ensures told { IfOk result (λ told. told ≡ found (flat_map (λ at. field_wrongs d.now at.around (layer at.field)) (placed outer.now.params.now outer.now.before.now outer.now.after.now fields.now))) }
    ensures names { OnOk result (scope.new.names ≡ names_before d.now outer.now.params.now (outer.now.before.now ++ fields.now)) }
{
    let mut told = None;
    let mut given = None;
    for (i, field) in fields.iter().enumerate() {
        let site = site_at(outer, fields, i);
        let one = field_wrong(alloc, d, scope, &mut given, &site, field)?;
        told = earlier(told, one);
        see_field(alloc, d, scope, Shown::Named, field)?;
        given = kept(given, field);
    }
    Ok(told)
}

/// What is told of a case. The scope has the names that the switch sees.
#[tactic(auto, using(crate::proofs::Told::found_both))]
fn case_wrong<'a>(
    alloc: Global,
    d: &Description,
    scope: &mut Scope,
    outer: &Outer<'a>,
    names: &[Name],
    case: &'a Case,
) -> Result<Option<Wrong>, AllocError>
    requires { scope.old.names ≡ names_before d.now outer.now.params.now outer.now.before.now }
    ensures told { IfOk result (λ told. told ≡ found (case_wrongs d.now (around_outer outer.now) names.now case.now)) }
    ensures names { OnOk result (scope.new.names ≡ scope.old.names) }
{
    let keys = keys_wrong(d, scope.names.as_slice(), names, case);
    let count = scope.names.len();
    let fields = case_fields_wrong(alloc, d, scope, outer, case.fields.as_slice())?;
    forget(scope, count);
    Ok(earlier(keys, fields))
}

/// What is told of a switch. The scope has the names that it sees.
fn switch_wrong<'a>(
    alloc: Global,
    d: &Description,
    scope: &mut Scope,
    outer: &Outer<'a>,
    place: Place,
    names: &[Name],
    cases: &'a [Case],
) -> Result<Option<Wrong>, AllocError>
    requires { scope.old.names ≡ names_before d.now outer.now.params.now outer.now.before.now }
    ensures told { IfOk result (λ told. told ≡ found (switch_wrongs d.now (around_outer outer.now) place names.now cases.now)) }
    ensures names { OnOk result (scope.new.names ≡ scope.old.names) }
{
    let mut told = names_wrong(scope.names.as_slice(), place, names);
    for case in cases {
        let one = case_wrong(alloc, d, scope, outer, names, case)?;
        told = earlier(told, one);
    }
    Ok(told)
}

/// What is told of a field or a switch of a definition's own list.
fn any_field_wrong<'a>(
    alloc: Global,
    d: &Description,
    scope: &mut Scope,
    given: &mut Option<Scope>,
    site: &Site<'a>,
    field: &'a Field,
) -> Result<Option<Wrong>, AllocError>
    requires before { site.now.outer_before.now ≡ [] }
    requires after { site.now.outer_after.now ≡ [] }
    requires names { scope.old.names ≡ names_before d.now site.now.params.now (earlier_of site.now) }
    requires kept { IsKept d.now (around site.now) field.now given.old }
    ensures told { IfOk result (λ told. told ≡ found (any_field_wrongs d.now (around site.now) (out-Field field.now).place (layer field.now))) }
    ensures names { OnOk result (scope.new.names ≡ scope.old.names) }
    ensures kept { OnOk result (IsKept d.now (around site.now) field.now given.new) }
{
    match &field.body {
        Body::Switch(names, cases) => {
            let outer = outer_of(site);
            let (names, cases) = (names.as_slice(), cases.as_slice());
            switch_wrong(alloc, d, scope, &outer, field.place, names, cases)
        }
        _ => field_wrong(alloc, d, scope, given, site, field),
    }
}

/// What is told of a definition's own list of fields. The scope has its parameters.
fn fields_wrong<'a>(
    alloc: Global,
    d: &Description,
    scope: &mut Scope,
    outer: &Outer<'a>,
    fields: &'a [Field],
) -> Result<Option<Wrong>, AllocError>
    requires before { outer.now.before.now ≡ [] }
    requires after { outer.now.after.now ≡ [] }
    requires names { scope.old.names ≡ names_before d.now outer.now.params.now [] }
    ensures { IfOk result (λ told. told ≡ found (flat_map (placed_wrongs d.now) (placed outer.now.params.now [] [] fields.now))) }
{
    let mut told = None;
    let mut given = None;
    for (i, field) in fields.iter().enumerate() {
        let site = site_at(outer, fields, i);
        let one = any_field_wrong(alloc, d, scope, &mut given, &site, field)?;
        told = earlier(told, one);
        see_field(alloc, d, scope, Shown::Named, field)?;
        given = kept(given, field);
    }
    Ok(told)
}

fn fields_in(body: &DefBody) -> &[Field]
    ensures { result.now ≡ fields_in body.now }
{
    match body {
        DefBody::Plain(fields) => fields.as_slice(),
        DefBody::Switched(fields) => fields.as_slice(),
        DefBody::DataIo(field) => std::slice::from_ref(field),
        DefBody::Enum(..) => &[],
    }
}

fn def_wrong(alloc: Global, d: &Description, def: &Def) -> Result<Option<Wrong>, AllocError>
    ensures { IfOk result (λ told. told ≡ found (def_wrongs d.now def.now)) }
{
    let mut scope = Scope {
        names: Items::new(alloc),
        words: NO_WORDS,
    };
    see_params(alloc, d, &mut scope, def.params.as_slice())?;
    let outer = Outer {
        params: def.params.as_slice(),
        before: &[],
        after: &[],
    };
    fields_wrong(alloc, d, &mut scope, &outer, fields_in(&def.body))
}

/// What is told of a description by the rules on expressions, on a switch's names and keys, and on the kinds of arguments. It takes
/// memory for the names that expressions see.
pub(crate) fn scope_wrong(alloc: Global, d: &Description) -> Result<Option<Wrong>, AllocError>
    ensures { IfOk result (λ told. told ≡ found (scope_wrongs d.now)) }
{
    let mut told = None;
    for def in d.defs.as_slice() {
        told = earlier(told, def_wrong(alloc, d, def)?);
    }
    Ok(told)
}
