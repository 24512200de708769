//! What is wrong with the arguments of a type.

ghost use Rattle.std.specs.Prelude.{◌≡◌, slice_get};
ghost use Rattle.mspec_rules.specs.Wrongs.{found};
ghost use Rattle.mspec_check.specs.Arguments.{argument_wrongs, arguments_wrongs, param_want, params_taken, ref_wrongs, taken};
ghost use Rattle.mspec_expr.specs.Kinds.{layer};
ghost use Rattle.mspec_rules.specs.Types.{body_ref, where_some};

use crate::expressions::expr_wrong;
use crate::wants::{Want, is_reverse, want_of};
use mspec_expr::{Scope, def_at, def_named, ref_meant};
use mspec_ranges::kind_of;
use mspec_rules::{CheckWhy, Rule, Wrong, earlier, told_if};
use mspec_tree::{Body, Def, DefBody, Description, Expr, Field, Param, Place, Ref};
use sqlite_items::at;

/// The parameters for which a definition takes arguments.
fn taken(def: &Def) -> &[Param]
    ensures { result.now ≡ taken def.now.body def.now.params }
{
    match &def.body {
        DefBody::Enum(..) => &[],
        _ => def.params.as_slice(),
    }
}

/// Those that a type's name takes.
fn params_taken<'a>(d: &'a Description, name: &[u8]) -> &'a [Param]
    ensures { result.now ≡ params_taken d.now name.now }
{
    let Some(def) = def_named(d, name) else {
        return &[];
    };
    match def_at(d, def) {
        Some(found) => taken(found),
        None => &[],
    }
}

/// What the parameter at a place wants of its argument.
fn param_want(d: &Description, params: &[Param], place: usize) -> Want
    ensures { result ≡ param_want d.now (slice_get params.now place) }
{
    match at(params, place) {
        Some(param) => want_of(ref_meant(d, &param.kind)),
        None => Want::AnyKind,
    }
}

#[tactic(auto, using(crate::proofs::Told::found_both))]
fn argument_wrong(
    d: &Description,
    scope: &Scope,
    named: Place,
    want: Want,
    e: &Expr,
) -> Option<Wrong>
    ensures { result ≡ found (argument_wrongs d.now scope.now named want e.now) }
{
    let own = expr_wrong(d, scope, Want::Values, e);
    let reverse = is_reverse(want, kind_of(d, scope, e));
    told_if(own, reverse, named, Rule::Arguments, CheckWhy::Arguments)
}

fn arguments_wrong(
    d: &Description,
    scope: &Scope,
    named: Place,
    params: &[Param],
    args: &[Expr],
) -> Option<Wrong>
    ensures { result ≡ found (arguments_wrongs d.now scope.now named params.now 0 args.now) }
{
    let mut told = None;
    for (i, e) in args.iter().enumerate() {
        let want = param_want(d, params, i);
        told = earlier(told, argument_wrong(d, scope, named, want, e));
    }
    told
}

/// The arguments of a type.
fn ref_wrong(d: &Description, scope: &Scope, kind: &Ref) -> Option<Wrong>
    ensures { result ≡ found (ref_wrongs d.now scope.now kind.now) }
{
    match kind {
        Ref::Plain(_) => None,
        Ref::Named { place, name, args } => {
            let params = params_taken(d, name.as_slice());
            arguments_wrong(d, scope, *place, params, args.as_slice())
        }
    }
}

/// What is told of the arguments of a field's type.
pub(crate) fn body_arguments(d: &Description, scope: &Scope, field: &Field) -> Option<Wrong>
    ensures { result ≡ found (where_some (ref_wrongs d.now scope.now) (body_ref (layer field.now))) }
{
    match &field.body {
        Body::Simple(kind)
        | Body::Discriminator(kind)
        | Body::Implicit(kind, _)
        | Body::Virtual(kind, _)
        | Body::Optional(kind, _)
        | Body::CountArray(kind, _)
        | Body::LengthArray(kind, _) => ref_wrong(d, scope, kind),
        _ => None,
    }
}
