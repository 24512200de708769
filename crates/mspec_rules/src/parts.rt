//! Fields and nodes of expressions, counted together in the order of the text.

ghost use Rattle.std.specs.Prelude.{◌≡◌, List, ◌-◌};
ghost use Rattle.std.specs.List.{flat_map};
ghost use Rattle.std.specs.Option.{option_copied};
ghost use Rattle.mspec_tree.specs.declared.words.Place.{Place};
ghost use Rattle.mspec_tree.specs.declared.exprs.Expr.{out-Expr};
ghost use Rattle.mspec_tree.specs.declared.exprs.Shape.{out-Shape};
ghost use Rattle.mspec_tree.specs.declared.fields.Case.{out-Case};
ghost use Rattle.mspec_tree.specs.declared.fields.Field.{out-Field};
ghost use Rattle.mspec_expr.specs.Kinds.{layer};
ghost use Rattle.mspec_rules.specs.Wrongs.{earlier, found};
ghost use Rattle.mspec_rules.specs.Counts.{counted, one_more, reached};
ghost use Rattle.mspec_rules.specs.Limits.{body_expr, def_parts, entry_parts, expr_nodes, field_parts, most_parts, nodes, nodes_to, parts, past, ref_nodes};
ghost use Rattle.mspec_rules.specs.Types.{body_ref};

use crate::limits::{fields_in, limit_at};
use crate::types::body_ref;
use crate::wrongs::Wrong;
use mspec_tree::{Body, Case, Def, Description, Expr, Field, Place, Ref, Shape};

/// How many fields and nodes of expressions a description may have together.
pub const MOST_PARTS: u32 = 65_536;

/// No description has an expression of more levels.
const LEVELS: u8 = 32;

/// Where a count down to nothing stands: at the first place that it can't count any more, or with so many left.
#[derive(Clone, Copy)]
pub(crate) enum Count {
    At(Place),
    Left(u32),
}

fn one_more(count: Count, place: Place) -> Count
    ensures { result ≡ one_more count place }
{
    match count {
        Count::At(_) => count,
        Count::Left(0) => Count::At(place),
        Count::Left(left) => Count::Left(left - 1),
    }
}

fn reached(count: Count) -> Option<Place>
    ensures { result ≡ reached count }
{
    match count {
        Count::At(place) => Some(place),
        Count::Left(_) => None,
    }
}

/// The parts of all items of a list.
fn count_all<T, F: Fn(Count, &T) -> Count>(count: Count, items: &[T], counts: F) -> Count
    requires { F.IsAlwaysCallable counts }
    ensures { (places : T → List Place) → ((so_far : Count) (item : _) (next : Count) → F.post counts so_far item next → next ≡ counted so_far (places item.now)) → result ≡ counted count (flat_map places items.now) }
{
    let mut next = count;
    for item in items {
        next = counts(next, item);
    }
    next
}

/// The nodes of an expression of at most so many levels.
fn count_to(count: Count, e: &Expr, levels: u8) -> Count
    ensures { result ≡ counted count (nodes_to levels e.now) }
{
    if levels == 0 {
        return count;
    }
    let under = levels - 1;
    match &e.shape {
        Shape::Dot(a, _) => one_more(count_to(count, a.get(), under), e.place),
        Shape::LengthOf(a) => one_more(count_to(count, a.get(), under), e.place),
        Shape::Count(a) => count_to(one_more(count, e.place), a.get(), under),
        Shape::Cast(a, _) => count_to(one_more(count, e.place), a.get(), under),
        Shape::Not(a) => count_to(one_more(count, e.place), a.get(), under),
        Shape::Neg(a) => count_to(one_more(count, e.place), a.get(), under),
        Shape::Two(_, a, b) => {
            let left = count_to(count, a.get(), under);
            count_to(one_more(left, e.place), b.get(), under)
        }
        Shape::If(c, a, b) => {
            let condition = count_to(count, c.get(), under);
            let first = count_to(one_more(condition, e.place), a.get(), under);
            count_to(first, b.get(), under)
        }
        _ => one_more(count, e.place),
    }
}

fn count_nodes(count: Count, e: &Expr) -> Count
    ensures { result ≡ counted count (nodes e.now) }
{
    count_to(count, e, LEVELS)
}

fn count_args(count: Count, kind: Option<&Ref>) -> Count
    ensures { result ≡ counted count (ref_nodes (option_copied kind.entry)) }
{
    match kind {
        Some(Ref::Named { args, .. }) => {
            count_all(
                count,
                args.as_slice(),
                |so_far, arg| count_nodes(so_far, arg),
            )
        }
        _ => count,
    }
}

fn body_expr(field: &Field) -> Option<&Expr>
    ensures { option_copied result ≡ body_expr (layer field.now) }
{
    match &field.body {
        Body::Implicit(_, e) => Some(e),
        Body::Virtual(_, e) => Some(e),
        Body::Optional(_, e) => Some(e),
        Body::Checksum(_, e) => Some(e),
        Body::Padding(_, _, e) => Some(e),
        Body::CountArray(_, e) => Some(e),
        Body::LengthArray(_, e) => Some(e),
        _ => None,
    }
}

fn count_expr(count: Count, e: Option<&Expr>) -> Count
    ensures { result ≡ counted count (expr_nodes (option_copied e.entry)) }
{
    match e {
        Some(e) => count_nodes(count, e),
        None => count,
    }
}

#[tactic(auto, using(crate::proofs::CountLaws::counted_then))]
fn count_field(count: Count, field: &Field) -> Count
    ensures { result ≡ counted count (field_parts field.now) }
{
    let own = one_more(count, field.place);
    let args = count_args(own, body_ref(field));
    count_expr(args, body_expr(field))
}

fn count_case(count: Count, case: &Case) -> Count
    ensures { result ≡ counted count (flat_map field_parts (out-Case case.now).fields) }
{
    count_all(count, case.fields.as_slice(), |so_far, field| {
        count_field(so_far, field)
    })
}

fn count_entry(count: Count, field: &Field) -> Count
    ensures { result ≡ counted count (entry_parts field.now) }
{
    match &field.body {
        Body::Switch(_, cases) => {
            count_all(
                count,
                cases.as_slice(),
                |so_far, case| count_case(so_far, case),
            )
        }
        _ => count_field(count, field),
    }
}

fn count_def(count: Count, def: &Def) -> Count
    ensures { result ≡ counted count (def_parts def.now) }
{
    count_all(count, fields_in(&def.body), |so_far, field| {
        count_entry(so_far, field)
    })
}

fn count_parts(d: &Description) -> Count
    ensures { result ≡ counted (Count.Left most_parts) (parts d.now) }
{
    count_all(
        Count::Left(MOST_PARTS),
        d.defs.as_slice(),
        |so_far, def| count_def(so_far, def),
    )
}

/// The first field or node of an expression past the limit.
pub(crate) fn parts_limit(d: &Description, first: Option<Wrong>) -> Option<Wrong>
    ensures { result ≡ earlier first (found (past most_parts (parts d.now))) }
{
    limit_at(first, reached(count_parts(d)))
}
