//! What an expression is, by its outermost form.

ghost use Rattle.std.specs.Prelude.{◌≡◌, pos};
ghost use Rattle.mspec_expr.specs.Ranges.{judged_at, range};
ghost use Rattle.mspec_ranges.specs.Verdicts.{Tells};

use crate::operators::{chosen, denied, literal, measured, negated, two_judged, word};
use crate::paths::{cast, constant_is, dotted, enum_of, name_is};
use crate::verdicts::{Verdict, is, may_be_array, may_have_length, nothing};
use mspec_expr::{ExprWhy, Meant, Range, Scope};
use mspec_tree::{Description, Expr, Shape};

fn up_to(high: i128) -> Meant
    ensures { result ≡ Meant.Number (range (pos 0) high) }
{
    Meant::Number(Range { low: 0, high })
}

/// What an expression of at most so many levels is.
pub(crate) fn judge(d: &Description, scope: &Scope, e: &Expr, levels: u8) -> Verdict
    ensures { Tells result (judged_at levels d.now scope.now e.now) }
{
    let place = e.place;
    if levels == 0 {
        return nothing(place, ExprWhy::KindMismatch, None);
    }
    let under = levels - 1;
    match &e.shape {
        Shape::Lit(value) => literal(place, *value),
        Shape::Null => is(Meant::Null, None),
        Shape::Name(name) => name_is(scope, place, name.as_slice()),
        Shape::CurPos => word(place, true, up_to(65_535)),
        Shape::Length => word(place, scope.words.length, up_to(65_535)),
        Shape::LastItem => word(place, scope.words.last_item, Meant::Flag),
        Shape::SumBytes => word(place, scope.words.sums, up_to(16_711_425)),
        Shape::XorBytes => word(place, scope.words.sums, up_to(255)),
        Shape::Dot(a, name) => match enum_of(d, scope, a.get()) {
            Some(def) => constant_is(d, place, def, name.as_slice()),
            None => dotted(
                d,
                scope,
                place,
                name.as_slice(),
                judge(d, scope, a.get(), under),
            ),
        },
        Shape::LengthOf(a) => {
            let inner = judge(d, scope, a.get(), under);
            let right = inner.optional || may_have_length(inner.meant);
            measured(place, right, 65_535, inner)
        }
        Shape::Count(a) => {
            let inner = judge(d, scope, a.get(), under);
            measured(place, may_be_array(inner.meant), 16_777_216, inner)
        }
        Shape::Cast(a, name) => cast(d, place, name.as_slice(), judge(d, scope, a.get(), under)),
        Shape::Not(a) => denied(place, judge(d, scope, a.get(), under)),
        Shape::Neg(a) => negated(d, place, judge(d, scope, a.get(), under)),
        Shape::Two(o, a, b) => {
            let left = judge(d, scope, a.get(), under);
            let right = judge(d, scope, b.get(), under);
            two_judged(d, place, *o, left, right)
        }
        Shape::If(c, a, b) => {
            let condition = judge(d, scope, c.get(), under);
            let first = judge(d, scope, a.get(), under);
            let second = judge(d, scope, b.get(), under);
            chosen(place, condition, first, second)
        }
    }
}
