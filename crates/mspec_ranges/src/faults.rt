//! Faults of expressions, of which the first is told.

ghost use Rattle.std.specs.Prelude.{◌≡◌};
ghost use Rattle.mspec_expr.specs.Ranges.{fault_before, place_before, rank, wrong_if};
ghost use Rattle.mspec_ranges.specs.Verdicts.{earlier, earliest};

use mspec_expr::{ExprWhy, Fault};
use mspec_tree::Place;

fn rank(why: ExprWhy) -> u8
    ensures { result ≡ rank why }
{
    match why {
        ExprWhy::UnknownName => 0,
        ExprWhy::KindMismatch => 1,
        ExprWhy::TooWide => 2,
        ExprWhy::DivisorMayBeZero => 3,
        ExprWhy::OperandRange => 4,
    }
}

fn place_before(a: Place, b: Place) -> bool
    ensures { result ≡ place_before a b }
{
    a.line < b.line || a.line == b.line && a.column < b.column
}

fn fault_before(a: Fault, b: Fault) -> bool
    ensures { result ≡ fault_before a b }
{
    place_before(a.place, b.place) || !place_before(b.place, a.place) && rank(a.why) < rank(b.why)
}

/// The one of two that is told.
pub(crate) fn earlier(first: Option<Fault>, second: Option<Fault>) -> Option<Fault>
    ensures { result ≡ earlier first second }
{
    match (first, second) {
        (Some(a), Some(b)) => Some(if fault_before(b, a) { b } else { a }),
        (Some(a), None) => Some(a),
        (None, other) => other,
    }
}

/// A fault, if something is wrong.
pub(crate) fn wrong_if(wrong: bool, place: Place, why: ExprWhy) -> Option<Fault>
    ensures { result ≡ earliest (wrong_if wrong place why) }
{
    if wrong {
        Some(Fault { place, why })
    } else {
        None
    }
}
