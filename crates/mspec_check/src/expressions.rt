//! What is wrong with an expression where it stands.

ghost use Rattle.std.specs.Prelude.{◌≡◌};
ghost use Rattle.mspec_expr.specs.Ranges.{range_found};
ghost use Rattle.mspec_rules.specs.Wrongs.{found};
ghost use Rattle.mspec_check.specs.Expressions.{expr_wrongs, fault_in};

use crate::wants::{Want, fits};
use mspec_expr::{ExprWhy, Fault, RangeFault, Scope};
use mspec_ranges::{kind_of, range_of};
use mspec_rules::{CheckWhy, Rule, Wrong, expr_wrong as fault_wrong, told_if};
use mspec_tree::{Description, Expr};

/// The first fault in an expression.
fn fault_in(d: &Description, scope: &Scope, e: &Expr) -> Option<Wrong>
    ensures { result ≡ found (fault_in (range_found d.now scope.now e.now)) }
{
    match range_of(d, scope, e) {
        Err(RangeFault::At { place, why }) => Some(fault_wrong(Fault { place, why })),
        _ => None,
    }
}

/// What is told of an expression in this scope, where this is wanted.
#[tactic(auto, using(crate::proofs::Told::found_both))]
pub(crate) fn expr_wrong(d: &Description, scope: &Scope, want: Want, e: &Expr) -> Option<Wrong>
    ensures { result ≡ found (expr_wrongs d.now scope.now want e.now) }
{
    let fault = fault_in(d, scope, e);
    let fits = fits(want, kind_of(d, scope, e));
    let why = CheckWhy::Expr(ExprWhy::KindMismatch);
    told_if(fault, !fits, e.place, Rule::Kinds, why)
}
