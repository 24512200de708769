//! The values of expressions.

ghost use Rattle.std.specs.Prelude.{◌≡◌, IfOk, ℤ, Ok, Some, true};
ghost use Rattle.mspec_expr.specs.declared.kinds.Meant.{Meant};
ghost use Rattle.mspec_expr.specs.declared.kinds.Range.{Range};
ghost use Rattle.mspec_expr.specs.Fits.{Fits, IsIn, sight_in, values_of};
ghost use Rattle.mspec_expr.specs.Kinds.{in_range, widest};
ghost use Rattle.mspec_expr.specs.Ranges.{range_found};
ghost use Rattle.mspec_expr.specs.Sizes.{kept_value, value};
ghost use Rattle.mspec_eval.specs.Things.{told};

use crate::evaluating::{LEVELS, number};
use crate::views::{Given, View, Whole};
use mspec_expr::{Env, EvalRefusal, Scope, values_lie_in_ranges, values_stay_inside};
use mspec_tree::{Description, Expr};
use node_tree::EvalFault;

/// The number of an expression to who sees this much, a flag counting 0 or 1. It fails where a part that is needed has no
/// value; a number that leaves -2^63 to 2^64 - 1, on the way too, is a `NullAccess`. It takes no memory.
pub fn evaluate<V: View>(d: &Description, view: &V, e: &Expr) -> Result<i128, EvalFault>
    ensures value { result ≡ (kept_value d.now e.now (V.sight view.now)).outcome }
    ensures inside { IfOk result (λ n. in_range widest n ≡ true) }
{
    number(d, &Whole { view }, e, LEVELS)
}

/// The answer in the caller's words.
fn told(found: Result<i128, EvalFault>) -> Result<i128, EvalRefusal>
    ensures { result ≡ told found }
{
    match found {
        Ok(number) => Ok(number),
        Err(fault) => Err(EvalRefusal::Fails(fault)),
    }
}

/// The value of an expression in a scope and an environment, a flag counting 0 or 1. Where the environment fits the scope and
/// nothing is wrong with the expression there, this is its whole meaning. It fails where a part that is needed has no value.
/// It takes no memory.
pub fn eval(d: &Description, scope: &Scope, env: &Env, e: &Expr) -> Result<i128, EvalRefusal>
    ensures kept { result ≡ told (kept_value d.now e.now (sight_in scope.now env.now)).outcome }
    ensures meaning { (meant : Meant) → Fits d.now scope.now env.now → range_found d.now scope.now e.now ≡ Ok meant
        → result ≡ told (value d.now e.now (sight_in scope.now env.now)).outcome }
    ensures range { (meant : Meant) (r : Range) → Fits d.now scope.now env.now → range_found d.now scope.now e.now ≡ Ok meant
        → values_of d.now meant ≡ Some r → IfOk result (λ n. IsIn r n) }
{
    values_stay_inside();
    values_lie_in_ranges();
    told(evaluate(d, &Given { scope, env }, e))
}
