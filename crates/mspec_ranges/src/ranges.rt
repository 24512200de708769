//! What an expression is in a scope.

ghost use Rattle.std.specs.Prelude.{◌≡◌};
ghost use Rattle.mspec_expr.specs.Ranges.{judged, range_found};
ghost use Rattle.mspec_ranges.specs.Verdicts.{told};

use crate::judging::judge;
use mspec_expr::{ExprWhy, Meant, RangeFault, Scope};
use mspec_tree::{Description, Expr};

/// No description has an expression of more levels.
const LEVELS: u8 = 32;

/// What an expression is in a scope, with the numbers that it may be, or the first of all that is wrong with it: the one at
/// the least place, and at one place the first of names, kinds, ranges. It takes no memory.
pub fn range_of(d: &Description, scope: &Scope, e: &Expr) -> Result<Meant, RangeFault>
    ensures { result ≡ told (range_found d.now scope.now e.now) }
{
    let found = judge(d, scope, e, LEVELS);
    if let Some(fault) = found.fault {
        return Err(RangeFault::At {
            place: fault.place,
            why: fault.why,
        });
    }
    match found.meant {
        Some(meant) => Ok(meant),
        None => Err(RangeFault::At {
            place: e.place,
            why: ExprWhy::KindMismatch,
        }),
    }
}

/// What an expression is in a scope, if it is anything, whatever is wrong below: a sum is a number though an operand isn't found. It
/// takes no memory.
pub fn kind_of(d: &Description, scope: &Scope, e: &Expr) -> Option<Meant>
    ensures { result ≡ (judged d.now scope.now e.now).meant }
{
    judge(d, scope, e, LEVELS).meant
}
