//! What operators give of numbers that stay inside the widest range.

ghost use Rattle.std.specs.Prelude.{◌≡◌, true};
ghost use Rattle.mspec_expr.specs.Kinds.{in_range, widest};
ghost use Rattle.mspec_expr.specs.Values.{reckoned};
ghost use Rattle.mspec_eval.specs.Numbers.{within};

use crate::things::within;
use mspec_expr::power_of_two;
use mspec_tree::Op;
use node_tree::EvalFault;

fn product(x: i128, y: i128) -> Result<i128, EvalFault>
    ensures { result ≡ within (reckoned Op.Mul x y) }
{
    match x.checked_mul(y) {
        Some(found) => within(found),
        None => Err(EvalFault::NullAccess),
    }
}

/// The quotient, rounded toward zero. Nothing is divided by 0 where an expression has a range.
fn quotient(x: i128, y: i128) -> i128
    requires left { in_range widest x ≡ true }
    requires right { in_range widest y ≡ true }
    ensures { result ≡ reckoned Op.Div x y }
{
    if y == 0 { 0 } else { x / y }
}

fn remainder(x: i128, y: i128) -> i128
    requires left { in_range widest x ≡ true }
    requires right { in_range widest y ≡ true }
    ensures { result ≡ reckoned Op.Rem x y }
{
    if y == 0 { x } else { x % y }
}

fn shifted_left(x: i128, y: i128) -> Result<i128, EvalFault>
    requires left { in_range widest x ≡ true }
    requires right { in_range widest y ≡ true }
    ensures { result ≡ within (reckoned Op.Shl x y) }
{
    let places = y.unsigned_abs();
    if x == 0 {
        return Ok(0);
    }
    if places > 64 {
        return Err(EvalFault::NullAccess);
    }
    match x.checked_mul(power_of_two(places as u32) as i128) {
        Some(found) => within(found),
        None => Err(EvalFault::NullAccess),
    }
}

fn shifted_right(x: i128, y: i128) -> i128
    requires left { in_range widest x ≡ true }
    requires right { in_range widest y ≡ true }
    ensures { result ≡ reckoned Op.Shr x y }
{
    let places = y.unsigned_abs();
    if places > 64 {
        0
    } else {
        x / power_of_two(places as u32) as i128
    }
}

fn bits_of_both(x: i128, y: i128) -> i128
    requires left { in_range widest x ≡ true }
    requires right { in_range widest y ≡ true }
    ensures { result ≡ reckoned Op.BitAnd x y }
{
    (x.unsigned_abs() & y.unsigned_abs()) as i128
}

fn bits_of_either(x: i128, y: i128) -> i128
    requires left { in_range widest x ≡ true }
    requires right { in_range widest y ≡ true }
    ensures { result ≡ reckoned Op.BitOr x y }
{
    (x.unsigned_abs() | y.unsigned_abs()) as i128
}

/// What an operator gives that takes both its numbers.
pub(crate) fn reckoned(o: Op, x: i128, y: i128) -> Result<i128, EvalFault>
    requires left { in_range widest x ≡ true }
    requires right { in_range widest y ≡ true }
    ensures { result ≡ within (reckoned o x y) }
{
    match o {
        Op::Add => within(x + y),
        Op::Sub => within(x - y),
        Op::Mul => product(x, y),
        Op::Div => within(quotient(x, y)),
        Op::Rem => within(remainder(x, y)),
        Op::Shl => shifted_left(x, y),
        Op::Shr => within(shifted_right(x, y)),
        Op::BitAnd => within(bits_of_both(x, y)),
        Op::BitOr => within(bits_of_either(x, y)),
        Op::Lt => Ok(i128::from(x < y)),
        Op::Le => Ok(i128::from(x <= y)),
        Op::Gt => Ok(i128::from(x > y)),
        Op::Ge => Ok(i128::from(x >= y)),
        Op::Eq => Ok(i128::from(x == y)),
        Op::Ne => Ok(i128::from(x != y)),
        Op::Or => Ok(i128::from(x != 0 || y != 0)),
        Op::And => Ok(i128::from(x != 0 && y != 0)),
    }
}
