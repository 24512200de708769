//! What an expression is worth, where each number stays inside the widest range.

ghost use Rattle.std.specs.Prelude.{◌≡◌, ◌≤ℤ◌, ◌-◌, ◌/◌, IfOk, neg_ℤ, not, pos, true, ℕ};
ghost use Rattle.std.specs.Ordering.{int_eq};
ghost use Rattle.mspec_eval.specs.Numbers.{capped};
ghost use Rattle.node_tree.specs.Bits.{digit};
ghost use Rattle.mspec_expr.specs.Counted.{done};
ghost use Rattle.mspec_expr.specs.Kinds.{in_range, widest};
ghost use Rattle.mspec_expr.specs.Values.{Number, bytes_over, equal, is_null, kept_at, named, number, thing_bits, two};
ghost use Rattle.mspec_eval.specs.Things.{kept_outcome, thing_of, things};

use crate::entries::{cast, dotted};
use crate::reckoning::reckoned;
use crate::things::{Thing, count_of, is_absent, kept, literal, number_of, within};
use crate::views::SizedView;
use mspec_expr::def_named;
use mspec_tree::{Description, Expr, Op, Shape};
use node_tree::{EvalFault, Node};

/// No description has an expression of more levels.
pub(crate) const LEVELS: u8 = 32;

fn flag(holds: bool) -> Thing<'static>
    ensures { thing_of result ≡ Number (pos (digit holds)) }
{
    Thing::Number(i128::from(holds))
}

/// What a name stands for. One that is seen hides an enum of that name.
fn named_thing<'a, V: SizedView>(
    d: &Description,
    view: &'a V,
    name: &[u8],
) -> Result<Thing<'a>, EvalFault>
    ensures { things result ≡ kept_outcome (named d.now name.now (V.sight view.now).names) }
{
    if let Some((meant, node)) = view.seen(name) {
        return kept(Thing::Entry(meant, node));
    }
    match def_named(d, name) {
        Some(def) => Ok(Thing::EnumName(def)),
        None => Err(EvalFault::NullAccess),
    }
}

/// The whole bytes from a type's first bit to the position.
fn whole_bytes<V: SizedView>(view: &V) -> i128
    ensures bound { result ≤ℤ pos 4294967295 }
    ensures value { result ≡ pos (((V.sight view.now).position - (V.sight view.now).first) / 8) }
{
    let facts = view.facts();
    i128::from(facts.position.saturating_sub(facts.first) / 8)
}

/// How many bits an entry has, as far as there is room.
fn bits_of<V: SizedView>(d: &Description, view: &V, thing: Thing<'_>) -> u128
    ensures { result ≡ capped (thing_bits (V.sizes view.now d.now) (thing_of thing.entry)) }
{
    match thing {
        Thing::Entry(meant, node) => view.bits(d, meant, node),
        Thing::Given(meant, number) => view.bits(d, meant, &Node::Num(number)),
        Thing::GivenFlag(meant, flag) => view.bits(d, meant, &Node::Flag(flag)),
        Thing::Number(_) | Thing::EnumName(_) => 0,
    }
}

/// Bits in bytes, rounded up.
fn bytes_of(bits: u128) -> Result<Thing<'static>, EvalFault>
    ensures { (n : ℕ) → bits ≡ capped n → things result ≡ kept_outcome (done (Number (pos (bytes_over n)))) }
{
    let bytes = bits.saturating_add(7) / 8;
    if bytes > 18_446_744_073_709_551_615 {
        return Err(EvalFault::NullAccess);
    }
    Ok(Thing::Number(bytes as i128))
}

/// Whether a number counts as true.
fn truth(number: i128) -> bool
    ensures { result ≡ not (int_eq number (pos 0)) }
{
    number != 0
}

fn negated(number: i128) -> Result<Thing<'static>, EvalFault>
    requires { in_range widest number ≡ true }
    ensures { things result ≡ kept_outcome (done (Number (neg_ℤ number))) }
{
    Ok(Thing::Number(within(-number)?))
}

/// The number of an expression, a flag counting 0 or 1.
#[cycle(evaluating)]
pub(crate) fn number<V: SizedView>(
    d: &Description,
    view: &V,
    e: &Expr,
    levels: u8,
) -> Result<i128, EvalFault>
    ensures value { result ≡ (number (kept_at levels d.now (V.sizes view.now d.now) e.now (V.sight view.now))).outcome }
    ensures inside { IfOk result (λ n. in_range widest n ≡ true) }
{
    number_of(worth(d, view, e, levels)?)
}

/// Whether an expression is `null`.
fn is_null(e: &Expr) -> bool
    ensures { result ≡ is_null e.now }
{
    matches!(&e.shape, Shape::Null)
}

/// Whether two sides are equal. `null` asks whether the other side is absent.
#[cycle(evaluating)]
fn equal<V: SizedView>(
    d: &Description,
    view: &V,
    a: &Expr,
    b: &Expr,
    levels: u8,
) -> Result<bool, EvalFault>
    ensures { result ≡ (equal (kept_at levels d.now (V.sizes view.now d.now)) (is_null a.now) (is_null b.now) a.now b.now (V.sight view.now)).outcome }
{
    if is_null(a) {
        return Ok(is_absent(worth(d, view, b, levels)?));
    }
    if is_null(b) {
        return Ok(is_absent(worth(d, view, a, levels)?));
    }
    let left = number(d, view, a, levels)?;
    let right = number(d, view, b, levels)?;
    Ok(left == right)
}

/// An operator between two operands. The second side of `||` and `&&` is asked only where the first doesn't decide.
#[cycle(evaluating)]
fn two<V: SizedView>(
    d: &Description,
    view: &V,
    o: Op,
    a: &Expr,
    b: &Expr,
    levels: u8,
) -> Result<Thing<'static>, EvalFault>
    ensures { things result ≡ kept_outcome (two (kept_at levels d.now (V.sizes view.now d.now)) o a.now b.now (V.sight view.now)) }
{
    match o {
        Op::Or => {
            let holds = number(d, view, a, levels)? != 0 || number(d, view, b, levels)? != 0;
            Ok(flag(holds))
        }
        Op::And => {
            let holds = number(d, view, a, levels)? != 0 && number(d, view, b, levels)? != 0;
            Ok(flag(holds))
        }
        Op::Eq => Ok(flag(equal(d, view, a, b, levels)?)),
        Op::Ne => Ok(flag(!equal(d, view, a, b, levels)?)),
        _ => {
            let left = number(d, view, a, levels)?;
            let right = number(d, view, b, levels)?;
            Ok(Thing::Number(reckoned(o, left, right)?))
        }
    }
}

/// What an expression of at most so many levels is worth.
#[cycle(evaluating)]
pub(crate) fn worth<'a, V: SizedView>(
    d: &'a Description,
    view: &'a V,
    e: &Expr,
    levels: u8,
) -> Result<Thing<'a>, EvalFault>
    ensures { things result ≡ (kept_at levels d.now (V.sizes view.now d.now) e.now (V.sight view.now)).outcome }
{
    if levels == 0 {
        return Err(EvalFault::NullAccess);
    }
    let under = levels - 1;
    match &e.shape {
        Shape::Lit(value) => Ok(Thing::Number(literal(*value)?)),
        Shape::Null => Err(EvalFault::NullAccess),
        Shape::Name(name) => named_thing(d, view, name.as_slice()),
        Shape::CurPos => Ok(Thing::Number(whole_bytes(view))),
        Shape::Length => Ok(Thing::Number(i128::from(view.facts().length))),
        Shape::LastItem => Ok(flag(view.facts().last)),
        Shape::SumBytes => Ok(Thing::Number(i128::from(view.facts().sum))),
        Shape::XorBytes => Ok(Thing::Number(i128::from(view.facts().xor))),
        Shape::Dot(a, name) => dotted(d, worth(d, view, a.get(), under)?, name.as_slice()),
        Shape::LengthOf(a) => bytes_of(bits_of(d, view, worth(d, view, a.get(), under)?)),
        Shape::Count(a) => Ok(Thing::Number(count_of(worth(d, view, a.get(), under)?)? as i128)),
        Shape::Cast(a, name) => cast(d, worth(d, view, a.get(), under)?, name.as_slice()),
        Shape::Not(a) => Ok(flag(number(d, view, a.get(), under)? == 0)),
        Shape::Neg(a) => negated(number(d, view, a.get(), under)?),
        Shape::Two(o, a, b) => two(d, view, *o, a.get(), b.get(), under),
        Shape::If(c, a, b) => {
            if truth(number(d, view, c.get(), under)?) {
                worth(d, view, a.get(), under)
            } else {
                worth(d, view, b.get(), under)
            }
        }
    }
}
