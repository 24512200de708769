//! The ranges that operators give, where they stay inside -2^63 to 2^64 - 1.

ghost use Rattle.std.specs.Prelude.{◌≡◌, ◌≤ℤ◌, ◌<ℤ◌, ◌*ℤ◌, pos, int_div, IsTrue};
ghost use Rattle.mspec_tree.specs.declared.words.Lit.TheVariants.{Num};
ghost use Rattle.mspec_expr.specs.Kinds.{in_range, literal};
ghost use Rattle.mspec_expr.specs.Ranges.{greatest_size, holds_zero, is_negative, is_proper, lies_in, negated_range, over, power, proper, range, two_range, widest};
ghost use Rattle.mspec_ranges.specs.Spans.{contained, filled, found_span, is_leaves, span, span_of};

use mspec_expr::{Range, binary_digits, power_of_two};
use mspec_tree::Op;

/// The least and the greatest number of an expression.
const LEAST: i128 = -9_223_372_036_854_775_808;

const GREATEST: i128 = 18_446_744_073_709_551_615;

/// The range that an operator gives: none is defined, or it leaves the widest, or it is this one.
#[derive(Clone, Copy)]
pub(crate) enum Span {
    Undefined,
    Leaves,
    Within(Range),
}

/// Whether the range holds a number, and stays inside the widest.
fn is_proper(r: Range) -> bool
    ensures { result ≡ is_proper r }
{
    r.low <= r.high && LEAST <= r.low && r.high <= GREATEST
}

/// What isn't a proper range is none.
pub(crate) fn proper(r: Range) -> Option<Range>
    ensures { result ≡ proper r }
{
    if is_proper(r) { Some(r) } else { None }
}

fn span_between(low: i128, high: i128) -> Span
    ensures { result ≡ span (range low high) }
{
    if LEAST <= low && high <= GREATEST {
        Span::Within(Range { low, high })
    } else {
        Span::Leaves
    }
}

pub(crate) fn leaves(span: Span) -> bool
    ensures { result ≡ is_leaves span }
{
    matches!(span, Span::Leaves)
}

/// A number that stays inside the widest range.
fn contained(number: i128) -> Option<i128>
    ensures { result ≡ contained number }
{
    if LEAST <= number && number <= GREATEST {
        Some(number)
    } else {
        None
    }
}

pub(crate) fn is_negative(r: Range) -> bool
    ensures { result ≡ is_negative r }
{
    r.low < 0
}

pub(crate) fn holds_zero(r: Range) -> bool
    ensures { result ≡ holds_zero r }
{
    r.low <= 0 && 0 <= r.high
}

/// The greater size of its ends.
fn greatest_size(r: Range) -> i128
    requires { IsTrue (is_proper r) }
    ensures value { result ≡ pos (greatest_size r) }
    ensures bound { result ≤ℤ pos 18446744073709551615 }
{
    let low = r.low.unsigned_abs();
    let high = r.high.unsigned_abs();
    low.max(high) as i128
}

/// The number of a literal.
pub(crate) fn literal_number(negative: bool, size: u128) -> Option<i128>
    ensures { result ≡ contained (literal (Num negative size)) }
{
    if size > 18_446_744_073_709_551_615 {
        None
    } else if negative {
        contained(-(size as i128))
    } else {
        contained(size as i128)
    }
}

fn sum(a: Range, b: Range) -> Span
    requires left { IsTrue (is_proper a) }
    requires right { IsTrue (is_proper b) }
    ensures { result ≡ span_of (two_range Op.Add a b) }
{
    span_between(a.low + b.low, a.high + b.high)
}

fn difference(a: Range, b: Range) -> Span
    requires left { IsTrue (is_proper a) }
    requires right { IsTrue (is_proper b) }
    ensures { result ≡ span_of (two_range Op.Sub a b) }
{
    span_between(a.low - b.high, a.high - b.low)
}

fn contained_product(x: i128, y: i128) -> Option<i128>
    ensures { result ≡ contained (x *ℤ y) }
{
    contained(x.checked_mul(y)?)
}

/// From the least to the greatest of four numbers.
fn over(p: i128, q: i128, r: i128, s: i128) -> Range
    ensures { result ≡ over p q r s }
{
    Range {
        low: p.min(q).min(r.min(s)),
        high: p.max(q).max(r.max(s)),
    }
}

fn products(a: Range, b: Range) -> Option<Range>
    ensures { found_span result ≡ span_of (two_range Op.Mul a b) }
{
    let p = contained_product(a.low, b.low)?;
    let q = contained_product(a.low, b.high)?;
    let r = contained_product(a.high, b.low)?;
    let s = contained_product(a.high, b.high)?;
    Some(over(p, q, r, s))
}

fn product(a: Range, b: Range) -> Span
    ensures { result ≡ span_of (two_range Op.Mul a b) }
{
    match products(a, b) {
        Some(found) => Span::Within(found),
        None => Span::Leaves,
    }
}

fn quotient(a: Range, b: Range) -> Span
    requires left { IsTrue (is_proper a) }
    requires right { IsTrue (is_proper b) }
    ensures { result ≡ span_of (two_range Op.Div a b) }
{
    if is_negative(a) || is_negative(b) {
        let most = greatest_size(a);
        return span_between(-most, most);
    }
    if holds_zero(b) {
        return Span::Undefined;
    }
    span_between(a.low / b.high, a.high / b.low)
}

fn remainder(a: Range, b: Range) -> Span
    requires left { IsTrue (is_proper a) }
    requires right { IsTrue (is_proper b) }
    ensures { result ≡ span_of (two_range Op.Rem a b) }
{
    let size = greatest_size(b);
    let most = if size > 0 { size - 1 } else { 0 };
    if is_negative(a) {
        span_between(-most, most)
    } else {
        span_between(0, most)
    }
}

fn bits_of_both(a: Range, b: Range) -> Span
    ensures { result ≡ span_of (two_range Op.BitAnd a b) }
{
    if is_negative(a) || is_negative(b) {
        return Span::Undefined;
    }
    span_between(0, a.high.min(b.high))
}

/// The greatest number of as many binary digits.
fn filled(number: i128) -> i128
    requires low { pos 0 ≤ℤ number }
    requires high { number ≤ℤ pos 18446744073709551615 }
    ensures value { result ≡ filled number }
{
    power_of_two(binary_digits(number.unsigned_abs())) as i128 - 1
}

fn bits_of_either(a: Range, b: Range) -> Span
    requires left { IsTrue (is_proper a) }
    requires right { IsTrue (is_proper b) }
    ensures { result ≡ span_of (two_range Op.BitOr a b) }
{
    if is_negative(a) || is_negative(b) {
        return Span::Undefined;
    }
    span_between(0, filled(a.high.max(b.high)))
}

/// A number times a power of two.
fn times_power(number: i128, places: i128) -> i128
    requires low { pos 0 ≤ℤ number }
    requires high { number ≤ℤ pos 18446744073709551615 }
    requires least { pos 0 ≤ℤ places }
    requires most { places ≤ℤ pos 63 }
    ensures { result ≡ number *ℤ power places }
{
    number * power_of_two(places as u32) as i128
}

fn shifted_left(a: Range, b: Range) -> Span
    requires left { IsTrue (is_proper a) }
    requires right { IsTrue (is_proper b) }
    ensures { result ≡ span_of (two_range Op.Shl a b) }
{
    if is_negative(a) || is_negative(b) {
        return Span::Undefined;
    }
    if a.high == 0 {
        return span_between(0, 0);
    }
    if b.high > 63 {
        return Span::Leaves;
    }
    span_between(times_power(a.low, b.low), times_power(a.high, b.high))
}

/// A number without its last binary digits.
fn over_power(number: i128, places: i128) -> i128
    requires low { pos 0 ≤ℤ number }
    requires high { number ≤ℤ pos 18446744073709551615 }
    requires least { pos 0 ≤ℤ places }
    ensures { result ≡ int_div number (power places) }
{
    if places > 63 {
        0
    } else {
        number / power_of_two(places as u32) as i128
    }
}

fn shifted_right(a: Range, b: Range) -> Span
    requires left { IsTrue (is_proper a) }
    requires right { IsTrue (is_proper b) }
    ensures { result ≡ span_of (two_range Op.Shr a b) }
{
    if is_negative(a) || is_negative(b) {
        return Span::Undefined;
    }
    span_between(over_power(a.low, b.high), over_power(a.high, b.low))
}

/// The range that an operator gives of the ranges of its operands.
pub(crate) fn two_span(o: Op, a: Range, b: Range) -> Span
    requires left { IsTrue (is_proper a) }
    requires right { IsTrue (is_proper b) }
    ensures { result ≡ span_of (two_range o a b) }
{
    match o {
        Op::Add => sum(a, b),
        Op::Sub => difference(a, b),
        Op::Mul => product(a, b),
        Op::Div => quotient(a, b),
        Op::Rem => remainder(a, b),
        Op::BitAnd => bits_of_both(a, b),
        Op::BitOr => bits_of_either(a, b),
        Op::Shl => shifted_left(a, b),
        Op::Shr => shifted_right(a, b),
        _ => Span::Undefined,
    }
}

/// The range of a number with a minus before it.
pub(crate) fn negated_span(r: Range) -> Span
    requires { IsTrue (is_proper r) }
    ensures { result ≡ span_of (negated_range (Some r)) }
{
    span_between(-r.high, -r.low)
}
