//! What operators are, by their operands.

ghost use Rattle.std.specs.Prelude.{◌≡◌, ◌&&◌, ◌||◌, int_lt, pos};
ghost use Rattle.mspec_expr.specs.Ranges.{Judged, are_compared, both_flags, both_numbers, chosen, divides, holds_zero, hull_of, is_negative, joined, kind_wrong, literal_is, measured, meant_numbers, negated, range, reckoned, same_item, shifts, takes_no_negative, two_judged, two_range, two_wrong, word};
ghost use Rattle.mspec_ranges.specs.Spans.{span_of};
ghost use Rattle.mspec_ranges.specs.Verdicts.{NumberIs, Tells, denied, earliest, ranged, tested};

use crate::faults::{earlier, wrong_if};
use crate::spans::{
    Span, holds_zero, is_negative, leaves, literal_number, negated_span, proper, two_span,
};
use crate::verdicts::{Verdict, is, may_be_flag, may_be_null, may_be_number, nothing, unknown};
use mspec_expr::{ExprWhy, Fault, ItemOf, Meant, NO_RANGE, Range, base_of, own_range};
use mspec_tree::{Description, Lit, Op, Place};

/// The range of a number or of an enum's numbers, if it has one.
fn numbers_of(d: &Description, meant: Option<Meant>) -> Option<Range>
    ensures { result ≡ meant_numbers d.now meant }
{
    match meant? {
        Meant::Number(r) => proper(r),
        Meant::EnumOf(def) => proper(own_range(base_of(d, def))),
        _ => None,
    }
}

/// A fault of an operator whose operands aren't of its kinds.
fn kind_wrong(right: bool, place: Place) -> Option<Fault>
    ensures { result ≡ earliest (kind_wrong right place) }
{
    wrong_if(!right, place, ExprWhy::KindMismatch)
}

/// The range of a number, if nothing is wrong with it.
fn ranged(span: Span, own: Option<Fault>) -> Range
    ensures { result ≡ ranged span own }
{
    match (span, own) {
        (Span::Within(r), None) => r,
        _ => NO_RANGE,
    }
}

/// A number, which has this range if nothing is wrong with it.
fn number_is(span: Span, own: Option<Fault>, under: Option<Fault>) -> Verdict
    ensures { NumberIs span own under result }
{
    Verdict {
        meant: Some(Meant::Number(ranged(span, own))),
        optional: false,
        fault: earlier(own, under),
    }
}

fn divides(o: Op) -> bool
    ensures { result ≡ divides o }
{
    matches!(o, Op::Div | Op::Rem)
}

fn shifts(o: Op) -> bool
    ensures { result ≡ shifts o }
{
    matches!(o, Op::Shl | Op::Shr)
}

fn takes_no_negative(o: Op) -> bool
    ensures { result ≡ takes_no_negative o }
{
    matches!(o, Op::BitAnd | Op::BitOr | Op::Shl | Op::Shr)
}

fn divides_badly(o: Op, b: Range) -> bool
    ensures { result ≡ (divides o && holds_zero b) }
{
    divides(o) && holds_zero(b)
}

fn takes_badly(o: Op, a: Range, b: Range) -> bool
    ensures { result ≡ (takes_no_negative o && (is_negative a || is_negative b) || shifts o && int_lt (pos 63) b.high) }
{
    takes_no_negative(o) && (is_negative(a) || is_negative(b)) || shifts(o) && b.high > 63
}

/// What is wrong with the numbers of an operator's operands.
fn two_wrong(o: Op, a: Range, b: Range, span: Span, place: Place) -> Option<Fault>
    requires { span ≡ span_of (two_range o a b) }
    ensures { result ≡ earliest (two_wrong o a b place) }
{
    let wide = wrong_if(leaves(span), place, ExprWhy::TooWide);
    let zero = wrong_if(divides_badly(o, b), place, ExprWhy::DivisorMayBeZero);
    let operand = wrong_if(takes_badly(o, a, b), place, ExprWhy::OperandRange);
    earlier(earlier(wide, zero), operand)
}

fn both_numbers(a: Verdict, b: Verdict) -> bool
    ensures { (x y : Judged) → Tells a x → Tells b y → result ≡ both_numbers x y }
{
    may_be_number(a.meant) && may_be_number(b.meant)
}

fn both_flags(a: Verdict, b: Verdict) -> bool
    ensures { (x y : Judged) → Tells a x → Tells b y → result ≡ both_flags x y }
{
    may_be_flag(a.meant) && may_be_flag(b.meant)
}

/// Two numbers or enum values, two flags, or an optional field and `null`.
fn are_compared(a: Verdict, b: Verdict) -> bool
    ensures { (x y : Judged) → Tells a x → Tells b y → result ≡ are_compared x y }
{
    both_numbers(a, b)
        || both_flags(a, b)
        || a.optional && may_be_null(b.meant)
        || may_be_null(a.meant) && b.optional
}

/// An operator that takes and gives numbers.
fn reckoned(d: &Description, place: Place, o: Op, a: Verdict, b: Verdict) -> Verdict
    ensures { (x y : Judged) → Tells a x → Tells b y → Tells result (reckoned d.now place o x y) }
{
    let wrong = kind_wrong(both_numbers(a, b), place);
    let under = earlier(a.fault, b.fault);
    let Some(left) = numbers_of(d, a.meant) else {
        return number_is(Span::Undefined, wrong, under);
    };
    let Some(right) = numbers_of(d, b.meant) else {
        return number_is(Span::Undefined, wrong, under);
    };
    let span = two_span(o, left, right);
    let own = earlier(wrong, two_wrong(o, left, right, span, place));
    number_is(span, own, under)
}

/// A flag, if its operands are right.
fn tested(right: bool, place: Place, a: Verdict, b: Verdict) -> Verdict
    ensures { (x y : Judged) → Tells a x → Tells b y → Tells result (tested right place x y) }
{
    let under = earlier(a.fault, b.fault);
    is(Meant::Flag, earlier(kind_wrong(right, place), under))
}

/// An operator between two operands.
pub(crate) fn two_judged(d: &Description, place: Place, o: Op, a: Verdict, b: Verdict) -> Verdict
    ensures { (x y : Judged) → Tells a x → Tells b y → Tells result (two_judged d.now place o x y) }
{
    match o {
        Op::Or | Op::And => tested(both_flags(a, b), place, a, b),
        Op::Eq | Op::Ne => tested(are_compared(a, b), place, a, b),
        Op::Lt | Op::Le | Op::Gt | Op::Ge => tested(both_numbers(a, b), place, a, b),
        _ => reckoned(d, place, o, a, b),
    }
}

/// `!`
pub(crate) fn denied(place: Place, a: Verdict) -> Verdict
    ensures { (x : Judged) → Tells a x → Tells result (denied place x) }
{
    let wrong = kind_wrong(may_be_flag(a.meant), place);
    is(Meant::Flag, earlier(wrong, a.fault))
}

/// `-` before an operand.
pub(crate) fn negated(d: &Description, place: Place, a: Verdict) -> Verdict
    ensures { (x : Judged) → Tells a x → Tells result (negated d.now place x) }
{
    let wrong = kind_wrong(may_be_number(a.meant), place);
    let Some(r) = numbers_of(d, a.meant) else {
        return number_is(Span::Undefined, wrong, a.fault);
    };
    let span = negated_span(r);
    let wide = wrong_if(leaves(span), place, ExprWhy::TooWide);
    number_is(span, earlier(wrong, wide), a.fault)
}

pub(crate) fn literal(place: Place, value: Lit) -> Verdict
    ensures { Tells result (literal_is place value) }
{
    match value {
        Lit::Flag(_) => is(Meant::Flag, None),
        Lit::Num { negative, size } => match literal_number(negative, size) {
            Some(number) => {
                let range = Range {
                    low: number,
                    high: number,
                };
                is(Meant::Number(range), None)
            }
            None => {
                let wide = wrong_if(true, place, ExprWhy::TooWide);
                is(Meant::Number(NO_RANGE), wide)
            }
        },
    }
}

/// A number that is counted of an operand.
pub(crate) fn measured(place: Place, right: bool, most: i128, a: Verdict) -> Verdict
    ensures { (x : Judged) → Tells a x → Tells result (measured place right (range (pos 0) most) x) }
{
    let wrong = kind_wrong(right, place);
    let range = Range { low: 0, high: most };
    is(Meant::Number(range), earlier(wrong, a.fault))
}

/// A word, if it may stand there.
pub(crate) fn word(place: Place, allowed: bool, meant: Meant) -> Verdict
    ensures { Tells result (word place allowed meant) }
{
    is(meant, wrong_if(!allowed, place, ExprWhy::UnknownName))
}

fn same_item(a: ItemOf, b: ItemOf) -> bool
    ensures { result ≡ same_item a b }
{
    match (a, b) {
        (ItemOf::Bits(one), ItemOf::Bits(other)) => one == other,
        (ItemOf::GroupOf { def: one, .. }, ItemOf::GroupOf { def: other, .. }) => one == other,
        _ => false,
    }
}

/// Both ranges at once.
fn hull_of(a: Option<Range>, b: Option<Range>) -> Range
    ensures { result ≡ hull_of a b }
{
    match (a, b) {
        (Some(one), Some(other)) => Range {
            low: one.low.min(other.low),
            high: one.high.max(other.high),
        },
        _ => NO_RANGE,
    }
}

/// What two branches are together, where they are of one kind.
fn joined(a: Meant, b: Meant) -> Option<Meant>
    ensures { result ≡ joined a b }
{
    match (a, b) {
        (Meant::Number(one), Meant::Number(other)) => {
            Some(Meant::Number(hull_of(proper(one), proper(other))))
        }
        (Meant::Flag, Meant::Flag) => Some(a),
        (Meant::EnumOf(one), Meant::EnumOf(other)) if one == other => Some(a),
        (
            Meant::GroupOf { def, case },
            Meant::GroupOf {
                def: one,
                case: other,
            },
        ) if def == one => {
            let case = if case == other { case } else { 0 };
            Some(Meant::GroupOf { def, case })
        }
        (Meant::ListOf(one), Meant::ListOf(other)) if same_item(one, other) => Some(a),
        (Meant::Bytes, Meant::Bytes) => Some(a),
        (Meant::Raw, Meant::Raw) => Some(a),
        _ => None,
    }
}

/// `condition ? first : second`
pub(crate) fn chosen(place: Place, condition: Verdict, a: Verdict, b: Verdict) -> Verdict
    ensures { (c x y : Judged) → Tells condition c → Tells a x → Tells b y → Tells result (chosen place c x y) }
{
    let wrong = kind_wrong(may_be_flag(condition.meant), place);
    let fault = earlier(earlier(earlier(wrong, condition.fault), a.fault), b.fault);
    let Some(first) = a.meant else {
        return unknown(fault);
    };
    let Some(second) = b.meant else {
        return unknown(fault);
    };
    match joined(first, second) {
        Some(meant) => is(meant, fault),
        None => nothing(place, ExprWhy::KindMismatch, fault),
    }
}
