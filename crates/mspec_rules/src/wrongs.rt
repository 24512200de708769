//! What is wrong with a description, and which of all that is wrong is told.

ghost use Rattle.std.specs.Prelude.{◌≡◌, ◌≤◌, Bool};
ghost use Rattle.mspec_expr.specs.Ranges.{place_before};
ghost use Rattle.mspec_rules.specs.Wrongs.{before, earlier, found, matters, number, of_expr, rank, rule_of, word, wrong_if};

use mspec_expr::{ExprWhy, Fault};
use mspec_tree::Place;

/// The rules of checking, in their order.
#[derive(Clone, Copy, Debug, PartialEq, Eq)]
pub enum Rule {
    /// A name stands twice.
    Names,
    /// A type's name has no definition, or the type is of another kind than its place takes.
    Types,
    /// The width of a type.
    Widths,
    /// An order of bytes at a number that isn't whole bytes.
    Orders,
    /// A literal that isn't of its type.
    Literals,
    /// The number of switches, and of a case's keys.
    Switches,
    /// A key that isn't of its name's kind.
    Keys,
    /// The arguments of a type.
    Arguments,
    /// A name or a word in an expression that doesn't see it.
    Scopes,
    /// What a padding's expression may have.
    Paddings,
    /// The kinds of operands, and of an expression in its place.
    Kinds,
    /// The numbers that an expression may be.
    Ranges,
    /// What is past a limit.
    Limits,
}

/// Why a description is refused. Within a rule the earlier one is told.
#[derive(Clone, Copy, Debug, PartialEq, Eq)]
pub enum CheckWhy {
    /// An expression, or the kind of a type.
    Expr(ExprWhy),
    /// A second thing of one name.
    DoubledName,
    /// No definition has the type's name.
    UnknownType,
    /// A width that no type of its word has.
    WidthRange,
    /// The least significant byte first, at a number that isn't whole bytes.
    LittleWidth,
    /// A literal that isn't of its type's kind and range.
    ConstRange,
    /// Another number of switches than one, or more keys than names.
    SwitchCount,
    /// A key of another kind than its name, or no constant of its enum.
    CaseKey,
    /// Another number of arguments, or a flag where a number is wanted or the reverse.
    Arguments,
    /// Something that a padding's expression doesn't see.
    PaddingScope,
    /// Past a limit.
    Limit,
}

/// One thing that is wrong with a description: where, by which rule, and why.
#[derive(Clone, Copy, Debug, PartialEq, Eq)]
pub struct Wrong {
    pub place: Place,
    pub rule: Rule,
    pub why: CheckWhy,
}

fn number(rule: Rule) -> u16
    ensures value { result ≡ number rule }
    ensures bound { result ≤ 13 }
{
    match rule {
        Rule::Names => 1,
        Rule::Types => 2,
        Rule::Widths => 3,
        Rule::Orders => 4,
        Rule::Literals => 5,
        Rule::Switches => 6,
        Rule::Keys => 7,
        Rule::Arguments => 8,
        Rule::Scopes => 9,
        Rule::Paddings => 10,
        Rule::Kinds => 11,
        Rule::Ranges => 12,
        Rule::Limits => 13,
    }
}

fn word(why: CheckWhy) -> u16
    ensures value { result ≡ word why }
    ensures bound { result ≤ 14 }
{
    match why {
        CheckWhy::Expr(ExprWhy::TooWide) => 0,
        CheckWhy::Expr(ExprWhy::DivisorMayBeZero) => 1,
        CheckWhy::Expr(ExprWhy::OperandRange) => 2,
        CheckWhy::Expr(ExprWhy::UnknownName) => 3,
        CheckWhy::Expr(ExprWhy::KindMismatch) => 4,
        CheckWhy::DoubledName => 5,
        CheckWhy::UnknownType => 6,
        CheckWhy::WidthRange => 7,
        CheckWhy::LittleWidth => 8,
        CheckWhy::ConstRange => 9,
        CheckWhy::SwitchCount => 10,
        CheckWhy::CaseKey => 11,
        CheckWhy::Arguments => 12,
        CheckWhy::PaddingScope => 13,
        CheckWhy::Limit => 14,
    }
}

fn rank(wrong: Wrong) -> u16
    ensures { result ≡ rank wrong }
{
    16 * number(wrong.rule) + word(wrong.why)
}

fn place_before(a: Place, b: Place) -> bool
    ensures { result ≡ place_before a b }
{
    a.line < b.line || a.line == b.line && a.column < b.column
}

/// Whether the first is told rather than the second: at the earlier place, and at one place by the earlier rule, and within a rule
/// with the earlier word.
pub fn before(a: Wrong, b: Wrong) -> bool
    ensures { result ≡ before a b }
{
    place_before(a.place, b.place) || !place_before(b.place, a.place) && rank(a) < rank(b)
}

/// The one of two that is told.
pub fn earlier(first: Option<Wrong>, second: Option<Wrong>) -> Option<Wrong>
    ensures { result ≡ earlier first second }
{
    match (first, second) {
        (Some(a), Some(b)) => Some(if before(b, a) { b } else { a }),
        (Some(a), None) => Some(a),
        (None, other) => other,
    }
}

/// Whether one more would be told rather than the first so far: where it wouldn't, it need not be looked for.
pub fn matters(first: Option<Wrong>, other: Wrong) -> bool
    ensures { result ≡ matters first other }
{
    match first {
        None => true,
        Some(wrong) => before(other, wrong),
    }
}

/// The first so far, or this one if something is wrong and it stands before it.
pub fn told_if(
    first: Option<Wrong>,
    wrong: bool,
    place: Place,
    rule: Rule,
    why: CheckWhy,
) -> Option<Wrong>
    ensures { result ≡ earlier first (found (wrong_if wrong place rule why)) }
{
    if wrong {
        earlier(first, Some(Wrong { place, rule, why }))
    } else {
        first
    }
}

/// The first so far, or this one if something is wrong and it stands before it. Where it wouldn't be told, it isn't looked for.
pub fn told_when<F: FnOnce() -> bool>(
    first: Option<Wrong>,
    place: Place,
    rule: Rule,
    why: CheckWhy,
    is_wrong: F,
) -> Option<Wrong>
    requires { F.pre is_wrong }
    ensures { (wrong : Bool) → ((answer : Bool) → F.post is_wrong answer → answer ≡ wrong) → result ≡ earlier first (found (wrong_if wrong place rule why)) }
{
    if matters(first, Wrong { place, rule, why }) {
        told_if(first, is_wrong(), place, rule, why)
    } else {
        first
    }
}

/// The rule that a fault of an expression breaks.
pub fn rule_of(why: ExprWhy) -> Rule
    ensures { result ≡ rule_of why }
{
    match why {
        ExprWhy::UnknownName => Rule::Scopes,
        ExprWhy::KindMismatch => Rule::Kinds,
        ExprWhy::TooWide | ExprWhy::DivisorMayBeZero | ExprWhy::OperandRange => Rule::Ranges,
    }
}

/// A fault of an expression.
pub fn expr_wrong(fault: Fault) -> Wrong
    ensures { result ≡ of_expr fault }
{
    Wrong {
        place: fault.place,
        rule: rule_of(fault.why),
        why: CheckWhy::Expr(fault.why),
    }
}
