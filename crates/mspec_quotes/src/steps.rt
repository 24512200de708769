//! The steps of reading: each takes one token.

ghost use Rattle.std.specs.Prelude.{◌≡◌, ◌≤◌, [], ◌∷◌, suc, IfOk};
ghost use Rattle.mspec_tree.specs.Depth.{depth, depth_limit};
ghost use Rattle.mspec_grammar.specs.Senses.{sensed};
ghost use Rattle.mspec_quotes.specs.Machine.{made, whole, least, closed, step, behind, operand_sign, operand_word, operator_of, strength_or_0, with_operator, at_colon, at_parenthesis, at_comma, at_quote, Go, Opening, Operand as OperandMode, Behind as BehindMode, Path as PathMode, CaseName as CaseNameMode, CaseQuoted as CaseQuotedMode, CaseQuote as CaseQuoteMode, CaseEnd as CaseEndMode};
ghost use Rattle.mspec_quotes.specs.Rooms.{left_depth, IsDeeper};
ghost use Rattle.mspec_quotes.specs.Steps.{mode_of, Moves, Names};
ghost use Rattle.mspec_quotes.specs.declared.steps.Halt.TheVariants.{NoMemory};

use crate::operands::Operand;
use crate::operators::{operator_of, strength_of};
use crate::pending::{ALL, CONDITION, Open, Opens};
use mspec_grammar::{Sense, Word, spells};
use mspec_lexer::Symbol;
use mspec_tree::{Expr, Lit, Name, Place, Shape};
use sqlite_items::Items;
use std::alloc::{AllocError, Global};

/// The word that is left out of expressions.
pub const STATIC_CALL: &[u8] = b"STATIC_CALL";

/// What is to come, with what was read of it.
#[derive(Drop)]
pub enum Expected {
    Operand,
    /// An operator, or what closes something.
    Behind(Operand),
    /// The parenthesis of the `COUNT` at this place.
    Count(Place),
    /// The parenthesis of the `CAST` at this place.
    Cast(Place),
    /// A name or `lengthInBytes`, behind the dot at this place.
    Path(Place, Operand),
    /// In the `CAST` at this place: the name, or a double quote.
    CaseName(Place, Operand),
    /// The name behind a double quote.
    CaseQuoted(Place, Operand),
    /// The double quote behind the name.
    CaseQuote(Place, Operand, Name),
    /// The last parenthesis.
    CaseEnd(Place, Operand, Name),
}

/// An expression that was read up to some token.
#[derive(Drop)]
pub struct Reading {
    pub opens: Opens,
    pub expected: Expected,
}

/// What a token leads to.
#[derive(Drop)]
pub enum Moved {
    Go(Reading),
    /// The token is the closing quote of this expression.
    Finish(Expr),
}

/// Why a token leads nowhere.
#[derive(Clone, Copy)]
pub enum Halt {
    Refused,
    TooDeep,
    NoMemory,
}

impl From<AllocError> for Halt {
    ghost from_gives = { λ _ e. e ≡ NoMemory };

    fn from(_error: AllocError) -> Halt {
        Halt::NoMemory
    }
}

/// Where an operand is to come, or something behind one.
fn going(opens: Opens, expected: Expected) -> Result<Moved, Halt>
    requires { least opens (mode_of expected) ≤ depth_limit }
    ensures { Moves result (Go opens (mode_of expected)) }
{
    Ok(Moved::Go(Reading { opens, expected }))
}

/// Opens something whose operand is to come.
fn opened(opens: Opens, next: Open, left: u8) -> Result<Moved, Halt>
    requires deeper { IsDeeper next }
    requires left { left ≡ left_depth next }
    requires fits { whole opens 1 ≤ depth_limit }
    ensures { Moves result (Go (next ∷ opens) OperandMode) }
{
    let mut opens = opens;
    let room = opens.room();
    if room <= left.max(1) {
        return Err(Halt::TooDeep);
    }
    opens.push(next, left, room - 1)?;
    going(opens, Expected::Operand)
}

/// Opens a parenthesis, which counts nothing.
fn grouped(opens: Opens) -> Result<Moved, Halt>
    requires { whole opens 1 ≤ depth_limit }
    ensures { Moves result (Go (Open.Parenthesis ∷ opens) OperandMode) }
{
    let mut opens = opens;
    let room = opens.room();
    opens.push(Open::Parenthesis, 0, room)?;
    going(opens, Expected::Operand)
}

fn count_word(opens: Opens, place: Place) -> Result<Moved, Halt>
    requires { whole opens 1 ≤ depth_limit }
    ensures { Moves result (Go opens (Opening (Open.Count place))) }
{
    if opens.room() <= 1 {
        return Err(Halt::TooDeep);
    }
    going(opens, Expected::Count(place))
}

fn cast_word(opens: Opens, place: Place) -> Result<Moved, Halt>
    requires { whole opens 1 ≤ depth_limit }
    ensures { Moves result (Go opens (Opening (Open.Cast place))) }
{
    if opens.room() <= 1 {
        return Err(Halt::TooDeep);
    }
    going(opens, Expected::Cast(place))
}

/// Closes all that something of this strength closes.
fn closed(
    alloc: Global,
    opens: Opens,
    operand: Operand,
    strength: u8,
) -> Result<(Opens, Operand), AllocError>
    requires { whole opens (depth operand) ≤ depth_limit }
    ensures closed { IfOk result (λ c. closed strength opens operand ≡ record { opens = c.0; operand = c.1 }) }
    ensures fits { IfOk result (λ c. whole c.0 (depth c.1) ≤ depth_limit) }
{
    let mut opens = opens;
    let mut operand = operand;
    while let Some((last, left)) = opens.pop_closed(strength) {
        operand = operand.closed_by(alloc, last, left)?;
    }
    Ok((opens, operand))
}

// ---- an operand is to come

/// An operand without operands of its own.
fn leaf(alloc: Global, opens: Opens, place: Place, shape: Shape) -> Result<Moved, Halt>
    requires shallow { depth (made place shape) ≡ 1 }
    requires fits { whole opens 1 ≤ depth_limit }
    ensures { Moves result (Go opens (BehindMode (made place shape))) }
{
    let operand = Operand::leaf(alloc, place, shape)?;
    going(opens, Expected::Behind(operand))
}

fn operand_sign(opens: Opens, symbol: Symbol, place: Place) -> Result<Moved, Halt>
    requires { whole opens 1 ≤ depth_limit }
    ensures { Moves result (operand_sign symbol place opens) }
{
    match symbol {
        Symbol::LeftParenthesis => grouped(opens),
        Symbol::Exclamation => opened(opens, Open::Not(place), 0),
        Symbol::Minus => opened(opens, Open::Neg(place), 0),
        _ => Err(Halt::Refused),
    }
}

#[tactic(auto, using(crate::proofs::Depths::depth_rules))]
fn operand_word(alloc: Global, opens: Opens, word: Word, place: Place) -> Result<Moved, Halt>
    requires { whole opens 1 ≤ depth_limit }
    ensures { Moves result (operand_word word place opens) }
{
    match word {
        Word::True => leaf(alloc, opens, place, Shape::Lit(Lit::Flag(true))),
        Word::False => leaf(alloc, opens, place, Shape::Lit(Lit::Flag(false))),
        Word::Null => leaf(alloc, opens, place, Shape::Null),
        Word::CurPos => leaf(alloc, opens, place, Shape::CurPos),
        Word::LengthInBytes => leaf(alloc, opens, place, Shape::Length),
        Word::LastItem => leaf(alloc, opens, place, Shape::LastItem),
        Word::SumBytes => leaf(alloc, opens, place, Shape::SumBytes),
        Word::XorBytes => leaf(alloc, opens, place, Shape::XorBytes),
        Word::Count => count_word(opens, place),
        Word::Cast => cast_word(opens, place),
        Word::Bit | Word::Byte | Word::Uint | Word::Int | Word::Float => Err(Halt::Refused),
    }
}

/// A name that an expression may have.
fn free_name(alloc: Global, bytes: &[u8]) -> Result<Name, Halt>
    ensures { Names result bytes.now }
{
    if spells(bytes, STATIC_CALL) {
        return Err(Halt::Refused);
    }
    Ok(Items::from_slice(alloc, bytes)?)
}

#[tactic(auto, using(crate::proofs::Depths::depth_rules), unfolding(crate::specs::Machine::step))]
fn operand(alloc: Global, opens: Opens, sense: Sense<'_>, place: Place) -> Result<Moved, Halt>
    requires { whole opens 1 ≤ depth_limit }
    ensures { Moves result (step opens OperandMode (sensed sense.entry) place) }
{
    match sense {
        Sense::Number(size) => {
            let negative = false;
            leaf(alloc, opens, place, Shape::Lit(Lit::Num { negative, size }))
        }
        Sense::Sign(symbol) => operand_sign(opens, symbol, place),
        Sense::Taken(word) => operand_word(alloc, opens, word, place),
        Sense::Name(bytes) => {
            let name = free_name(alloc, bytes)?;
            leaf(alloc, opens, place, Shape::Name(name))
        }
    }
}

// ---- behind an operand

fn dotted(opens: Opens, operand: Operand, place: Place) -> Result<Moved, Halt>
    requires { whole opens (depth operand) ≤ depth_limit }
    ensures { Moves result (Go opens (PathMode place operand)) }
{
    if opens.room() <= operand.depth() {
        return Err(Halt::TooDeep);
    }
    going(opens, Expected::Path(place, operand))
}

fn questioned(opens: Opens, operand: Operand, place: Place) -> Result<Moved, Halt>
    requires { whole opens (depth operand) ≤ depth_limit }
    ensures { Moves result (Go (Open.Condition place operand ∷ opens) OperandMode) }
{
    let left = operand.depth();
    opened(opens, Open::Condition(place, operand.into_expr()), left)
}

fn otherwise(opens: Opens, operand: Operand) -> Result<Moved, Halt>
    requires { whole opens (depth operand) ≤ depth_limit }
    ensures { Moves result (at_colon opens operand) }
{
    let mut opens = opens;
    let second = operand.depth();
    let Some((last, first)) = opens.pop() else {
        return Err(Halt::Refused);
    };
    match last {
        Open::Condition(place, condition) => {
            let left = first.max(second);
            let next = Open::Otherwise(place, condition, operand.into_expr());
            opened(opens, next, left)
        }
        _ => Err(Halt::Refused),
    }
}

fn parenthesized(alloc: Global, opens: Opens, operand: Operand) -> Result<Moved, Halt>
    requires { whole opens (depth operand) ≤ depth_limit }
    ensures { Moves result (at_parenthesis opens operand) }
{
    let mut opens = opens;
    match opens.pop() {
        Some((Open::Parenthesis, _)) => going(opens, Expected::Behind(operand)),
        Some((Open::Count(place), left)) => {
            let counted = operand.closed_by(alloc, Open::Count(place), left)?;
            going(opens, Expected::Behind(counted))
        }
        _ => Err(Halt::Refused),
    }
}

fn named(opens: Opens, operand: Operand) -> Result<Moved, Halt>
    requires { whole opens (depth operand) ≤ depth_limit }
    ensures { Moves result (at_comma opens operand) }
{
    let mut opens = opens;
    match opens.pop() {
        Some((Open::Cast(place), _)) => going(opens, Expected::CaseName(place, operand)),
        _ => Err(Halt::Refused),
    }
}

fn finished(opens: Opens, operand: Operand) -> Result<Moved, Halt>
    ensures { Moves result (at_quote opens operand) }
{
    let mut opens = opens;
    match opens.pop() {
        None => Ok(Moved::Finish(operand.into_expr().into_inner())),
        Some(_) => Err(Halt::Refused),
    }
}

fn between(
    alloc: Global,
    opens: Opens,
    operand: Operand,
    symbol: Symbol,
    place: Place,
) -> Result<Moved, Halt>
    requires { whole opens (depth operand) ≤ depth_limit }
    ensures { let c = closed (strength_or_0 (operator_of symbol)) opens operand in
        Moves result (with_operator (operator_of symbol) place c.opens c.operand) }
{
    let Some(operator) = operator_of(symbol) else {
        return Err(Halt::Refused);
    };
    let (opens, operand) = closed(alloc, opens, operand, strength_of(operator))?;
    let left = operand.depth();
    opened(
        opens,
        Open::Left(place, operator, operand.into_expr()),
        left,
    )
}

fn behind(
    alloc: Global,
    opens: Opens,
    operand: Operand,
    symbol: Symbol,
    place: Place,
) -> Result<Moved, Halt>
    requires { whole opens (depth operand) ≤ depth_limit }
    ensures { Moves result (behind symbol place opens operand) }
{
    match symbol {
        Symbol::Dot => dotted(opens, operand, place),
        Symbol::Question => {
            let (opens, operand) = closed(alloc, opens, operand, CONDITION)?;
            questioned(opens, operand, place)
        }
        Symbol::Colon => {
            let (opens, operand) = closed(alloc, opens, operand, ALL)?;
            otherwise(opens, operand)
        }
        Symbol::RightParenthesis => {
            let (opens, operand) = closed(alloc, opens, operand, ALL)?;
            parenthesized(alloc, opens, operand)
        }
        Symbol::Comma => {
            let (opens, operand) = closed(alloc, opens, operand, ALL)?;
            named(opens, operand)
        }
        Symbol::Quote => {
            let (opens, operand) = closed(alloc, opens, operand, ALL)?;
            finished(opens, operand)
        }
        _ => between(alloc, opens, operand, symbol, place),
    }
}

// ---- behind a word, a dot, and in a CAST

#[tactic(auto, unfolding(crate::specs::Machine::step))]
fn bracketed(opens: Opens, word: Open, sense: Sense<'_>, place: Place) -> Result<Moved, Halt>
    requires deeper { IsDeeper word }
    requires empty { left_depth word ≡ 0 }
    requires fits { whole opens 1 ≤ depth_limit }
    ensures { Moves result (step opens (Opening word) (sensed sense.entry) place) }
{
    match sense {
        Sense::Sign(Symbol::LeftParenthesis) => opened(opens, word, 0),
        _ => Err(Halt::Refused),
    }
}

#[tactic(auto, using(crate::proofs::Depths::depth_rules), unfolding(crate::specs::Machine::step))]
fn path(
    alloc: Global,
    opens: Opens,
    dot: Place,
    read: Operand,
    sense: Sense<'_>,
    place: Place,
) -> Result<Moved, Halt>
    requires { whole opens (suc (depth read)) ≤ depth_limit }
    ensures { Moves result (step opens (PathMode dot read) (sensed sense.entry) place) }
{
    match sense {
        Sense::Name(bytes) => {
            let name = free_name(alloc, bytes)?;
            going(opens, Expected::Behind(read.dot(alloc, dot, name)?))
        }
        Sense::Taken(Word::LengthInBytes) => {
            going(opens, Expected::Behind(read.length_of(alloc, dot)?))
        }
        _ => Err(Halt::Refused),
    }
}

#[tactic(auto, unfolding(crate::specs::Machine::step))]
fn case_name(
    alloc: Global,
    opens: Opens,
    cast: Place,
    read: Operand,
    sense: Sense<'_>,
    place: Place,
) -> Result<Moved, Halt>
    requires { whole opens (suc (depth read)) ≤ depth_limit }
    ensures { Moves result (step opens (CaseNameMode cast read) (sensed sense.entry) place) }
{
    match sense {
        Sense::Name(bytes) => {
            let name = free_name(alloc, bytes)?;
            going(opens, Expected::CaseEnd(cast, read, name))
        }
        Sense::Sign(Symbol::DoubleQuote) => going(opens, Expected::CaseQuoted(cast, read)),
        _ => Err(Halt::Refused),
    }
}

#[tactic(auto, unfolding(crate::specs::Machine::step))]
fn case_quoted(
    alloc: Global,
    opens: Opens,
    cast: Place,
    read: Operand,
    sense: Sense<'_>,
    place: Place,
) -> Result<Moved, Halt>
    requires { whole opens (suc (depth read)) ≤ depth_limit }
    ensures { Moves result (step opens (CaseQuotedMode cast read) (sensed sense.entry) place) }
{
    match sense {
        Sense::Name(bytes) => {
            let name = free_name(alloc, bytes)?;
            going(opens, Expected::CaseQuote(cast, read, name))
        }
        _ => Err(Halt::Refused),
    }
}

#[tactic(auto, unfolding(crate::specs::Machine::step))]
fn case_quote(
    opens: Opens,
    cast: Place,
    read: Operand,
    name: Name,
    sense: Sense<'_>,
    place: Place,
) -> Result<Moved, Halt>
    requires { whole opens (suc (depth read)) ≤ depth_limit }
    ensures { Moves result (step opens (CaseQuoteMode cast read name) (sensed sense.entry) place) }
{
    match sense {
        Sense::Sign(Symbol::DoubleQuote) => going(opens, Expected::CaseEnd(cast, read, name)),
        _ => Err(Halt::Refused),
    }
}

#[tactic(auto, using(crate::proofs::Depths::depth_rules), unfolding(crate::specs::Machine::step))]
fn case_end(
    alloc: Global,
    opens: Opens,
    cast: Place,
    read: Operand,
    name: Name,
    sense: Sense<'_>,
    place: Place,
) -> Result<Moved, Halt>
    requires { whole opens (suc (depth read)) ≤ depth_limit }
    ensures { Moves result (step opens (CaseEndMode cast read name) (sensed sense.entry) place) }
{
    match sense {
        Sense::Sign(Symbol::RightParenthesis) => {
            going(opens, Expected::Behind(read.cast(alloc, cast, name)?))
        }
        _ => Err(Halt::Refused),
    }
}

impl Reading {
    /// Nothing is read yet.
    pub fn new(alloc: Global) -> Reading
        ensures opens { result.opens ≡ [] }
        ensures expected { mode_of result.expected ≡ OperandMode }
    {
        Reading {
            opens: Opens::new(alloc),
            expected: Expected::Operand,
        }
    }

    /// Takes one token.
    #[tactic(auto, unfolding(crate::specs::Machine::step))]
    pub fn step(self, alloc: Global, sense: Sense<'_>, place: Place) -> Result<Moved, Halt>
        requires { least self.opens (mode_of self.expected) ≤ depth_limit }
        ensures { Moves result (step self.opens (mode_of self.expected) (sensed sense.entry) place) }
    {
        let Reading { opens, expected } = self;
        match expected {
            Expected::Operand => operand(alloc, opens, sense, place),
            Expected::Behind(read) => match sense {
                Sense::Sign(symbol) => behind(alloc, opens, read, symbol, place),
                _ => Err(Halt::Refused),
            },
            Expected::Count(word) => bracketed(opens, Open::Count(word), sense, place),
            Expected::Cast(word) => bracketed(opens, Open::Cast(word), sense, place),
            Expected::Path(dot, read) => path(alloc, opens, dot, read, sense, place),
            Expected::CaseName(cast, read) => case_name(alloc, opens, cast, read, sense, place),
            Expected::CaseQuoted(cast, read) => case_quoted(alloc, opens, cast, read, sense, place),
            Expected::CaseQuote(cast, read, name) => {
                case_quote(opens, cast, read, name, sense, place)
            }
            Expected::CaseEnd(cast, read, name) => {
                case_end(alloc, opens, cast, read, name, sense, place)
            }
        }
    }
}
