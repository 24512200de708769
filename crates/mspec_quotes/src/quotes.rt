ghost use Rattle.std.specs.Prelude.{List, ◌≡◌, [], ◌≤◌, ◌<◌, length, drop, IfOk, IfErr};
ghost use Rattle.mspec_tree.specs.Depth.{depth_limit};
ghost use Rattle.mspec_tree.specs.declared.exprs.Expr.{Expr};
ghost use Rattle.mspec_lexer.specs.Lexemes.{Lexeme, lexemes};
ghost use Rattle.mspec_grammar.specs.Expressions.{Quoted};
ghost use Rattle.mspec_grammar.specs.Senses.{AreWithin, sensed};
ghost use Rattle.mspec_quotes.specs.Machine.{read, read_quoted, Operand};
ghost use Rattle.mspec_quotes.specs.Quotes.{Gives, OfFault, IsQuoteFault, fault_of};
ghost use Rattle.mspec_quotes.specs.declared.quotes.QuoteFault.TheVariants.{NoMemory};

use crate::steps::{Halt, Moved, Reading, STATIC_CALL};
use mspec_grammar::{ParseWhy, Sense, sense_of, spells};
use mspec_lexer::{Symbol, Token, TokenKind};
use mspec_tree::Expr;
use std::alloc::{AllocError, Global};

/// Why no expression in quotes stands at a token: the token, counted from 0, with which none goes on, or want of memory.
/// Where the tokens end inside the quotes it is the number of the tokens.
#[derive(Clone, Copy, Debug, PartialEq, Eq)]
pub enum QuoteFault {
    At { index: usize, why: ParseWhy },
    NoMemory,
}

impl From<AllocError> for QuoteFault {
    ghost from_gives = { λ _ e. e ≡ NoMemory };

    fn from(_error: AllocError) -> QuoteFault {
        QuoteFault::NoMemory
    }
}

/// The fault of a token that leads nowhere.
fn fault(halt: Halt, index: usize, sense: Sense<'_>) -> QuoteFault
    ensures { result ≡ fault_of halt index (sensed sense.entry) }
{
    let why = match halt {
        Halt::NoMemory => return QuoteFault::NoMemory,
        Halt::TooDeep => ParseWhy::TooDeep,
        Halt::Refused => match sense {
            Sense::Name(bytes) if spells(bytes, STATIC_CALL) => ParseWhy::LeftOut,
            _ => ParseWhy::Unexpected,
        },
    };
    QuoteFault::At { index, why }
}

/// The expression whose opening quote stands before this token, and the token behind its closing quote.
fn behind_quote(
    alloc: Global,
    text: &[u8],
    tokens: &[Token],
    at: usize,
) -> Result<(Expr, usize), QuoteFault>
    requires within { AreWithin text.now tokens.now }
    requires inside { at ≤ length tokens.now }
    ensures exact { Gives text.now tokens.now result (read depth_limit [] Operand (lexemes text.now (drop at tokens.now))) }
    ensures bounds { IfOk result (λ r. (at < r.1) × (r.1 ≤ length tokens.now)) }
    ensures fault_bounds { IfErr result (λ f. OfFault f (λ index why. (at ≤ index) × (index ≤ length tokens.now))) }
{
    let mut reading = Reading::new(alloc);
    for index in at..tokens.len() {
        let token = &tokens[index];
        let sense = sense_of(text, token);
        match reading.step(alloc, sense, token.place) {
            Ok(Moved::Go(next)) => reading = next,
            Ok(Moved::Finish(expr)) => return Ok((expr, index + 1)),
            Err(halt) => return Err(fault(halt, index, sense)),
        }
    }
    Err(QuoteFault::At {
        index: tokens.len(),
        why: ParseWhy::EndOfText,
    })
}

/// The same with its opening quote, by what reads the lexemes one after another.
fn quote_at(
    alloc: Global,
    text: &[u8],
    tokens: &[Token],
    at: usize,
) -> Result<(Expr, usize), QuoteFault>
    requires within { AreWithin text.now tokens.now }
    requires inside { at ≤ length tokens.now }
    ensures exact { Gives text.now tokens.now result (read_quoted depth_limit (lexemes text.now (drop at tokens.now))) }
    ensures bounds { IfOk result (λ r. (at < r.1) × (r.1 ≤ length tokens.now)) }
    ensures fault_bounds { IfErr result (λ f. OfFault f (λ index why. (at ≤ index) × (index ≤ length tokens.now))) }
{
    let why = match tokens.get(at) {
        Some(token) if token.kind == TokenKind::Symbol(Symbol::Quote) => {
            return behind_quote(alloc, text, tokens, at + 1);
        }
        Some(_) => ParseWhy::Unexpected,
        None => ParseWhy::EndOfText,
    };
    Err(QuoteFault::At { index: at, why })
}

/// The expression in quotes that stands at this token, and the token behind its closing quote.
pub fn quoted(
    alloc: Global,
    text: &[u8],
    tokens: &[Token],
    at: usize,
) -> Result<(Expr, usize), QuoteFault>
    requires within { AreWithin text.now tokens.now }
    requires inside { at ≤ length tokens.now }
    // What is read is in the grammar.
    ensures read { IfOk result (λ r. Quoted depth_limit (lexemes text.now (drop at tokens.now)) r.0 (lexemes text.now (drop r.1 tokens.now))) }
    // What is in the grammar is read, unless memory runs out.
    ensures only { (e : Expr) (rest : List Lexeme) → Quoted depth_limit (lexemes text.now (drop at tokens.now)) e rest
        → Gives text.now tokens.now result (Ok (e, rest)) }
    // A fault stands where no expression goes on, whatever follows.
    ensures refused { IfErr result (λ f. OfFault f (λ index why. IsQuoteFault text.now (drop at tokens.now) (drop index tokens.now) why)) }
    ensures bounds { IfOk result (λ r. (at < r.1) × (r.1 ≤ length tokens.now)) }
    ensures fault_bounds { IfErr result (λ f. OfFault f (λ index why. (at ≤ index) × (index ≤ length tokens.now))) }
    // The same, by what reads the lexemes one after another.
    ensures exact { Gives text.now tokens.now result (read_quoted depth_limit (lexemes text.now (drop at tokens.now))) }
{
    quote_at(alloc, text, tokens, at)
}
