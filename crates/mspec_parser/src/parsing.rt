ghost use Rattle.std.specs.Prelude.{◌≡◌, ◌≤◌, length, IfOk};
ghost use Rattle.mspec_tree.specs.Depth.{depth_limit};
ghost use Rattle.mspec_tree.specs.Form.{IsWritten};
ghost use Rattle.mspec_tree.specs.declared.defs.Description.{Description};
ghost use Rattle.mspec_lexer.specs.Lexemes.{lexemes};
ghost use Rattle.mspec_lexer.specs.LexerParts.{stepped};
ghost use Rattle.mspec_lexer.specs.Tokens.{Tokens, place_behind, text_limit};
ghost use Rattle.mspec_grammar.specs.Senses.{AreWithin};
ghost use Rattle.mspec_grammar.specs.Trees.{Tree};
ghost use Rattle.mspec_parser.specs.Readers.{from_on};
ghost use Rattle.mspec_parser.specs.Defs.{description_at};
ghost use Rattle.mspec_parser.specs.Parsing.{IsFaultOf, IsNoOther, GivesAt, place_of};

use crate::definitions::description;
use crate::faults::ParseFault;
use crate::tokens::front;
use mspec_lexer::{Token, TokenList};
use mspec_quotes::QuoteFault;
use mspec_tree::{Description, Place};
use std::alloc::Global;

/// The place behind bytes, of which the first stands at line 1, column 1.
fn stepped(bytes: &[u8]) -> Place
    requires { length bytes.now ≤ text_limit }
    ensures { result ≡ stepped (record { line = 1; column = 1 }) bytes.now }
{
    let mut place = Place { line: 1, column: 1 };
    for byte in bytes {
        if *byte == b'\n' {
            place = Place {
                line: place.line + 1,
                column: 1,
            };
        } else {
            place.column += 1;
        }
    }
    place
}

/// The place behind a text.
fn end_of(text: &[u8]) -> Place
    requires { length text.now ≤ text_limit }
    ensures { result ≡ place_behind text.now }
{
    stepped(text)
}

/// The place of a token, or behind the text where there is none.
fn place_at(text: &[u8], tokens: &[Token], index: usize) -> Place
    requires within { AreWithin text.now tokens.now }
    requires short { length text.now ≤ text_limit }
    ensures { result ≡ place_of text.now (from_on text.now tokens.now index) }
{
    match front(text, tokens, index) {
        Some((_, place)) => place,
        None => end_of(text),
    }
}

/// The tree, or the place of the fault.
fn placed(alloc: Global, text: &[u8], tokens: &[Token]) -> Result<Description, ParseFault>
    requires within { AreWithin text.now tokens.now }
    requires short { length text.now ≤ text_limit }
    ensures { GivesAt text.now result (description_at depth_limit (lexemes text.now tokens.now)) }
{
    match description(alloc, text, tokens) {
        Ok(description) => Ok(description),
        Err(QuoteFault::NoMemory) => Err(ParseFault::NoMemory),
        Err(QuoteFault::At { index, why }) => {
            let place = place_at(text, tokens, index);
            Err(ParseFault::At { place, why })
        }
    }
}

/// The tree of a text, of which these are the tokens.
pub fn parse(alloc: Global, text: &[u8], tokens: &TokenList) -> Result<Description, ParseFault>
    requires { Tokens text.now tokens.now }
    // What is read is the text's tree.
    ensures tree { IfOk result (λ d. Tree depth_limit (lexemes text.now tokens.now) d) }
    // It has a form that the grammar can give.
    ensures form { IfOk result (λ d. IsWritten d) }
    // A text that has a tree is read, unless memory runs out.
    ensures only { (d : Description) → Tree depth_limit (lexemes text.now tokens.now) d → IsNoOther result d }
    // A fault stands at the first token with which no text of the grammar goes on, or behind the text, and says why.
    ensures refused { IsFaultOf text.now (lexemes text.now tokens.now) result }
{
    placed(alloc, text, tokens.as_slice())
}
