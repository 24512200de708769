ghost use Rattle.std.specs.Prelude.{◌≡◌, ◌+◌, ◌<◌, ◌≤◌, ◌^◌, ◌++◌, length, drop, IfOk, IfErr, OnOk};
ghost use Rattle.mspec_lexer.specs.Tokens.{Tokens};
ghost use Rattle.mspec_lexer.specs.LexFaults.{OfFault, IsRefused};
ghost use Rattle.mspec_lexer.specs.LexerParts.{front_of, front_token, placed, stepped};

use crate::fronts::{Front, read_front};
use crate::tokens::{LexFault, LexWhy, Token, TokenList};
use mspec_tree::Place;
use std::alloc::{AllocError, Global};

/// The most bytes that a text may have.
const TEXT_LIMIT: usize = 1_048_576;

/// The place of a text's first byte.
const START: Place = Place { line: 1, column: 1 };

/// The place behind bytes, of which the first stands at the place.
fn stepped(place: Place, bytes: &[u8]) -> Place
    requires lines { place.line + length bytes.now < 2 ^ 32 }
    requires columns { place.column + length bytes.now < 2 ^ 32 }
    ensures { result ≡ stepped place bytes.now }
{
    let mut place = place;
    for byte in bytes {
        if *byte == b'\n' {
            place = Place {
                line: place.line + 1,
                column: 1,
            };
        } else {
            place.column += 1;
        }
    }
    place
}

/// What begins at this byte of the text, or why nothing does.
fn front_at(text: &[u8], from: usize, place: Place) -> Result<Front, LexFault>
    requires { from < length text.now }
    ensures front { result ≡ placed place (front_of (drop from text.now)) }
    ensures within { IfOk result (λ front. (0 < front.len) × (from + front.len ≤ length text.now)) }
{
    match read_front(&text[from..]) {
        Ok(front) => Ok(front),
        Err(why) => Err(LexFault::At { place, why }),
    }
}

/// Adds what begins at this byte of the text, if it is a token.
fn keep(tokens: &mut Vec<Token>, front: Front, from: usize, place: Place) -> Result<(), AllocError>
    requires { from + front.len < 2 ^ 32 }
    ensures { OnOk result (tokens.new.items ≡ tokens.old.items ++ front_token front.kind from front.len place) }
{
    if let Some(kind) = front.kind {
        let to = (from + front.len) as u32;
        let from = from as u32;
        tokens.push(Token {
            kind,
            from,
            to,
            place,
        })?;
    }
    Ok(())
}

/// The tokens of a text, in order.
///
/// `TextTooLong` stands at line 1, column 1, before every other fault. The others stand at the first place at which the text,
/// cut into gaps and tokens up to there, begins neither. `NoMemory` is want of memory.
pub fn lex(alloc: Global, text: &[u8]) -> Result<TokenList, LexFault>
    ensures tokens { IfOk result (λ tokens. Tokens text.now tokens) }
    ensures fault { IfErr result (λ e. OfFault e (λ place why. IsRefused text.now place why)) }
{
    if text.len() > TEXT_LIMIT {
        let why = LexWhy::TextTooLong;
        return Err(LexFault::At { place: START, why });
    }
    let mut tokens = Vec::new(alloc);
    let mut place = START;
    let mut from = 0;
    while from < text.len() {
        let front = front_at(text, from, place)?;
        keep(&mut tokens, front, from, place)?;
        let to = from + front.len;
        place = stepped(place, &text[from..to]);
        from = to;
    }
    Ok(TokenList::from_vec(tokens))
}
