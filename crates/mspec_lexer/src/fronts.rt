//! What stands at the front of the rest of a text.

ghost use Rattle.std.specs.Prelude.{◌≡◌, ◌≤◌, ◌<◌, ◌^◌, false, length, IfSome};
ghost use Rattle.std.specs.Option.{SomeIff};
ghost use Rattle.std.specs.Str.Parse.{AllDigits, digits_value};
ghost use Rattle.mspec_lexer.specs.Spellings.{begins_name, continues_name};
ghost use Rattle.mspec_lexer.specs.Tokens.{is_blank};
ghost use Rattle.mspec_lexer.specs.LexerParts.{closed_len, digits_len, digits_of, double_symbol, front_of, gap, hexadecimal_of, line_len, name_len, number, number_front, single_symbol, slash_front, symbol_front, token};

use crate::tokens::{LexWhy, Symbol, TokenKind};

/// A gap, or a token of this kind, of so many bytes.
#[derive(Clone, Copy, Debug)]
pub struct Front {
    pub kind: Option<TokenKind>,
    pub len: usize,
}

fn is_blank(byte: u8) -> bool
    ensures { result ≡ is_blank byte }
{
    byte == b' ' || byte == b'\t' || byte == b'\r' || byte == b'\n'
}

fn begins_name(byte: u8) -> bool
    ensures { result ≡ begins_name byte }
{
    byte.is_ascii_alphabetic() || byte == b'_'
}

fn continues_name(byte: u8) -> bool
    ensures { result ≡ continues_name byte }
{
    begins_name(byte) || byte.is_ascii_digit()
}

#[tactic(auto, unfolding(crate::specs::LexerParts::single_symbol))]
fn single_symbol(byte: u8) -> Option<Symbol>
    ensures { result ≡ single_symbol byte }
{
    match byte {
        b'[' => Some(Symbol::LeftBracket),
        b']' => Some(Symbol::RightBracket),
        b'(' => Some(Symbol::LeftParenthesis),
        b')' => Some(Symbol::RightParenthesis),
        b'\'' => Some(Symbol::Quote),
        b'"' => Some(Symbol::DoubleQuote),
        b',' => Some(Symbol::Comma),
        b'.' => Some(Symbol::Dot),
        b'*' => Some(Symbol::Star),
        b'=' => Some(Symbol::Equal),
        b'<' => Some(Symbol::Less),
        b'>' => Some(Symbol::Greater),
        b'+' => Some(Symbol::Plus),
        b'-' => Some(Symbol::Minus),
        b'/' => Some(Symbol::Slash),
        b'%' => Some(Symbol::Percent),
        b'&' => Some(Symbol::Ampersand),
        b'|' => Some(Symbol::Bar),
        b'!' => Some(Symbol::Exclamation),
        b'?' => Some(Symbol::Question),
        b':' => Some(Symbol::Colon),
        _ => None,
    }
}

#[tactic(auto, unfolding(crate::specs::LexerParts::double_symbol))]
fn double_symbol(first: u8, second: u8) -> Option<Symbol>
    ensures { result ≡ double_symbol first second }
{
    match (first, second) {
        (b'=', b'=') => Some(Symbol::DoubleEqual),
        (b'!', b'=') => Some(Symbol::NotEqual),
        (b'<', b'=') => Some(Symbol::LessEqual),
        (b'>', b'=') => Some(Symbol::GreaterEqual),
        (b'<', b'<') => Some(Symbol::DoubleLess),
        (b'>', b'>') => Some(Symbol::DoubleGreater),
        (b'&', b'&') => Some(Symbol::DoubleAmpersand),
        (b'|', b'|') => Some(Symbol::DoubleBar),
        _ => None,
    }
}

#[tactic(auto, unfolding(crate::specs::LexerParts::symbol_front))]
fn symbol_front(first: u8, behind: &[u8]) -> Result<Front, LexWhy>
    ensures { result ≡ symbol_front first behind.now }
{
    let double = match behind.first() {
        Some(second) => double_symbol(first, *second),
        None => None,
    };
    if let Some(symbol) = double {
        return Ok(token(TokenKind::Symbol(symbol), 2));
    }
    match single_symbol(first) {
        Some(symbol) => Ok(token(TokenKind::Symbol(symbol), 1)),
        None => Err(LexWhy::Character),
    }
}

fn gap(len: usize) -> Front
    ensures { result ≡ gap len }
{
    Front { kind: None, len }
}

fn token(kind: TokenKind, len: usize) -> Front
    ensures { result ≡ token kind len }
{
    Front {
        kind: Some(kind),
        len,
    }
}

fn digits_len(radix: u32, bytes: &[u8]) -> usize
    requires low { 2 ≤ radix }
    requires high { radix ≤ 36 }
    ensures value { result ≡ digits_len radix bytes.now }
    ensures within { result ≤ length bytes.now }
{
    bytes
        .iter()
        .take_while(|byte| char::from(**byte).is_digit(radix))
        .count()
}

/// The digits at the front.
#[tactic(auto, using(crate::proofs::NumberLaws::all_digits))]
fn digits(radix: u32, bytes: &[u8]) -> &[u8]
    requires low { 2 ≤ radix }
    requires high { radix ≤ 36 }
    ensures front { result.now ≡ digits_of radix bytes.now }
    ensures digits { AllDigits radix result.now }
{
    &bytes[..digits_len(radix, bytes)]
}

/// The digits of a number that begins with `0x`, or none.
#[tactic(auto, unfolding(crate::specs::LexerParts::hexadecimal_of))]
fn hexadecimal_digits(rest: &[u8]) -> &[u8]
    ensures front { result.now ≡ hexadecimal_of rest.now }
    ensures digits { AllDigits 16 result.now }
{
    match rest {
        [b'0', b'x', behind @ ..] => digits(16, behind),
        _ => &[],
    }
}

/// The number that the digits spell, if it is below 2^128.
fn digits_value(radix: u32, digits: &[u8]) -> Option<u128>
    requires low { 2 ≤ radix }
    requires high { radix ≤ 36 }
    requires digits { AllDigits radix digits.now }
    ensures { SomeIff result (digits_value radix digits.now < 2 ^ 128) (digits_value radix digits.now) }
{
    let mut number = 0u128;
    for digit in digits {
        let digit = char::from(*digit).to_digit(radix)?;
        number = number
            .checked_mul(u128::from(radix))?
            .checked_add(u128::from(digit))?;
    }
    Some(number)
}

/// A number of these digits, behind so many bytes of its own.
fn number(radix: u32, digits: &[u8], before: usize) -> Result<Front, LexWhy>
    requires low { 2 ≤ radix }
    requires high { radix ≤ 36 }
    requires digits { AllDigits radix digits.now }
    requires before { before ≤ 2 }
    ensures { result ≡ number radix digits.now before }
{
    match digits_value(radix, digits) {
        Some(value) => Ok(token(TokenKind::Number(value), before + digits.len())),
        None => Err(LexWhy::WideNumber),
    }
}

#[tactic(auto, unfolding(crate::specs::LexerParts::number_front))]
fn number_front(rest: &[u8]) -> Result<Front, LexWhy>
    ensures { result ≡ number_front rest.now }
{
    let hexadecimal = hexadecimal_digits(rest);
    if hexadecimal.is_empty() {
        number(10, digits(10, rest), 0)
    } else {
        number(16, hexadecimal, 2)
    }
}

/// How many bytes of a comment there are up to and with the first `*/`.
fn closed_len(inner: &[u8]) -> Option<usize>
    ensures value { result ≡ closed_len false inner.now }
    ensures within { IfSome result (λ len. len ≤ length inner.now) }
{
    let mut star = false;
    for (i, byte) in inner.iter().enumerate() {
        if star && *byte == b'/' {
            return Some(i + 1);
        }
        star = *byte == b'*';
    }
    None
}

/// How many bytes there are up to the line's end.
fn line_len(inner: &[u8]) -> usize
    ensures value { result ≡ line_len inner.now }
    ensures within { result ≤ length inner.now }
{
    inner.iter().take_while(|byte| **byte != b'\n').count()
}

#[tactic(auto, unfolding(crate::specs::LexerParts::slash_front))]
fn slash_front(behind: &[u8]) -> Result<Front, LexWhy>
    ensures { result ≡ slash_front behind.now }
{
    match behind {
        [b'/', inner @ ..] => Ok(gap(2 + line_len(inner))),
        [b'*', inner @ ..] => match closed_len(inner) {
            Some(len) => Ok(gap(2 + len)),
            None => Err(LexWhy::OpenComment),
        },
        _ => Ok(token(TokenKind::Symbol(Symbol::Slash), 1)),
    }
}

/// How many bytes there are that continue a name.
fn name_len(behind: &[u8]) -> usize
    ensures value { result ≡ name_len behind.now }
    ensures within { result ≤ length behind.now }
{
    behind
        .iter()
        .take_while(|byte| continues_name(**byte))
        .count()
}

/// What begins the rest of a text, or why nothing does.
#[tactic(auto, unfolding(crate::specs::LexerParts::front_of))]
pub fn read_front(rest: &[u8]) -> Result<Front, LexWhy>
    ensures { result ≡ front_of rest.now }
{
    let Some((first, behind)) = rest.split_first() else {
        return Err(LexWhy::Character);
    };
    if is_blank(*first) {
        return Ok(gap(1));
    }
    if begins_name(*first) {
        return Ok(token(TokenKind::Name, 1 + name_len(behind)));
    }
    if first.is_ascii_digit() {
        return number_front(rest);
    }
    if *first == b'/' {
        return slash_front(behind);
    }
    symbol_front(*first, behind)
}
