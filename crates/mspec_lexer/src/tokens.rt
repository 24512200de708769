ghost use Rattle.std.specs.Prelude.{◌≡◌};
ghost use Rattle.mspec_lexer.specs.declared.tokens.LexFault.TheVariants.{NoMemory};

use mspec_tree::Place;
use node_tree::OwnedList;
use std::alloc::{AllocError, AllocFailed};

/// A symbol, named by what it looks like.
#[derive(Clone, Copy, Debug, PartialEq, Eq)]
pub enum Symbol {
    /// `==`
    DoubleEqual,
    /// `!=`
    NotEqual,
    /// `<=`
    LessEqual,
    /// `>=`
    GreaterEqual,
    /// `<<`
    DoubleLess,
    /// `>>`
    DoubleGreater,
    /// `&&`
    DoubleAmpersand,
    /// `||`
    DoubleBar,
    /// `[`
    LeftBracket,
    /// `]`
    RightBracket,
    /// `(`
    LeftParenthesis,
    /// `)`
    RightParenthesis,
    /// `'`
    Quote,
    /// `"`
    DoubleQuote,
    /// `,`
    Comma,
    /// `.`
    Dot,
    /// `*`
    Star,
    /// `=`
    Equal,
    /// `<`
    Less,
    /// `>`
    Greater,
    /// `+`
    Plus,
    /// `-`
    Minus,
    /// `/`
    Slash,
    /// `%`
    Percent,
    /// `&`
    Ampersand,
    /// `|`
    Bar,
    /// `!`
    Exclamation,
    /// `?`
    Question,
    /// `:`
    Colon,
}

/// What a token is.
#[derive(Clone, Copy, Debug, PartialEq, Eq)]
pub enum TokenKind {
    /// A letter or `_`, then letters, digits and `_`. The words of the language are names too.
    Name,
    /// Decimal digits, or `0x` and hexadecimal digits, with the number that they spell.
    Number(u128),
    Symbol(Symbol),
}

/// A token of a text: the bytes `from..to` of it, counted from 0, and the place of its first byte.
#[derive(Clone, Copy, Debug, PartialEq, Eq)]
pub struct Token {
    pub kind: TokenKind,
    pub from: u32,
    pub to: u32,
    pub place: Place,
}

pub type TokenList = OwnedList<Token>;

/// Why a text has no tokens.
#[derive(Clone, Copy, Debug, PartialEq, Eq)]
pub enum LexWhy {
    /// It has more than 1,048,576 bytes.
    TextTooLong,
    /// A byte begins no token, no blank and no comment.
    Character,
    /// A number is 2^128 or more.
    WideNumber,
    /// A comment that begins with `/*` has no end.
    OpenComment,
}

/// A fault at a place of the text, or want of memory.
#[derive(Clone, Copy, Debug, PartialEq, Eq)]
pub enum LexFault {
    At { place: Place, why: LexWhy },
    NoMemory,
}

impl From<AllocError> for LexFault {
    ghost from_gives = { λ _ e. e ≡ NoMemory };

    fn from(_error: AllocError) -> LexFault {
        LexFault::NoMemory
    }
}

impl<T: Drop> From<AllocFailed<T>> for LexFault {
    ghost from_gives = { λ _ e. e ≡ NoMemory };

    fn from(_error: AllocFailed<T>) -> LexFault {
        LexFault::NoMemory
    }
}
