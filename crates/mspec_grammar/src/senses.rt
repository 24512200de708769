ghost use Rattle.std.specs.Prelude.{◌≡◌, ◌≤◌, ◌<◌, length};
ghost use Rattle.mspec_lexer.specs.Lexemes.{lexeme};
ghost use Rattle.mspec_grammar.specs.Meanings.{meaning};
ghost use Rattle.mspec_grammar.specs.Senses.{IsWithin, sensed};

use crate::words::{Word, taken_word};
use mspec_lexer::{Symbol, Token, TokenKind};

/// What a token is to the grammar.
#[derive(Clone, Copy, Debug)]
pub enum Sense<'a> {
    Number(u128),
    Sign(Symbol),
    /// A word that no name may be.
    Taken(Word),
    /// A name, by its bytes in the text.
    Name(&'a [u8]),
}

/// What the token of the text is to the grammar.
pub fn sense_of<'a>(text: &'a [u8], token: &Token) -> Sense<'a>
    requires { IsWithin text.now token.now }
    ensures { sensed result ≡ meaning (lexeme text.now token.now) }
{
    match token.kind {
        TokenKind::Number(number) => Sense::Number(number),
        TokenKind::Symbol(symbol) => Sense::Sign(symbol),
        TokenKind::Name => {
            let bytes = &text[token.from as usize..token.to as usize];
            match taken_word(bytes) {
                Some(word) => Sense::Taken(word),
                None => Sense::Name(bytes),
            }
        }
    }
}
