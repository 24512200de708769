//! The tokens of a description in mspec.
//!
//! A text is tokens with gaps between them, which are blanks and comments. The tokens are names, numbers and symbols, and each
//! is the longest that can stand at its place.
#![tactic(auto)]

mod fronts;
mod laws;
mod lexing;
#[cfg(test)]
mod tests;
mod tokens;

pub use laws::{one_fault, one_tokens, tokens_or_fault};
pub use lexing::lex;
pub use tokens::{LexFault, LexWhy, Symbol, Token, TokenKind, TokenList};
