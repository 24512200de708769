//! Operators between two operands.

ghost use Rattle.std.specs.Prelude.{◌≡◌};
ghost use Rattle.mspec_grammar.specs.Expressions.{strength};
ghost use Rattle.mspec_quotes.specs.Machine.{operator_of};

use mspec_lexer::Symbol;
use mspec_tree::Op;

/// How tightly the operator binds, from 1 to 9.
pub fn strength_of(operator: Op) -> u8
    ensures { result ≡ strength operator }
{
    match operator {
        Op::Or => 1,
        Op::And => 2,
        Op::BitOr => 3,
        Op::BitAnd => 4,
        Op::Eq | Op::Ne => 5,
        Op::Lt | Op::Le | Op::Gt | Op::Ge => 6,
        Op::Shl | Op::Shr => 7,
        Op::Add | Op::Sub => 8,
        Op::Mul | Op::Div | Op::Rem => 9,
    }
}

/// The operator that the symbol is between two operands.
pub fn operator_of(symbol: Symbol) -> Option<Op>
    ensures { result ≡ operator_of symbol }
{
    match symbol {
        Symbol::DoubleBar => Some(Op::Or),
        Symbol::DoubleAmpersand => Some(Op::And),
        Symbol::Bar => Some(Op::BitOr),
        Symbol::Ampersand => Some(Op::BitAnd),
        Symbol::DoubleEqual => Some(Op::Eq),
        Symbol::NotEqual => Some(Op::Ne),
        Symbol::Less => Some(Op::Lt),
        Symbol::LessEqual => Some(Op::Le),
        Symbol::Greater => Some(Op::Gt),
        Symbol::GreaterEqual => Some(Op::Ge),
        Symbol::DoubleLess => Some(Op::Shl),
        Symbol::DoubleGreater => Some(Op::Shr),
        Symbol::Plus => Some(Op::Add),
        Symbol::Minus => Some(Op::Sub),
        Symbol::Star => Some(Op::Mul),
        Symbol::Slash => Some(Op::Div),
        Symbol::Percent => Some(Op::Rem),
        _ => None,
    }
}
