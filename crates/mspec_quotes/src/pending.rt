//! What is open to the left of an operand.

ghost use Rattle.std.specs.Prelude.{◌≡◌, [], ◌∷◌, OnOk, MatchOption, true};
ghost use Rattle.mspec_quotes.specs.Machine.{closes};
ghost use Rattle.mspec_quotes.specs.Rooms.{left_depth, room, IsKept};

use crate::operators::strength_of;
use mspec_tree::{ExprBox, Op, Place};
use std::alloc::{AllocError, Global};
use std::marker::Model;

/// How deep an expression may be.
pub const LIMIT: u8 = 32;

/// The strength of what closes all that can be closed: a colon, a comma, a parenthesis, a quote.
pub const ALL: u8 = 0;

/// The strength of a question mark, which closes all operators and no condition.
pub const CONDITION: u8 = 1;

/// What is open to the left of an operand, with the place of its operator or word.
#[derive(Drop)]
pub enum Open {
    Parenthesis,
    Count(Place),
    Cast(Place),
    Not(Place),
    Neg(Place),
    /// An operator and what stands left of it.
    Left(Place, Op, ExprBox),
    /// A condition, whose first branch is to come.
    Condition(Place, ExprBox),
    /// A condition and its first branch.
    Otherwise(Place, ExprBox, ExprBox),
}

/// Whether something that binds with this strength closes it.
fn closes(strength: u8, open: &Open) -> bool
    ensures { result ≡ closes strength open.now }
{
    match open {
        Open::Not(_) | Open::Neg(_) => true,
        Open::Left(_, operator, _) => strength <= strength_of(*operator),
        Open::Otherwise(..) => strength <= ALL,
        Open::Parenthesis | Open::Count(_) | Open::Cast(_) | Open::Condition(..) => false,
    }
}

/// What is open, the depth of what was read of it, and how deep its next operand may be.
#[derive(Drop)]
pub struct Pending {
    pub kind: Open,
    pub left: u8,
    pub room: u8,
}

/// All that is open, which contracts see as a list, the innermost first.
#[derive(Drop)]
pub struct Opens {
    items: Vec<Pending>,
}

impl Model for Opens {
    ghost use Rattle.std.specs.Prelude.{List, reverse};
    ghost use Rattle.std.specs.Coded.{codes};
    ghost use Rattle.mspec_quotes.specs.declared.pending.Open.{Open};
    ghost use Rattle.mspec_quotes.specs.contracts.pending.Open as open_row;
    ghost use Rattle.mspec_quotes.specs.Rooms.{opens_of, AreRooms};

    ghost Value = { List Open };

    ghost coded = { Prim.hlevel (codes, open_row.the_row.coded) };

    ghost view = { λ s. opens_of (reverse s.items.items) };

    ghost invariant = { λ s. AreRooms (reverse s.items.items) };
}

impl Opens {
    pub fn new(alloc: Global) -> Opens
        ensures { result ≡ [] }
    {
        Opens {
            items: Vec::new(alloc),
        }
    }

    /// How deep the next operand may be.
    pub fn room(&self) -> u8
        ensures { result ≡ room self.now }
    {
        match self.items.last() {
            Some(pending) => pending.room,
            None => LIMIT,
        }
    }

    pub fn push(&mut self, next: Open, left: u8, space: u8) -> Result<(), AllocError>
        requires left { left ≡ left_depth next }
        requires room { space ≡ room (next ∷ self.old) }
        ensures { OnOk result (self.new ≡ next ∷ self.old) }
    {
        self.items.push(Pending {
            kind: next,
            left,
            room: space,
        })?;
        Ok(())
    }

    /// The innermost, with the depth of what was read of it.
    pub fn pop(&mut self) -> Option<(Open, u8)>
        ensures { MatchOption result ((self.old ≡ []) × (self.new ≡ []))
            (λ p. (self.old ≡ p.0 ∷ self.new) × (p.1 ≡ left_depth p.0)) }
    {
        let Pending {
            kind,
            left,
            room: _,
        } = self.items.pop()?;
        Some((kind, left))
    }

    /// The same, if something that binds with this strength closes it.
    pub fn pop_closed(&mut self, strength: u8) -> Option<(Open, u8)>
        ensures { MatchOption result ((self.new ≡ self.old) × IsKept strength self.old)
            (λ p. (self.old ≡ p.0 ∷ self.new) × (p.1 ≡ left_depth p.0) × (closes strength p.0 ≡ true)) }
    {
        let innermost = self.items.last()?;
        if closes(strength, &innermost.kind) {
            self.pop()
        } else {
            None
        }
    }
}
