//! Expressions with their depths.

ghost use Rattle.std.specs.Prelude.{◌≡◌, ◌<◌, suc, max, IfOk};
ghost use Rattle.mspec_tree.specs.Depth.{depth};
ghost use Rattle.mspec_quotes.specs.Machine.{made, closed_by};
ghost use Rattle.mspec_quotes.specs.Rooms.{left_depth};

use crate::pending::Open;
use mspec_tree::{Expr, ExprBox, Name, Place, Shape};
use sqlite_items::Boxed;
use std::alloc::{AllocError, Global};
use std::marker::Model;

/// An expression that was read, which contracts see as the expression, with its depth beside it.
#[derive(Drop)]
pub struct Operand {
    expr: ExprBox,
    levels: u8,
}

impl Model for Operand {
    ghost use Rattle.std.specs.Prelude.{◌≡◌};
    ghost use Rattle.std.specs.Coded.{codes};
    ghost use Rattle.mspec_tree.specs.declared.exprs.Expr.{Expr};
    ghost use Rattle.mspec_tree.specs.contracts.exprs.Expr as expr_row;
    ghost use Rattle.mspec_tree.specs.Depth.{depth};

    ghost Value = { Expr };

    ghost coded = { Prim.hlevel (codes, expr_row.the_row.coded) };

    ghost view = { λ o. o.expr };

    ghost invariant = { λ o. o.levels ≡ depth o.expr };
}

impl Operand {
    pub fn depth(&self) -> u8
        ensures { result ≡ depth self.now }
    {
        self.levels
    }

    pub fn into_expr(self) -> ExprBox
        ensures { result ≡ self }
    {
        let Operand { expr, levels: _ } = self;
        expr
    }

    /// One that has no operands itself.
    pub fn leaf(alloc: Global, place: Place, shape: Shape) -> Result<Operand, AllocError>
        requires { depth (made place shape) ≡ 1 }
        ensures { IfOk result (λ o. o ≡ made place shape) }
    {
        let expr = Boxed::new(alloc, Expr { place, shape })?;
        Ok(Operand { expr, levels: 1 })
    }

    /// A field of it.
    #[tactic(auto, using(crate::proofs::Depths::depth_rules))]
    pub fn dot(self, alloc: Global, place: Place, name: Name) -> Result<Operand, AllocError>
        requires { depth self < 255 }
        ensures { IfOk result (λ o. o ≡ made place (Shape.Dot self name)) }
    {
        let Operand { expr, levels } = self;
        let shape = Shape::Dot(expr, name);
        Ok(Operand {
            expr: Boxed::new(alloc, Expr { place, shape })?,
            levels: levels + 1,
        })
    }

    /// How many bytes it has.
    #[tactic(auto, using(crate::proofs::Depths::depth_rules))]
    pub fn length_of(self, alloc: Global, place: Place) -> Result<Operand, AllocError>
        requires { depth self < 255 }
        ensures { IfOk result (λ o. o ≡ made place (Shape.LengthOf self)) }
    {
        let Operand { expr, levels } = self;
        let shape = Shape::LengthOf(expr);
        Ok(Operand {
            expr: Boxed::new(alloc, Expr { place, shape })?,
            levels: levels + 1,
        })
    }

    /// It as one of this case.
    #[tactic(auto, using(crate::proofs::Depths::depth_rules))]
    pub fn cast(self, alloc: Global, place: Place, name: Name) -> Result<Operand, AllocError>
        requires { depth self < 255 }
        ensures { IfOk result (λ o. o ≡ made place (Shape.Cast self name)) }
    {
        let Operand { expr, levels } = self;
        let shape = Shape::Cast(expr, name);
        Ok(Operand {
            expr: Boxed::new(alloc, Expr { place, shape })?,
            levels: levels + 1,
        })
    }

    /// What is open becomes whole with this as its last operand. `left` is the depth of what was read of it.
    #[tactic(auto, using(crate::proofs::Depths::depth_rules))]
    pub fn closed_by(self, alloc: Global, last: Open, left: u8) -> Result<Operand, AllocError>
        requires left { left ≡ left_depth last }
        requires low { max left (depth self) < 255 }
        ensures { IfOk result (λ o. o ≡ closed_by last self) }
    {
        let Operand { expr, levels } = self;
        let (place, shape) = match last {
            Open::Parenthesis | Open::Cast(_) | Open::Condition(..) => {
                return Ok(Operand { expr, levels });
            }
            Open::Count(place) => (place, Shape::Count(expr)),
            Open::Not(place) => (place, Shape::Not(expr)),
            Open::Neg(place) => (place, Shape::Neg(expr)),
            Open::Left(place, operator, first) => (place, Shape::Two(operator, first, expr)),
            Open::Otherwise(place, condition, first) => (place, Shape::If(condition, first, expr)),
        };
        Ok(Operand {
            expr: Boxed::new(alloc, Expr { place, shape })?,
            levels: left.max(levels) + 1,
        })
    }
}
