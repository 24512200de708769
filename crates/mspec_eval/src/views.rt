//! What an expression sees.

ghost use Rattle.std.specs.Prelude.{◌≡◌};
ghost use Rattle.std.specs.List.{position};
ghost use Rattle.std.specs.Str.{bytes_eq};
ghost use Rattle.mspec_expr.specs.Values.{Sight};
ghost use Rattle.mspec_eval.specs.Numbers.{capped};
ghost use Rattle.mspec_eval.specs.Views.{facts_of, pair_in, shown};

use crate::paddings::{Visible, visible_named};
use crate::sizes::entry_bits;
use mspec_expr::{Env, Meant, Scope, field_meant, is_named};
use mspec_tree::Description;
use node_tree::Node;

/// All that an expression sees but for names: the position, and the first bit of the type that has it, in bits; the length in
/// bytes of the type's value; the last-item mark; the sum and the exclusive or of the whole bytes from the type's first bit on.
#[derive(Clone, Copy, Debug, PartialEq, Eq)]
pub struct Facts {
    pub position: u32,
    pub first: u32,
    pub length: u64,
    pub last: bool,
    pub sum: u64,
    pub xor: u8,
}

/// What an expression sees. It is asked for what is needed alone, so that nothing of it is written twice.
pub trait View {
    ghost sight: { Self → Sight };

    /// What the first name that is spelt so is, with its entry.
    fn seen(&self, name: &[u8]) -> Option<(Meant, &Node)>
        ensures { shown result ≡ pair_in name.now (sight self.now).names };

    fn facts(&self) -> Facts
        ensures { result ≡ facts_of (sight self.now) };
}

/// What an expression sees, and how many bits an entry has to it.
pub(crate) trait SizedView {
    ghost use Rattle.std.specs.Prelude.{ℕ};
    ghost use Rattle.node_tree.specs.declared.nodes.Node.{Node};
    ghost use Rattle.mspec_tree.specs.declared.defs.Description.{Description};
    ghost use Rattle.mspec_expr.specs.declared.kinds.Meant.{Meant};

    ghost sight: { Self → Sight };

    ghost sizes: { Self → Description → Meant → Node → ℕ };

    fn seen(&self, name: &[u8]) -> Option<(Meant, &Node)>
        ensures { shown result ≡ pair_in name.now (sight self.now).names };

    fn facts(&self) -> Facts
        ensures { result ≡ facts_of (sight self.now) };

    /// How many bits an entry has, as far as there is room.
    fn bits(&self, d: &Description, meant: Meant, node: &Node) -> u128
        ensures { result ≡ capped (sizes self.now d.now meant node.now) };
}

/// A view to which entries have all their bits.
#[derive(Clone, Copy)]
pub(crate) struct Whole<'a, V> {
    pub view: &'a V,
}

impl<V: View> SizedView for Whole<'_, V> {
    ghost use Rattle.mspec_expr.specs.Sizes.{entry_bits};

    ghost sight = { λ s. V.sight s.view.now };

    ghost sizes = { λ s d. entry_bits d };

    fn seen(&self, name: &[u8]) -> Option<(Meant, &Node)> {
        self.view.seen(name)
    }

    fn facts(&self) -> Facts {
        self.view.facts()
    }

    fn bits(&self, d: &Description, meant: Meant, node: &Node) -> u128 {
        entry_bits(d, meant, node)
    }
}

/// A scope with its environment.
#[derive(Clone, Copy)]
pub(crate) struct Given<'a> {
    pub scope: &'a Scope,
    pub env: &'a Env,
}

fn name_place(scope: &Scope, name: &[u8]) -> Option<usize>
    ensures { result ≡ position (λ seen. bytes_eq seen.name name.now) scope.now.names }
{
    scope
        .names
        .as_slice()
        .iter()
        .position(|seen| is_named(&seen.name, name))
}

impl View for Given<'_> {
    ghost use Rattle.mspec_expr.specs.Fits.{sight_in};

    ghost sight = { λ s. sight_in s.scope.now s.env.now };

    fn seen(&self, name: &[u8]) -> Option<(Meant, &Node)> {
        let place = name_place(self.scope, name)?;
        let seen = self.scope.names.get(place)?;
        let given = self.env.names.get(place)?;
        Some((seen.meant, &given.node))
    }

    fn facts(&self) -> Facts {
        Facts {
            position: self.env.position,
            first: self.env.first,
            length: self.env.length,
            last: self.env.last_item,
            sum: self.env.sum,
            xor: self.env.xor,
        }
    }
}

/// What a padding sees: the fields before it, and the last-item mark.
#[derive(Clone, Copy)]
pub(crate) struct Before<'a> {
    pub d: &'a Description,
    pub names: &'a Visible<'a>,
    pub last: bool,
}

impl SizedView for Before<'_> {
    ghost use Rattle.mspec_expr.specs.Sizes.{padding_sight};
    ghost use Rattle.mspec_eval.specs.Views.{seen_of};

    ghost sight = { λ s. padding_sight (seen_of s.d.now s.names.now) s.last };

    ghost sizes = { λ s d meant node. 0 };

    fn seen(&self, name: &[u8]) -> Option<(Meant, &Node)> {
        let (field, node) = visible_named(self.names, name)?;
        Some((field_meant(self.d, field), node))
    }

    fn facts(&self) -> Facts {
        Facts {
            position: 0,
            first: 0,
            length: 0,
            last: self.last,
            sum: 0,
            xor: 0,
        }
    }

    fn bits(&self, _d: &Description, _meant: Meant, _node: &Node) -> u128 {
        0
    }
}
