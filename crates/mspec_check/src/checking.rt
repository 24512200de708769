//! Which descriptions are accepted.

ghost use Rattle.std.specs.Prelude.{◌≡◌, IfErr, IfOk};
ghost use Rattle.mspec_rules.specs.Wrongs.{found};
ghost use Rattle.mspec_check.specs.Accepted.{Accepted, Tells, wrongs};

use crate::fields::scope_wrong;
use mspec_rules::{CheckWhy, Wrong, earlier, type_wrong};
use mspec_tree::{Description, Place};
use std::alloc::Global;
use std::marker::Model;

/// Why a description isn't accepted, with its place, or want of memory.
#[derive(Clone, Copy, Debug, PartialEq, Eq)]
pub enum CheckFault {
    At { place: Place, why: CheckWhy },
    NoMemory,
}

/// A description that breaks none of the rules of checking.
#[derive(Debug, Drop)]
pub struct Checked {
    description: Description,
}

impl Model for Checked {
    ghost use Rattle.std.specs.Coded.{codes};
    ghost use Rattle.mspec_tree.specs.declared.defs.Description.{Description};
    ghost use Rattle.mspec_tree.specs.contracts.defs.Description as description_row;
    ghost use Rattle.mspec_check.specs.Accepted.{Accepted};

    ghost Value = { Description };

    ghost coded = { Prim.hlevel (codes, description_row.the_row.coded) };

    ghost view = { λ checked. checked.description };

    ghost invariant = { λ checked. Accepted checked.description };
}

impl Checked {
    /// The description, which is accepted.
    pub fn description(&self) -> &Description
        ensures same { result.now ≡ self.now }
        ensures accepted { Accepted result.now }
    {
        &self.description
    }
}

/// The answer, by the fault that is told.
fn answer(d: Description, told: Option<Wrong>) -> Result<Checked, CheckFault>
    requires { told ≡ found (wrongs d) }
    ensures accepted { IfOk result (λ checked. (checked ≡ d) × Accepted d) }
    ensures refused { IfErr result (Tells d) }
{
    match told {
        None => Ok(Checked { description: d }),
        Some(wrong) => Err(CheckFault::At {
            place: wrong.place,
            why: wrong.why,
        }),
    }
}

/// A description that breaks none of the rules, or the fault that is told of one that does: of all that is wrong the one at the least
/// place, and at one place by the lowest rule. It takes memory for the names that expressions see.
#[tactic(auto, using(crate::proofs::Told::found_both))]
pub fn check(alloc: Global, d: Description) -> Result<Checked, CheckFault>
    ensures accepted { IfOk result (λ checked. (checked ≡ d) × Accepted d) }
    ensures refused { IfErr result (Tells d) }
{
    let types = type_wrong(&d);
    match scope_wrong(alloc, &d) {
        Ok(scopes) => answer(d, earlier(types, scopes)),
        Err(_) => Err(CheckFault::NoMemory),
    }
}
