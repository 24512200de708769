//! How many switches a definition has, and how many keys their cases have.

ghost use Rattle.std.specs.Prelude.{◌≡◌, ◌<◌, count_by, length};
ghost use Rattle.mspec_tree.specs.declared.fields.Case.{out-Case};
ghost use Rattle.mspec_tree.specs.declared.fields.Field.{out-Field};
ghost use Rattle.mspec_expr.specs.Kinds.{layer};
ghost use Rattle.mspec_rules.specs.Wrongs.{earlier, found};
ghost use Rattle.mspec_rules.specs.Switches.{is_switch, key_count, switch_count};

use crate::wrongs::{CheckWhy, Rule, Wrong, told_if};
use mspec_tree::{Body, Case, Field, Name, Place};

fn is_switch(field: &Field) -> bool
    ensures { result ≡ is_switch field.now }
{
    matches!(&field.body, Body::Switch(..))
}

/// A `discriminatedType` without exactly one switch. `named` is the place of its name.
pub(crate) fn switch_count(first: Option<Wrong>, named: Place, fields: &[Field]) -> Option<Wrong>
    ensures { result ≡ earlier first (found (switch_count named fields.now)) }
{
    let switches = fields.iter().filter(|field| is_switch(field)).count();
    told_if(
        first,
        switches != 1,
        named,
        Rule::Switches,
        CheckWhy::SwitchCount,
    )
}

/// A case with more keys than its switch has names.
pub(crate) fn key_count(first: Option<Wrong>, names: &[Name], case: &Case) -> Option<Wrong>
    ensures { result ≡ earlier first (found (key_count names.now case.now)) }
{
    told_if(
        first,
        names.len() < case.keys.len(),
        case.place,
        Rule::Switches,
        CheckWhy::SwitchCount,
    )
}
