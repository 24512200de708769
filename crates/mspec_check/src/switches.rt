//! What is wrong with the names of a switch and the keys of its cases.

ghost use Rattle.std.specs.Prelude.{◌≡◌};
ghost use Rattle.std.specs.List.{list_all};
ghost use Rattle.mspec_rules.specs.Wrongs.{found};
ghost use Rattle.mspec_check.specs.Switches.{is_constant, is_seen, keys_fit, keys_wrongs, meant_takes, name_takes, names_wrongs, seen_named};

use mspec_expr::{ExprWhy, Meant, MeantName, constant_named, constants_of, meant_named};
use mspec_rules::{CheckWhy, Rule, Wrong, told_if};
use mspec_tree::{Case, Description, Key, Lit, Name, Place};

fn is_seen(seen: &[MeantName], name: &Name) -> bool
    ensures { result ≡ is_seen seen.now name.now }
{
    meant_named(seen, name.as_slice()).is_some()
}

fn are_seen(seen: &[MeantName], names: &[Name]) -> bool
    ensures { result ≡ list_all (is_seen seen.now) names.now }
{
    names.iter().all(|name| is_seen(seen, name))
}

/// A switch's names are seen.
pub(crate) fn names_wrong(seen: &[MeantName], place: Place, names: &[Name]) -> Option<Wrong>
    ensures { result ≡ found (names_wrongs seen.now place names.now) }
{
    let all = are_seen(seen, names);
    let why = CheckWhy::Expr(ExprWhy::UnknownName);
    told_if(None, !all, place, Rule::Scopes, why)
}

fn is_constant(d: &Description, def: usize, name: &[u8]) -> bool
    ensures { result ≡ is_constant d.now def name.now }
{
    constant_named(constants_of(d, def), name).is_some()
}

fn meant_takes(d: &Description, meant: Meant, key: &Key) -> bool
    ensures { result ≡ meant_takes d.now meant key.now }
{
    match (meant, key) {
        (_, Key::Any) => true,
        (Meant::Number(_), Key::Lit(Lit::Num { .. })) => true,
        (Meant::Flag, Key::Lit(Lit::Flag(_))) => true,
        (Meant::EnumOf(def), Key::Constant(name)) => is_constant(d, def, name.as_slice()),
        _ => false,
    }
}

fn name_takes(d: &Description, seen: &[MeantName], name: &Name, key: &Key) -> bool
    ensures { result ≡ name_takes d.now (seen_named seen.now name.now) key.now }
{
    match meant_named(seen, name.as_slice()) {
        Some(found) => meant_takes(d, found.meant, key),
        None => true,
    }
}

fn keys_fit(d: &Description, seen: &[MeantName], names: &[Name], keys: &[Key]) -> bool
    ensures { result ≡ keys_fit d.now seen.now names.now keys.now }
{
    names
        .iter()
        .zip(keys.iter())
        .all(|(name, key)| name_takes(d, seen, name, key))
}

/// A case's keys are of their names' kinds.
pub(crate) fn keys_wrong(
    d: &Description,
    seen: &[MeantName],
    names: &[Name],
    case: &Case,
) -> Option<Wrong>
    ensures { result ≡ found (keys_wrongs d.now seen.now names.now case.now) }
{
    let fit = keys_fit(d, seen, names, case.keys.as_slice());
    told_if(None, !fit, case.place, Rule::Keys, CheckWhy::CaseKey)
}
