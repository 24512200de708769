//! All items of a list, by one rule.

ghost use Rattle.std.specs.Prelude.{◌≡◌, List, Option};
ghost use Rattle.std.specs.List.{flat_map};
ghost use Rattle.mspec_rules.specs.declared.wrongs.Wrong.{Wrong};
ghost use Rattle.mspec_rules.specs.Wrongs.{earlier, found};

use crate::wrongs::Wrong;

/// The first so far, or the first that a rule finds at these items.
pub fn told_of_all<T, F: Fn(Option<Wrong>, &T) -> Option<Wrong>>(
    first: Option<Wrong>,
    items: &[T],
    told: F,
) -> Option<Wrong>
    requires { F.IsAlwaysCallable told }
    ensures { (wrongs : T → List Wrong) → ((so_far : Option Wrong) (item : _) (next : Option Wrong) → F.post told so_far item next → next ≡ earlier so_far (found (wrongs item.now))) → result ≡ earlier first (found (flat_map wrongs items.now)) }
{
    let mut next = first;
    for item in items {
        next = told(next, item);
    }
    next
}
