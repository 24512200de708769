//! Things of one list, each with a name, of which two mustn't have the same.

ghost use Rattle.std.specs.Prelude.{◌≡◌, List, [], ◌∷◌, map, ℕ};
ghost use Rattle.std.specs.List.{list_any};
ghost use Rattle.std.specs.Str.{bytes_eq};
ghost use Rattle.mspec_tree.specs.declared.words.Place.{Place};
ghost use Rattle.mspec_rules.specs.Wrongs.{earlier, found};
ghost use Rattle.mspec_rules.specs.Names.{doubled, named};

use crate::wrongs::{CheckWhy, Rule, Wrong, told_when};
use mspec_tree::{Case, Constant, Def, Param, Place};

/// Something with a name.
pub(crate) trait Titled {
    ghost title_of: { Self → List ℕ };

    ghost site_of: { Self → Place };

    fn title(&self) -> &[u8]
        ensures { result.now ≡ title_of self.now };

    /// The place at which it is told that another one has its name.
    fn site(&self) -> Place
        ensures { result ≡ site_of self.now };
}

impl Titled for Def {
    ghost title_of = { λ def. def.name };

    ghost site_of = { λ def. def.named };

    fn title(&self) -> &[u8] {
        self.name.as_slice()
    }

    fn site(&self) -> Place {
        self.named
    }
}

impl Titled for Param {
    ghost title_of = { λ param. param.name };

    ghost site_of = { λ param. param.place };

    fn title(&self) -> &[u8] {
        self.name.as_slice()
    }

    fn site(&self) -> Place {
        self.place
    }
}

impl Titled for Constant {
    ghost title_of = { λ constant. constant.name };

    ghost site_of = { λ constant. constant.place };

    fn title(&self) -> &[u8] {
        self.name.as_slice()
    }

    fn site(&self) -> Place {
        self.place
    }
}

impl Titled for Case {
    ghost use Rattle.mspec_tree.specs.declared.fields.Case.{out-Case};

    ghost title_of = { λ case. (out-Case case).name };

    ghost site_of = { λ case. (out-Case case).named };

    fn title(&self) -> &[u8] {
        self.name.as_slice()
    }

    fn site(&self) -> Place {
        self.named
    }
}

fn is_among<T: Titled>(items: &[T], title: &[u8]) -> bool
    ensures { result ≡ list_any (λ item. bytes_eq (T.title_of item) title.now) items.now }
{
    items.iter().any(|item| item.title() == title)
}

/// One with these before it.
fn title_doubled<T: Titled>(first: Option<Wrong>, front: &[T], item: &T) -> Option<Wrong>
    ensures { result ≡ earlier first (found (doubled (map (λ one. named (T.title_of one) (T.site_of one) 0) front.now) (named (T.title_of item.now) (T.site_of item.now) 0 ∷ []))) }
{
    let title = item.title();
    told_when(
        first,
        item.site(),
        Rule::Names,
        CheckWhy::DoubledName,
        || -> bool
            ensures { result ≡ list_any (λ one. bytes_eq (T.title_of one) title.entry.now) front.entry.now }
        { is_among(front, title) },
    )
}

/// Each that has the name of one before it.
pub(crate) fn titles_doubled<T: Titled>(first: Option<Wrong>, items: &[T]) -> Option<Wrong>
    ensures { result ≡ earlier first (found (doubled [] (map (λ one. named (T.title_of one) (T.site_of one) 0) items.now))) }
{
    let mut next = first;
    for (i, item) in items.iter().enumerate() {
        next = title_doubled(next, &items[..i], item);
    }
    next
}
