ghost use Rattle.std.specs.Prelude.{◌≡◌, ◌++◌, [], List, Some, None};
ghost use Rattle.mspec_rules.specs.declared.wrongs.Wrong.{Wrong};
ghost use Rattle.mspec_rules.specs.Wrongs.{IsFirst, earlier, found};

/// Of all that is wrong the one is told before which no other stands, and there is only one such, whatever the order in which they are
/// listed. The first of two lists is the earlier one of both first ones.
pub fn the_first_is_told()
    ensures first { (told : Wrong) (wrongs : List Wrong) → found wrongs ≡ Some told → IsFirst told wrongs }
    ensures only { (told : Wrong) (wrongs : List Wrong) → IsFirst told wrongs → found wrongs ≡ Some told }
    ensures none { (wrongs : List Wrong) → found wrongs ≡ None → wrongs ≡ [] }
    ensures joined { (one other : List Wrong) → found (one ++ other) ≡ earlier (found one) (found other) }
{}
