ghost use Rattle.std.specs.Prelude.{ℕ, List, ◌≡◌, ◌≤◌, ◌⊎◌, Ok, Err};
ghost use Rattle.mspec_tree.specs.declared.defs.Description.{Description};
ghost use Rattle.mspec_tree.specs.Depth.{depth_limit};
ghost use Rattle.mspec_lexer.specs.Lexemes.{Lexeme};
ghost use Rattle.mspec_grammar.specs.declared.faults.ParseWhy.{ParseWhy};
ghost use Rattle.mspec_grammar.specs.Trees.{Tree};
ghost use Rattle.mspec_grammar.specs.Faults.{IsRefused};
ghost use Rattle.mspec_quotes.specs.Machine.{Stopped};
ghost use Rattle.mspec_parser.specs.Defs.{description_at};

/// Lexemes have one tree at most.
pub fn one_tree()
    ensures { (limit : ℕ) (xs : List Lexeme) (one other : Description) → Tree limit xs one → Tree limit xs other → one ≡ other }
{}

/// Reading the lexemes from left to right gives a tree exactly where they have it.
pub fn read_trees()
    ensures read { (limit : ℕ) (xs : List Lexeme) (d : Description) → Tree limit xs d → description_at limit xs ≡ Ok d }
    ensures trees { (limit : ℕ) (xs : List Lexeme) (d : Description) → 1 ≤ limit → description_at limit xs ≡ Ok d → Tree limit xs d }
{}

/// Reading stops exactly where the lexemes leave the grammar: what was read before begins some description, and no description goes
/// on with the lexeme at the stop; and it says why.
pub fn stops_where_no_text_goes_on()
    ensures refused { (xs : List Lexeme) (stop : Stopped) → description_at depth_limit xs ≡ Err stop → IsRefused xs stop.at stop.why }
    ensures stops { (xs at : List Lexeme) (why : ParseWhy) → IsRefused xs at why → description_at depth_limit xs ≡ Err (record { why = why; at = at }) }
{}

/// Lexemes have a tree, or leave the grammar at one place, for one reason.
pub fn one_fault()
    ensures some { (xs : List Lexeme) → ((d : Description) × Tree depth_limit xs d) ⊎ ((at : List Lexeme) × (why : ParseWhy) × IsRefused xs at why) }
    ensures no_tree { (xs at : List Lexeme) (why : ParseWhy) (d : Description) → IsRefused xs at why → Tree depth_limit xs d → ⊥ }
    ensures place_and_why { (xs at other : List Lexeme) (why reason : ParseWhy) → IsRefused xs at why → IsRefused xs other reason → (at ≡ other) × (why ≡ reason) }
{}
