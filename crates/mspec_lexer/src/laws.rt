ghost use Rattle.std.specs.Prelude.{ℕ, ◌≡◌, ◌⊎◌, List};
ghost use Rattle.mspec_tree.specs.declared.words.Place.{Place};
ghost use Rattle.mspec_lexer.specs.declared.tokens.LexWhy.{LexWhy};
ghost use Rattle.mspec_lexer.specs.declared.tokens.Token.{Token};
ghost use Rattle.mspec_lexer.specs.Tokens.{Tokens};
ghost use Rattle.mspec_lexer.specs.LexFaults.{IsRefused};

/// A text has one list of tokens at most.
pub fn one_tokens()
    ensures { (text : List ℕ) (one other : List Token) → Tokens text one → Tokens text other → one ≡ other }
{}

/// A text is refused at one place at most, and why.
pub fn one_fault()
    ensures { (text : List ℕ) (one other : Place) (why reason : LexWhy)
        → IsRefused text one why → IsRefused text other reason → (one ≡ other) × (why ≡ reason) }
{}

/// A text has tokens or is refused, and never both.
pub fn tokens_or_fault()
    ensures some { (text : List ℕ)
        → ((tokens : List Token) × Tokens text tokens) ⊎ ((place : Place) × (why : LexWhy) × IsRefused text place why) }
    ensures one { (text : List ℕ) (tokens : List Token) (place : Place) (why : LexWhy)
        → Tokens text tokens → IsRefused text place why → ⊥ }
{}
