ghost use Rattle.std.specs.Prelude.{ℕ, List, ◌≡◌};
ghost use Rattle.mspec_tree.specs.declared.exprs.Expr.{Expr};
ghost use Rattle.mspec_lexer.specs.Lexemes.{Lexeme};
ghost use Rattle.mspec_grammar.specs.Expressions.{Quoted};

/// At the front of any lexemes stands one expression in quotes at most.
pub fn one_expression()
    ensures { (limit : ℕ) (from rest rest' : List Lexeme) (e e' : Expr) → Quoted limit from e rest → Quoted limit from e' rest'
        → (e ≡ e') × (rest ≡ rest') }
{}
