ghost use Rattle.std.specs.Prelude.{◌≡◌, ◌≤◌, length};
ghost use Rattle.mspec_tree.specs.declared.defs.Description.{Description};
ghost use Rattle.mspec_tree.specs.Form.{IsWritten};
ghost use Rattle.mspec_lexer.specs.Tokens.{text_limit, text_of};
ghost use Rattle.mspec_printer.specs.Alike.{ParsesAlike};
ghost use Rattle.mspec_printer.specs.Printed.{printed};

/// What is printed of a description that the grammar can give, if it is short enough for a text, parses to the same
/// description but for places.
pub fn parses_back()
    ensures { (d : Description) → IsWritten d → length (text_of (printed d)) ≤ text_limit → ParsesAlike d (text_of (printed d)) }
{}
