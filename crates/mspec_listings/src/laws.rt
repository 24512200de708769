//! Laws on listings, as functions without a body.

ghost use Rattle.std.specs.Prelude.{◌≡◌, ◌≢◌, ℕ, List, [], length};
ghost use Rattle.node_tree.specs.declared.nodes.Node.{Node};
ghost use Rattle.mspec_tree.specs.Form.{IsWritten};
ghost use Rattle.mspec_tree.specs.declared.defs.Description.{Description};
ghost use Rattle.mspec_listings.specs.Leaves.{HasFields, leaves};
ghost use Rattle.mspec_listings.specs.Listings.{Line, lines, text_of};
ghost use Rattle.mspec_listings.specs.Paths.{HaveOwnPaths, IsPlaced, NamesTellFields};
ghost use Rattle.mspec_listings.specs.Plain.{ArePlain};

/// A node has as many lines as leaves and cases, where its entries have fields. A whole value has so many, or none at all.
pub fn each_leaf_has_a_line()
    ensures inside { (d : Description) (def : ℕ) (node : Node) (path : List ℕ) → HasFields d def node → path ≢ []
        → length (lines d node def path) ≡ leaves node }
    ensures whole { (d : Description) (def : ℕ) (node : Node) → HasFields d def node → lines d node def [] ≢ []
        → length (lines d node def []) ≡ leaves node }
{}

/// By a description that the grammar can give, no path, value or case has a blank or a line feed in it, and no value is empty.
pub fn lines_are_plain()
    ensures { (d : Description) (def : ℕ) (node : Node) → IsWritten d → ArePlain (lines d node def []) }
{}

/// A text is of plain lines in one way at most, so a listing tells its lines.
pub fn one_list_of_lines()
    ensures { (some other : List Line) → ArePlain some → ArePlain other → text_of some ≡ text_of other → some ≡ other }
{}

/// No two lines of a value have the same path, where no two fields of a group have the same name.
pub fn each_line_has_its_path()
    ensures { (d : Description) (def : ℕ) (node : Node) → IsWritten d → NamesTellFields d → IsPlaced node → HaveOwnPaths (lines d node def []) }
{}
