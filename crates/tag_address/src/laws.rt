//! Laws of tags and URLs.

ghost use Rattle.std.specs.Prelude.{◌≡◌, ℕ, List};
ghost use Rattle.wire_frames.specs.declared.kinds.Item.{Item};
ghost use Rattle.tag_address.specs.declared.tags.TagKind.{TagKind};
ghost use Rattle.tag_address.specs.declared.tags.TagWhy.{TagWhy};
ghost use Rattle.tag_address.specs.declared.urls.Url.{Url};
ghost use Rattle.tag_address.specs.Places.{IsRefusedAt};
ghost use Rattle.tag_address.specs.Tags.{IsRefused, IsTag, printed};
ghost use Rattle.tag_address.specs.Urls.{IsUrl};

/// A tag names one item.
pub fn one_tag()
    ensures { (kind : TagKind) (text : List ℕ) (item other : Item) → IsTag kind text item → IsTag kind text other → item ≡ other }
{}

/// What is printed of an item that a tag names is a tag that names the same item.
pub fn printed_is_read()
    ensures { (kind : TagKind) (text : List ℕ) (item : Item) → IsTag kind text item → IsTag kind (printed item) item }
{}

/// A text that is no tag has one fault: one place, and one part.
pub fn one_fault()
    ensures { (kind : TagKind) (text : List ℕ) (place other : ℕ) (why because : TagWhy)
        → IsRefused kind text place why → IsRefused kind text other because → (place ≡ other) × (why ≡ because) }
{}

/// A text leaves the URLs at one place.
pub fn one_url_fault()
    ensures { (text : List ℕ) (place other : ℕ) → IsRefusedAt IsUrl text place → IsRefusedAt IsUrl text other → place ≡ other }
{}
