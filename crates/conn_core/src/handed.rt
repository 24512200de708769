ghost use Rattle.std.specs.Prelude.{◌≡◌, ◌++◌, ◌∷◌, ℕ, List, Some};
ghost use Rattle.std.specs.List.{position};
ghost use Rattle.conn_core.specs.HandedItems.{HasItem, IsItemAt, item_has, sent_item, with_values};
ghost use Rattle.conn_core.specs.declared.answers.Sending.{Sending};
ghost use Rattle.conn_core.specs.declared.handed.HandedIn.{HandedIn};

use crate::answers::Sending;
use node_tree::ByteList;
use wire_frames::ValueRows;

/// What is kept of a request beside its row: where its Submit stands in the journal, the frame until it is handed out, and
/// the values of the reply that ended it.
#[derive(Drop)]
pub(crate) struct HandedIn {
    pub id: u64,
    pub place: usize,
    pub reference: u16,
    pub frame: Option<ByteList>,
    pub values: ValueRows,
}

/// The place of the item with an id.
pub(crate) fn place_of(handed: &[HandedIn], id: u64) -> Option<usize>
    ensures { result ≡ position (item_has id) handed.now }
{
    handed.iter().position(|item| item.id == id)
}

/// Hands out the frame of the item with an id.
pub(crate) fn hand_out(handed: &mut Vec<HandedIn>, id: u64) -> Sending
    requires { (before : List HandedIn) × (item : HandedIn) × (after : List HandedIn) × (frame : List ℕ)
        × IsItemAt handed.old.items id before item after × (item.frame ≡ Some frame) }
    ensures { (before : List HandedIn) (item : HandedIn) (after : List HandedIn) (frame : List ℕ)
        → IsItemAt handed.old.items id before item after → item.frame ≡ Some frame
        → (handed.new.items ≡ before ++ sent_item item ∷ after)
        × (let sending : Sending = record { id = id; reference = item.reference; frame = frame } in result ≡ sending) }
{
    let at = place_of(handed, id).unwrap();
    let item = &mut handed[at];
    let frame = item.frame.take().unwrap();
    Sending {
        id,
        reference: item.reference,
        frame,
    }
}

/// Where the Submit of the request with an id stands in the journal.
pub(crate) fn submit_place(handed: &[HandedIn], id: u64) -> usize
    requires { HasItem handed.now id }
    ensures { (before : List HandedIn) (item : HandedIn) (after : List HandedIn)
        → IsItemAt handed.now id before item after → result ≡ item.place }
{
    let at = place_of(handed, id).unwrap();
    handed[at].place
}

/// Keeps the values of the reply that ends the request with an id.
pub(crate) fn keep_values(handed: &mut Vec<HandedIn>, id: u64, values: ValueRows)
    requires { HasItem handed.old.items id }
    ensures { (before : List HandedIn) (item : HandedIn) (after : List HandedIn)
        → IsItemAt handed.old.items id before item after
        → handed.new.items ≡ before ++ with_values values item ∷ after }
{
    let at = place_of(handed, id).unwrap();
    let item = &mut handed[at];
    item.values = values;
}

/// Takes out the item with an id, and gives its values.
pub(crate) fn take_values(handed: &mut Vec<HandedIn>, id: u64) -> ValueRows
    requires { HasItem handed.old.items id }
    ensures { (before : List HandedIn) (item : HandedIn) (after : List HandedIn)
        → IsItemAt handed.old.items id before item after
        → (handed.new.items ≡ before ++ after) × (result ≡ item.values) }
{
    let at = place_of(handed, id).unwrap();
    let HandedIn { values, .. } = handed.remove(at);
    values
}
