//! Nodes, by recursion. The path is one buffer, which grows on the way in and is cut back on the way out. An `Err` leaves a text
//! that begins as before, and a path that serves no more.

ghost use Rattle.std.specs.Prelude.{◌≡◌, List, ◌++◌, map, drop, OnOk, IfOk};
ghost use Rattle.node_tree.specs.Appends.{Appends, AppendsOrKeeps};
ghost use Rattle.mspec_tree.specs.declared.fields.Field.{Field};
ghost use Rattle.mspec_expr.specs.Kinds.{case_name, cases_of, entry_fields, entry_fields_in, field_meant, fields_of, layer};
ghost use Rattle.mspec_listings.specs.Listings.{Listed, entry_lines, fields_lines, group_lines, groups_in, head_lines, item_path, lines, list_lines, listing, text_of};

use crate::leaves::{add_case, add_leaf, add_line};
use crate::paths::{enter_field, enter_item};
use mspec_expr::{ItemOf, Meant, case_fields, field_meant, fields_of, first_cases};
use mspec_tree::{Body, Case, Description, Field};
use node_tree::Node;
use sqlite_items::at;
use std::alloc::AllocError;

/// The definition of the groups that a field has, its own or those among its items.
fn groups_in(meant: Meant) -> usize
    ensures { result ≡ groups_in meant }
{
    match meant {
        Meant::GroupOf { def, .. } => def,
        Meant::ListOf(ItemOf::GroupOf { def, .. }) => def,
        _ => 0,
    }
}

/// The name of a case, from 1.
fn case_name(case: usize, cases: &[Case]) -> &[u8]
    ensures { result.now ≡ case_name case cases.now }
{
    if case == 0 {
        return &[];
    }
    match at(cases, case - 1) {
        Some(found) => found.name.as_slice(),
        None => &[],
    }
}

/// The fields that have entries at the place of a field.
fn entry_fields(case: usize, field: &Field) -> &[Field]
    ensures { result.now ≡ entry_fields_in case field.now (layer field.now) }
{
    match &field.body {
        Body::Switch(_, cases) => case_fields(case, cases.as_slice()),
        _ => std::slice::from_ref(field),
    }
}

/// Adds what a group says before its entries.
fn add_head(
    out: &mut Vec<u8>,
    path: &[u8],
    cases: &[Case],
    case: usize,
    entries: &[Node],
) -> Result<(), AllocError>
    ensures { Appends result out.old.items out.new.items (text_of (head_lines cases.now case path.now entries.now)) }
{
    if case > 0 {
        add_case(out, path, case_name(case, cases))
    } else if entries.is_empty() && !path.is_empty() {
        add_line(out, path, b"{}")
    } else {
        Ok(())
    }
}

/// Adds the lines of a node. `def` is the definition of the groups that may stand in it.
#[cycle(listing)]
fn add_node(
    out: &mut Vec<u8>,
    path: &mut Vec<u8>,
    d: &Description,
    def: usize,
    node: &Node,
) -> Result<(), AllocError>
    ensures lines { Appends result out.old.items out.new.items (text_of (lines d.now node.now def path.old.items)) }
    ensures path { OnOk result (path.new.items ≡ path.old.items) }
{
    match node {
        Node::List(items) => add_list(out, path, d, def, items.as_slice()),
        Node::Group { case, entries } => {
            add_group(out, path, d, def, usize::from(*case), entries.as_slice())
        }
        _ => add_leaf(out, path.as_slice(), node),
    }
}

/// Adds the lines of a list.
#[cycle(listing)]
fn add_list(
    out: &mut Vec<u8>,
    path: &mut Vec<u8>,
    d: &Description,
    def: usize,
    items: &[Node],
) -> Result<(), AllocError>
    ensures lines { Appends result out.old.items out.new.items
        (text_of (list_lines def path.old.items (map (λ item. lines d.now item) items.now))) }
    ensures path { OnOk result (path.new.items ≡ path.old.items) }
{
    if items.is_empty() {
        return add_line(out, path.as_slice(), b"[]");
    }
    for (place, item) in items.iter().enumerate() {
        add_item(out, path, d, def, item, place)?;
    }
    Ok(())
}

#[cycle(listing)]
fn add_item(
    out: &mut Vec<u8>,
    path: &mut Vec<u8>,
    d: &Description,
    def: usize,
    item: &Node,
    place: usize,
) -> Result<(), AllocError>
    ensures lines { Appends result out.old.items out.new.items
        (text_of (lines d.now item.now def (item_path path.old.items place))) }
    ensures path { OnOk result (path.new.items ≡ path.old.items) }
{
    let length = path.len();
    enter_item(path, place)?;
    add_node(out, path, d, def, item)?;
    path.truncate(length);
    Ok(())
}

/// Adds the lines of a group.
#[cycle(listing)]
fn add_group(
    out: &mut Vec<u8>,
    path: &mut Vec<u8>,
    d: &Description,
    def: usize,
    case: usize,
    entries: &[Node],
) -> Result<(), AllocError>
    ensures lines { Appends result out.old.items out.new.items
        (text_of (group_lines d.now def case path.old.items (map (λ entry. lines d.now entry) entries.now))) }
    ensures path { OnOk result (path.new.items ≡ path.old.items) }
{
    let fields = fields_of(d, def);
    add_head(out, path.as_slice(), first_cases(fields), case, entries)?;
    let mut place = 0;
    for field in fields {
        place = add_fields(out, path, d, entries, entry_fields(case, field), place)?;
    }
    Ok(())
}

/// Adds the lines of fields, the first of which has the entry at this place. Gives the place of the entry behind them.
#[cycle(listing)]
fn add_fields(
    out: &mut Vec<u8>,
    path: &mut Vec<u8>,
    d: &Description,
    entries: &[Node],
    fields: &[Field],
    place: usize,
) -> Result<usize, AllocError>
    ensures lines { Appends result out.old.items out.new.items (text_of
        (fields_lines d.now path.old.items place fields.now (drop place (map (λ entry. lines d.now entry) entries.now)))) }
    ensures behind { IfOk result (λ next. (more : List Field) →
        let all : List Listed = map (λ entry. lines d.now entry) entries.now in
        fields_lines d.now path.old.items place (fields.now ++ more) (drop place all)
        ≡ fields_lines d.now path.old.items place fields.now (drop place all)
        ++ fields_lines d.now path.old.items next more (drop next all)) }
    ensures path { OnOk result (path.new.items ≡ path.old.items) }
{
    let mut next = place;
    for field in fields {
        if next >= entries.len() {
            return Ok(next);
        }
        add_entry(out, path, d, &entries[next], field, next)?;
        next += 1;
    }
    Ok(next)
}

#[cycle(listing)]
fn add_entry(
    out: &mut Vec<u8>,
    path: &mut Vec<u8>,
    d: &Description,
    entry: &Node,
    field: &Field,
    place: usize,
) -> Result<(), AllocError>
    ensures lines { Appends result out.old.items out.new.items
        (text_of (entry_lines d.now path.old.items place field.now (lines d.now entry.now))) }
    ensures path { OnOk result (path.new.items ≡ path.old.items) }
{
    let length = path.len();
    enter_field(path, field.name.as_slice(), place)?;
    add_node(out, path, d, groups_in(field_meant(d, field)), entry)?;
    path.truncate(length);
    Ok(())
}

fn append_listing(
    out: &mut Vec<u8>,
    d: &Description,
    def: usize,
    node: &Node,
) -> Result<(), AllocError>
    ensures { Appends result out.old.items out.new.items (listing d.now def node.now) }
{
    let mut path = Vec::new(*out.allocator());
    add_node(out, &mut path, d, def, node)
}

/// Adds the listing of a value of the definition at a place. A value that has another form is listed as far as it goes: an
/// entry without a field has no line. An `Err` changes nothing.
pub fn add_listing(
    out: &mut Vec<u8>,
    d: &Description,
    def: usize,
    node: &Node,
) -> Result<(), AllocError>
    ensures { AppendsOrKeeps result out.old.items out.new.items (listing d.now def node.now) }
{
    let before = out.len();
    let added = append_listing(out, d, def, node);
    if added.is_err() {
        out.truncate(before);
    }
    added
}
