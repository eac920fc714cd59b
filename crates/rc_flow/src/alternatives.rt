//! The guards and domains of alternatives, and of all choices among items.
ghost use Rattle.std.specs.Prelude.{◌≡◌, map, flat_map};
ghost use Rattle.rc_sheet_spec.specs.Sight.{locs_in_alt, locs_in_item, locs_in_items};
ghost use Rattle.rc_ast.specs.Names.{loc_name_seen};
ghost use Rattle.rc_ast.specs.Items.{alt_seen, alts_seen, item_seen, items_seen};
ghost use Rattle.rc_flow.specs.Least.{least_with};

use crate::expressions::{in_domain, in_test};
use rc_ast::{Alt, LocName, SheetItem};

#[tactic(auto, using(crate::proofs::LeastLemmas::least_append))]
fn in_alt(names: &[LocName], alt: &Alt, found: Option<u32>) -> Option<u32>
    ensures { result ≡ least_with (map loc_name_seen names.now) found (locs_in_alt (alt_seen alt.now)) }
{
    match alt {
        Alt::Do(_) => found,
        Alt::If(guard, _) => in_test(names, guard, found),
        Alt::Any(domain, _, inner) => in_alt(names, inner, in_domain(names, domain, found)),
    }
}

fn in_alts(names: &[LocName], alts: &Vec<Alt>, found: Option<u32>) -> Option<u32>
    ensures { result ≡ least_with (map loc_name_seen names.now) found
        (flat_map locs_in_alt (alts_seen alts.now.items)) }
{
    let mut least = found;
    for alt in alts {
        least = in_alt(names, alt, least);
    }
    least
}

#[cycle(items)]
fn in_item(names: &[LocName], item: &SheetItem, found: Option<u32>) -> Option<u32>
    ensures { result ≡ least_with (map loc_name_seen names.now) found (locs_in_item (item_seen item.now)) }
{
    match item {
        SheetItem::Do(_) => found,
        SheetItem::Stage { body, .. } => in_items(names, body, found),
        SheetItem::Choice { alts, .. } => in_alts(names, alts, found),
    }
}

#[cycle(items)]
pub fn in_items(names: &[LocName], items: &Vec<SheetItem>, found: Option<u32>) -> Option<u32>
    ensures { result ≡ least_with (map loc_name_seen names.now) found (locs_in_items (items_seen items.now.items)) }
{
    let mut least = found;
    for item in items {
        least = in_item(names, item, least);
    }
    least
}
