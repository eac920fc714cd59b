//! Whether two matches stand at the same place.
use rc_rules::{Control, Menu};
use rc_table::Table;

/// Whether two tables have the same lists and the same numbers.
pub fn are_same_tables(one: &Table, other: &Table) -> bool {
    have_same_lists(one, other) && have_same_numbers(one, other)
}

fn have_same_lists(one: &Table, other: &Table) -> bool {
    let locations = one.shape().locations();
    for loc in 0..locations {
        if one.list(loc) != other.list(loc) {
            return false;
        }
    }
    locations == other.shape().locations()
}

fn have_same_numbers(one: &Table, other: &Table) -> bool {
    let numbers = one.shape().numbers();
    for num in 0..numbers {
        if one.number(num) != other.number(num) {
            return false;
        }
    }
    numbers == other.shape().numbers()
}

/// Whether two matches stand at the same place beside their tables.
pub fn are_same_controls(one: &Control, other: &Control) -> bool {
    one.site == other.site
        && one.frames.as_slice() == other.frames.as_slice()
        && one.turn == other.turn
        && one.made.as_slice() == other.made.as_slice()
}

/// Whether two menus offer the same items in the same order.
pub fn are_same_menus(one: &Menu, other: &Menu) -> bool {
    for (one, other) in one.as_slice().iter().zip(other.as_slice()) {
        if one.alt != other.alt || one.spots.as_slice() != other.spots.as_slice() {
            return false;
        }
    }
    one.len() == other.len()
}
