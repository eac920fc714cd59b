//! Point maps, read from forms.
ghost use Rattle.std.specs.Prelude.{◌≡◌, Some, None, IfOk, option_map};
ghost use Rattle.rc_form.specs.Form.{tree_of};
ghost use Rattle.rc_deck.specs.Points.{entry_of, entries_of as entries_seen};
ghost use Rattle.rc_resolve.specs.NamedNumbers.{AreFew};
ghost use Rattle.rc_resolve.specs.Reading as reading;

use crate::Numbers;
use rc_base::limits::LARGEST_NUMBER;
use rc_deck::{Memory, PointEntry, PointMap};
use rc_form::{Form, integer};
use std::alloc::Global;

/// The point map that a form `(ENTRY ..)` stands for, each entry an `(ATTR (VALUE ..) n)`, by any numbers of its names.
/// `None` where it stands for none. There are at most 65,536 names of attributes, and of values.
pub fn read_entries<N: Numbers>(
    alloc: Global,
    names: &N,
    entries: &Form,
) -> Result<Option<PointMap>, Memory>
    requires few { AreFew (N.words names.now) }
    ensures { IfOk result (λ found. option_map entries_seen found
        ≡ reading.read_entries (N.words names.now) (tree_of entries.now)) }
{
    let Form::List { items, .. } = entries else {
        return Ok(None);
    };
    let items = items.as_slice();
    if items.is_empty() {
        return Ok(None);
    }
    let mut entries = Vec::new(alloc);
    for form in items {
        match read_entry(alloc, names, form)? {
            Some(entry) => entries.push(entry)?,
            None => return Ok(None),
        }
    }
    Ok(Some(PointMap { entries }))
}

fn read_entry<N: Numbers>(
    alloc: Global,
    names: &N,
    form: &Form,
) -> Result<Option<PointEntry>, Memory>
    requires few { AreFew (N.words names.now) }
    ensures { IfOk result (λ found. option_map entry_of found
        ≡ reading.read_entry (N.words names.now) (tree_of form.now)) }
{
    let Form::List { items, .. } = form else {
        return Ok(None);
    };
    let items = items.as_slice();
    if items.len() != 3 {
        return Ok(None);
    }
    let Some(attr) = names.attr_number(&items[0]) else {
        return Ok(None);
    };
    let Some(points) = read_points(&items[2]) else {
        return Ok(None);
    };
    match read_value_list(alloc, names, &items[1])? {
        Some(values) => Ok(Some(entry_with(attr, values, points))),
        None => Ok(None),
    }
}

fn entry_with(attr: u16, values: Vec<u16>, points: i64) -> PointEntry
    ensures { entry_of result ≡ reading.entry_with attr (values.items, points) }
{
    PointEntry {
        attr,
        values,
        points,
    }
}

fn read_value_list<N: Numbers>(
    alloc: Global,
    names: &N,
    form: &Form,
) -> Result<Option<Vec<u16>>, Memory>
    requires few { AreFew (N.words names.now) }
    ensures { IfOk result (λ found. option_map (λ values. values.items) found
        ≡ reading.read_value_list (N.words names.now) (tree_of form.now)) }
{
    let Form::List { items, .. } = form else {
        return Ok(None);
    };
    let items = items.as_slice();
    if items.is_empty() {
        return Ok(None);
    }
    let mut values = Vec::new(alloc);
    for item in items {
        match names.value_number(item) {
            Some(value) => values.push(value)?,
            None => return Ok(None),
        }
    }
    Ok(Some(values))
}

// The number of a literal within the clamp.
fn read_points(form: &Form) -> Option<i64>
    ensures { result ≡ reading.read_points (tree_of form.now) }
{
    let Form::Atom { word, .. } = form else {
        return None;
    };
    let points = integer(word.bytes())?;
    if -LARGEST_NUMBER <= points && points <= LARGEST_NUMBER {
        Some(points)
    } else {
        None
    }
}
