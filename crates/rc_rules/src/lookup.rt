//! What names and cards come to: found once for a sheet, and not at each use.
ghost use Rattle.std.specs.Prelude.{◌≡◌, ◌+◌, ◌≤◌, length, map, option_map, sum_by, IfOk, All, Some, None, slice_get};
ghost use Rattle.rc_base.specs.Numbers.{below};
ghost use Rattle.rc_base.specs.Limits.{most_locations, most_numbers, most_attrs, most_stages};
ghost use Rattle.rc_base.specs.Clamp.{IsWithinClamp};
ghost use Rattle.rc_base.specs.Deck.{points_of, value_at};
ghost use Rattle.rc_deck.specs.Points.{entries_of};
ghost use Rattle.rc_sheet_spec.specs.WellFormed.{IsWellFormed, owner_count as pure_owner_count};
ghost use Rattle.rc_play_spec.specs.Owners.{classes_in};
ghost use Rattle.rc_play_spec.specs.Shape.{face_at};
ghost use Rattle.rc_ast.specs.Sheet.{sheet_seen};
ghost use Rattle.rc_rules.specs.Lookup.{IsLookup, count_of, place_in, places_of, range_seen, ranges_from, ranges_seen};
ghost use Rattle.rc_rules.specs.Lookup.{rows_seen, value_row, worth_row};

use crate::range::Range;
use crate::stages::{class_of_stage, owner_count};
use rc_ast::{Class, Sheet};
use rc_base::limits::MOST_STAGES;
use rc_deck::{Memory, PointMap, attr, points};
use rc_table::Shape;
use std::alloc::Global;

// The places of a name of this class, of so many owners.
fn range_of(class: Class, first: u16, count: u16) -> Range
    requires { first ≤ most_locations }
    ensures { range_seen result ≡ places_of first class count }
{
    Range {
        first,
        game: if class == Class::Game { count } else { 0 },
        player: if class == Class::Player { count } else { 0 },
        team: if class == Class::Team { count } else { 0 },
    }
}

// How many owners of this class a name has.
#[inline(always)]
fn count_of(range: &Range, class: Class) -> u16
    ensures { result ≡ count_of class (range_seen range.now) }
{
    match class {
        Class::Game => range.game,
        Class::Player => range.player,
        Class::Team => range.team,
    }
}

// The place of an owner of this class, if the name has one.
#[inline(always)]
fn place_of(range: &Range, wanted: Class, owner: u8) -> Option<u16>
    ensures { result ≡ place_in wanted owner (Some (range_seen range.now)) }
{
    if u16::from(owner) < count_of(range, wanted) {
        Some(range.first + u16::from(owner))
    } else {
        None
    }
}

// The place of an owner of this class among those of a name, if there is one.
#[inline(always)]
fn place_at(ranges: &[Range], name: u16, wanted: Class, owner: u8) -> Option<u16>
    ensures { result ≡ place_in wanted owner (slice_get (ranges_seen ranges.now) name) }
{
    match ranges.get(name as usize) {
        Some(range) => place_of(range, wanted, owner),
        None => None,
    }
}

/// For each name of a location or number its places, for each stage its class, for each attribute the value of each
/// card, and for each point map what each card is worth.
pub struct Lookup {
    pub(crate) locs: Vec<Range>,
    pub(crate) nums: Vec<Range>,
    pub(crate) stages: Vec<Class>,
    pub(crate) values: Vec<Vec<Option<u16>>>,
    pub(crate) worths: Vec<Vec<i64>>,
}

// A derived drop is proved again in each crate that may drop an about, and this one once.
impl Drop for Lookup {
    fn drop(self) {
        let Lookup {
            locs: _locs,
            nums: _nums,
            stages: _stages,
            values: _values,
            worths: _worths,
        } = self;
    }
}

impl Lookup {
    /// The location that an owner of this class has of a name, if there is one.
    #[inline(always)]
    pub fn location(&self, name: u16, class: Class, owner: u8) -> Option<u16>
        ensures { result ≡ place_in class owner (slice_get (ranges_seen self.now.locs.items) name) }
    {
        place_at(&self.locs, name, class, owner)
    }

    /// The place of the number that an owner of this class has of a name, if there is one.
    #[inline(always)]
    pub fn number(&self, name: u16, class: Class, owner: u8) -> Option<u16>
        ensures { result ≡ place_in class owner (slice_get (ranges_seen self.now.nums.items) name) }
    {
        place_at(&self.nums, name, class, owner)
    }

    /// The class of the stage with this number, if there is one.
    #[inline(always)]
    pub fn stage(&self, number: u16) -> Option<Class>
        ensures { result ≡ slice_get self.now.stages.items number }
    {
        self.stages.get(number as usize).copied()
    }

    /// The value of each card for an attribute, if there is such an attribute.
    #[inline(always)]
    pub fn values(&self, attr: u16) -> Option<&[Option<u16>]>
        ensures { option_map (λ row. row.now) result ≡ slice_get (rows_seen self.now.values.items) attr }
    {
        row_at(&self.values, attr)
    }

    /// What each card is worth by a point map, if there is such a map.
    #[inline(always)]
    pub fn worths(&self, map: u16) -> Option<&[i64]>
        ensures { option_map (λ row. row.now) result ≡ slice_get (rows_seen self.now.worths.items) map }
    {
        row_at(&self.worths, map)
    }
}

// The row with this number, if there is one.
#[inline(always)]
fn row_at<T>(rows: &[Vec<T>], number: u16) -> Option<&[T]>
    ensures { option_map (λ row. row.now) result ≡ slice_get (rows_seen rows.now) number }
{
    match rows.get(number as usize) {
        Some(row) => Some(row.as_slice()),
        None => None,
    }
}

/// What the names of a sheet and the cards of its shape come to.
pub fn lookup_of(alloc: Global, sheet: &Sheet, shape: &Shape) -> Result<Lookup, Memory>
    requires well { IsWellFormed (sheet_seen sheet.now) }
    ensures { IfOk result (λ lookup. IsLookup (sheet_seen sheet.now) shape.now lookup) }
{
    let locs = loc_ranges(alloc, sheet)?;
    let nums = num_ranges(alloc, sheet)?;
    let stages = stage_classes(alloc, sheet)?;
    let values = value_rows(alloc, shape, sheet.names.attrs.len())?;
    let worths = worth_rows(alloc, sheet, shape)?;
    Ok(Lookup {
        locs,
        nums,
        stages,
        values,
        worths,
    })
}

fn loc_ranges(alloc: Global, sheet: &Sheet) -> Result<Vec<Range>, Memory>
    requires limit { sum_by (λ loc. pure_owner_count (sheet_seen sheet.now) loc.class) (sheet_seen sheet.now).locs
        ≤ most_locations }
    ensures { IfOk result (λ list. ranges_seen list.items
        ≡ ranges_from (sheet_seen sheet.now) 0 (map (λ loc. loc.class) (sheet_seen sheet.now).locs)) }
{
    let mut list = Vec::new(alloc);
    let mut first = 0usize;
    for place in 0..sheet.locs.len() {
        let class = sheet.locs[place].class;
        let count = owner_count(sheet, class);
        list.push(range_of(class, first as u16, count as u16))?;
        first += count;
    }
    Ok(list)
}

fn num_ranges(alloc: Global, sheet: &Sheet) -> Result<Vec<Range>, Memory>
    requires limit { sum_by (λ num. pure_owner_count (sheet_seen sheet.now) num.class) (sheet_seen sheet.now).nums
        ≤ most_numbers }
    ensures { IfOk result (λ list. ranges_seen list.items
        ≡ ranges_from (sheet_seen sheet.now) 0 (map (λ num. num.class) (sheet_seen sheet.now).nums)) }
{
    let mut list = Vec::new(alloc);
    let mut first = 0usize;
    for place in 0..sheet.nums.len() {
        let class = sheet.nums[place].class;
        let count = owner_count(sheet, class);
        list.push(range_of(class, first as u16, count as u16))?;
        first += count;
    }
    Ok(list)
}

// The class of each stage, by the stages' numbers.
fn stage_classes(alloc: Global, sheet: &Sheet) -> Result<Vec<Class>, Memory>
    requires few { length (classes_in (sheet_seen sheet.now).items) ≤ most_stages }
    ensures { IfOk result (λ list. list.items ≡ classes_in (sheet_seen sheet.now).items) }
{
    let mut list = Vec::new(alloc);
    for number in 0..MOST_STAGES {
        match class_of_stage(sheet, number) {
            Some(class) => list.push(class)?,
            None => return Ok(list),
        }
    }
    Ok(list)
}

// The values of all cards, attribute by attribute.
fn value_rows(alloc: Global, shape: &Shape, attrs: usize) -> Result<Vec<Vec<Option<u16>>>, Memory>
    requires few { attrs ≤ most_attrs }
    ensures { IfOk result (λ rows. rows_seen rows.items ≡ map (value_row shape.now.faces) (below attrs)) }
{
    let mut rows = Vec::new(alloc);
    for name in 0..attrs {
        let row = values_of(alloc, shape, name as u16)?;
        rows.push(row)?;
    }
    Ok(rows)
}

fn values_of(alloc: Global, shape: &Shape, name: u16) -> Result<Vec<Option<u16>>, Memory>
    ensures { IfOk result (λ row. row.items ≡ value_row shape.now.faces name) }
{
    let mut row = Vec::new(alloc);
    for id in 0..shape.cards() {
        row.push(value_of(shape, id, name))?;
    }
    Ok(row)
}

// The value of a card's face for an attribute, read off its pairs.
fn value_of(shape: &Shape, id: u16, name: u16) -> Option<u16>
    ensures { result ≡ value_at (face_at shape.now id) name }
{
    match shape.face(id) {
        Some(face) => attr(face, name),
        None => None,
    }
}

// What all cards are worth, point map by point map.
fn worth_rows(alloc: Global, sheet: &Sheet, shape: &Shape) -> Result<Vec<Vec<i64>>, Memory>
    requires clamped { All (All (λ entry. IsWithinClamp entry.points)) (sheet_seen sheet.now).points }
    ensures { IfOk result (λ rows. rows_seen rows.items
        ≡ map (worth_row shape.now.faces) (sheet_seen sheet.now).points) }
{
    let mut rows = Vec::new(alloc);
    for place in 0..sheet.points.len() {
        let row = worths_of(alloc, shape, &sheet.points[place])?;
        rows.push(row)?;
    }
    Ok(rows)
}

fn worths_of(alloc: Global, shape: &Shape, map: &PointMap) -> Result<Vec<i64>, Memory>
    requires clamped { All (λ entry. IsWithinClamp entry.points) (entries_of map.now) }
    ensures { IfOk result (λ row. row.items ≡ worth_row shape.now.faces (entries_of map.now)) }
{
    let mut row = Vec::new(alloc);
    for id in 0..shape.cards() {
        row.push(worth_of(shape, id, map))?;
    }
    Ok(row)
}

fn worth_of(shape: &Shape, id: u16, map: &PointMap) -> i64
    requires clamped { All (λ entry. IsWithinClamp entry.points) (entries_of map.now) }
    ensures { result ≡ points_of (entries_of map.now) (face_at shape.now id) }
{
    match shape.face(id) {
        Some(face) => points(map, face),
        None => 0,
    }
}
