//! A path into a sheet: which item is next.
ghost use Rattle.std.specs.Prelude.{◌≡◌, ◌+◌, ◌<◌, ◌^◌, [], true, false, length, map, option_map, IsSome, Some, slice_get, ℕ, List};
ghost use Rattle.rc_sheet_spec.specs.Sheet.{Alt as PureAlt, choice};
ghost use Rattle.rc_play_spec.specs.Step.{Stage};
ghost use Rattle.rc_play_spec.specs.Path.{body_at, body_of, stage_at, stage_in, past, at_mark, into};
ghost use Rattle.rc_ast.specs.Items.{item_seen, alts_seen};
ghost use Rattle.rc_plain.specs.Paths.{item_at, Leaves};

use arrayvec::ArrayVec;
use rc_ast::{Alt, Class, SheetItem};
use rc_rules::About;
use std::marker::Model;

/// The places of stages that stand in one another, from outside to inside.
pub type Places = ArrayVec<usize, 64>;

/// The places of the stages whose bodies run, from outside to inside, the next place in the innermost body, and whether
/// the item there is a stage that is open and stands at a round.
#[derive(Debug, Drop)]
pub struct Path {
    outer: Places,
    next: usize,
    at_round: bool,
}

impl Model for Path {
    ghost use Rattle.std.specs.Coded.{codes};
    ghost use Rattle.rc_play_spec.specs.Path.{Path};

    ghost Value = { Path };

    ghost coded = { Prim.hlevel codes };

    ghost view = { λ p. record { outer = p.outer.items; next = p.next; at_round = p.at_round } };
}

impl Path {
    /// The item at this place of the body within the stages at these places.
    pub fn to(outer: Places, next: usize) -> Path
        ensures { result ≡ record { outer = outer.items; next = next; at_round = false } }
    {
        Path {
            outer,
            next,
            at_round: false,
        }
    }

    /// The first item of all.
    pub fn start() -> Path
        ensures { result ≡ record { outer = []; next = 0; at_round = false } }
    {
        Path::to(ArrayVec::new(), 0)
    }

    /// Whether a round of the stage that is next stands there.
    pub fn at_round(&self) -> bool
        ensures { result ≡ self.now.at_round }
    {
        self.at_round
    }

    /// Goes on behind the next item.
    pub fn pass(&mut self)
        requires { self.old.next + 1 < 2 ^ 64 }
        ensures { self.new ≡ past self.old }
    {
        self.next += 1;
        self.at_round = false;
    }

    /// Stays at the next item, a stage that opens.
    pub fn open(&mut self)
        ensures { self.new ≡ at_mark self.old }
    {
        self.at_round = true;
    }

    /// Goes to the begin of the next item's body.
    pub fn enter(&mut self)
        requires { length self.old.outer < 64 }
        ensures { self.new ≡ into self.old }
    {
        self.outer.push(self.next);
        self.next = 0;
        self.at_round = false;
    }

    /// Goes back to the stage whose body runs, if there is one.
    pub fn leave(&mut self) -> bool
        ensures { Leaves self.old self.new result }
    {
        match self.outer.pop() {
            None => false,
            Some(place) => {
                self.next = place;
                self.at_round = true;
                true
            }
        }
    }

    /// The item that is next, if there is one more in the body that runs.
    pub fn item<'a>(&self, about: &'a About) -> Option<&'a SheetItem>
        ensures item { option_map (λ item. item_seen item.now) result ≡ item_at about.now.sheet self.now }
        ensures fits { IsSome result → self.now.next + 1 < 2 ^ 64 }
    {
        item_in(
            innermost(&about.sheet().items, self.outer.as_slice()),
            self.next,
        )
    }

    /// The class of the stage that is next.
    pub fn class(&self, about: &About) -> Class
        ensures { (s : Stage) → stage_in (item_at about.now.sheet self.now) ≡ Some s → result ≡ s.class }
    {
        match self.item(about) {
            Some(SheetItem::Stage { class, .. }) => *class,
            _ => Class::Game,
        }
    }

    /// The alternatives of the choice that is next.
    pub fn alts<'a>(&self, about: &'a About) -> &'a [Alt]
        ensures alts { (site : ℕ) (alts : List PureAlt) → item_at about.now.sheet self.now ≡ Some (choice site alts)
            → alts_seen result.now ≡ alts }
        ensures fits { (site : ℕ) (alts : List PureAlt) → item_at about.now.sheet self.now ≡ Some (choice site alts)
            → self.now.next + 1 < 2 ^ 64 }
    {
        match self.item(about) {
            Some(item) => alts_in(item),
            None => &[],
        }
    }
}

fn alts_in(item: &SheetItem) -> &[Alt]
    ensures { (site : ℕ) (alts : List PureAlt) → item_seen item.now ≡ choice site alts → alts_seen result.now ≡ alts }
{
    match item {
        SheetItem::Choice { alts, .. } => alts,
        SheetItem::Do(_) => &[],
        SheetItem::Stage { .. } => &[],
    }
}

/// The item at a place.
fn item_in(items: &[SheetItem], place: usize) -> Option<&SheetItem>
    ensures item { option_map (λ item. item_seen item.now) result ≡ slice_get (map item_seen items.now) place }
    ensures fits { IsSome result → place + 1 < 2 ^ 64 }
{
    items.get(place)
}

/// The body within the stages at these places.
fn innermost<'a>(items: &'a [SheetItem], outer: &[usize]) -> &'a [SheetItem]
    ensures { map item_seen result.now ≡ body_at (map item_seen items.now) outer.now }
{
    let mut here = items;
    for place in outer {
        here = body_in(here, *place);
    }
    here
}

/// The body of the stage at a place; nothing where no stage is.
fn body_in(items: &[SheetItem], place: usize) -> &[SheetItem]
    ensures { map item_seen result.now ≡ body_of (stage_at (map item_seen items.now) place) }
{
    match items.get(place) {
        Some(item) => stage_body(item),
        None => &[],
    }
}

fn stage_body(item: &SheetItem) -> &[SheetItem]
    ensures { map item_seen result.now ≡ body_of (stage_in (Some (item_seen item.now))) }
{
    match item {
        SheetItem::Stage { body, .. } => body,
        SheetItem::Do(_) => &[],
        SheetItem::Choice { .. } => &[],
    }
}
