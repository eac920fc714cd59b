//! What a choice offers.
ghost use Rattle.std.specs.Prelude.{◌≡◌, ◌∷◌, ◌++◌, ◌+◌, [], ◌==◌, ◌<◌, ◌≤◌, length, slice_index_or, IfOk};
ghost use Rattle.rc_base.specs.Limits.{most_items};
ghost use Rattle.rc_rules.specs.Menu.{item_seen};

use arrayvec::ArrayVec;
use rc_base::limits::MOST_ITEMS;
use rc_deck::Memory;
use std::alloc::Global;
use std::marker::Model;

/// The positions of an item's bindings in their domains, from outside to inside.
pub type Spots = ArrayVec<u16, 4>;

/// An item of a menu: an alternative, by its place, with the positions of its bindings.
#[derive(Debug, Default, Drop)]
pub struct Item {
    pub alt: usize,
    pub spots: Spots,
}

impl Item {
    /// The same item once more.
    pub fn copy(&self) -> Item
        ensures { item_seen result ≡ item_seen self.now }
    {
        let own = self.spots.as_slice();
        let mut spots = Spots::new();
        // one by one: they are few, and to copy the whole list is a call
        for place in 0..own.len() {
            spots.push(own[place]);
        }
        Item {
            alt: self.alt,
            spots,
        }
    }
}

/// The first 256 items that a choice offers.
pub type Menu = ArrayVec<Item, MOST_ITEMS>;

/// A menu in a machine: room for 256 items that is taken once. Nothing of it is filled before an item comes, and no
/// memory is taken later.
#[derive(Drop)]
pub struct Items {
    list: Vec<Item>,
}

impl Model for Items {
    ghost use Rattle.std.specs.Prelude.{◌≤◌, vec_len, vec_capacity};
    ghost use Rattle.rc_base.specs.Limits.{most_items};
    ghost use Rattle.rc_rules.specs.Menu.{Listed};

    ghost Value = { Listed };

    ghost view = { λ m. record { items = m.list.items } };

    ghost invariant = { λ m. (vec_len m.list ≤ most_items) × (most_items ≤ vec_capacity m.list) };
}

impl Items {
    /// Room for a menu, with nothing in it.
    ///
    /// # Errors
    ///
    /// No memory is left.
    pub fn new(alloc: Global) -> Result<Items, Memory>
        ensures { IfOk result (λ menu. menu.items ≡ []) }
    {
        let list = Vec::with_capacity(alloc, MOST_ITEMS)?;
        Ok(Items { list })
    }

    /// How many items there are.
    #[inline(always)]
    pub fn len(&self) -> usize
        ensures value { result ≡ length self.now.items }
        ensures fits { result ≤ most_items }
    {
        self.list.len()
    }

    /// Whether there is none.
    #[inline(always)]
    pub fn is_empty(&self) -> bool
        ensures { result ≡ (length self.now.items == 0) }
    {
        self.list.is_empty()
    }

    /// Whether there are as many as a menu may have.
    #[inline(always)]
    pub fn is_full(&self) -> bool
        ensures value { result ≡ (length self.now.items == most_items) }
        ensures fits { length self.now.items ≤ most_items }
    {
        self.list.len() == MOST_ITEMS
    }

    /// The items.
    #[inline(always)]
    pub fn as_slice(&self) -> &[Item]
        ensures value { result.now ≡ self.now.items }
        ensures fits { length result.now ≤ most_items }
    {
        self.list.as_slice()
    }

    /// Takes all items out.
    #[inline(always)]
    pub fn clear(&mut self)
        ensures { self.new.items ≡ [] }
    {
        self.list.clear();
    }

    /// Puts an item behind the others.
    #[inline(always)]
    pub fn push(&mut self, item: Item)
        requires { length self.old.items < most_items }
        ensures items { self.new.items ≡ self.old.items ++ item ∷ [] }
    {
        self.list.push_reserved(item);
    }

    /// Takes out the item at a place, to which the last one goes.
    pub fn swap_remove(&mut self, place: usize) -> Item
        requires { place < length self.old.items }
        ensures value { result ≡ slice_index_or self.old.items place result }
        ensures count { length self.new.items + 1 ≡ length self.old.items }
    {
        self.list.swap_remove(place)
    }
}

/// Each player's score.
pub type Scores = ArrayVec<i64, 8>;
