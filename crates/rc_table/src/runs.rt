//! Many cards that are put somewhere else, in one go where they come from one location. None of it takes memory.
ghost use Rattle.std.specs.Prelude.{◌≡◌, ◌<◌, ◌≤◌, ◌+◌, [], false, length, reverse, take, filter, fold, replicate, All};
ghost use Rattle.std.specs.Prelude.{slice_index_or};
ghost use Rattle.rc_base.specs.Limits.{most_in_list};
ghost use Rattle.rc_play_spec.specs.Bound.{HoldsCards};
ghost use Rattle.rc_play_spec.specs.Table.{loc_of, put_top, put_bottom};
ghost use Rattle.rc_table.specs.Laid.{relaid};
ghost use Rattle.rc_table.specs.Runs.{end_of, put_each, all_added, is_free, flagged, AreFresh};

use crate::table::Table;
use crate::whereabouts::note_move;
use arrayvec::ArrayVec;
use rc_base::limits::MOST_IN_LIST;
use rc_play_spec::edits_keep_tables_sound;

/// So many cards at least go in one go. Each of fewer is put by itself, which is less work.
const MANY: usize = 8;

/// An end of a list.
#[derive(Clone, Copy)]
pub(crate) enum Side {
    Top,
    Bottom,
}

// Puts the ids of a list whose flags aren't set behind others.
fn push_free(list: &[u16], flags: &[bool], left: &mut ArrayVec<u16, MOST_IN_LIST>)
    requires empty { left.old.items ≡ [] }
    requires few { length list.now ≤ most_in_list }
    requires ids { All (λ id. id < length flags.now) list.now }
    ensures { left.new.items ≡ filter (is_free flags.now) list.now }
{
    for at in 0..list.len() {
        let id = list[at];
        if !flags[id as usize] {
            left.push(id);
        }
    }
}

// Puts ids behind others, the last one first.
fn push_reversed(ids: &[u16], joined: &mut ArrayVec<u16, MOST_IN_LIST>)
    requires empty { joined.old.items ≡ [] }
    requires few { length ids.now ≤ most_in_list }
    ensures { joined.new.items ≡ reverse ids.now }
{
    let mut left = ids.len();
    while left > 0 {
        left -= 1;
        joined.push(ids[left]);
    }
}

// Puts a list there, with cards at an end of it, each after the one before.
fn add_all(list: &[u16], ids: &[u16], side: Side, joined: &mut ArrayVec<u16, MOST_IN_LIST>)
    requires empty { joined.old.items ≡ [] }
    requires fits { length list.now + length ids.now ≤ most_in_list }
    ensures { joined.new.items ≡ all_added (end_of side) ids.now list.now }
{
    match side {
        Side::Top => {
            let _fits = joined.try_extend_from_slice(list);
            let _fits = joined.try_extend_from_slice(ids);
        }
        Side::Bottom => {
            push_reversed(ids, joined);
            let _fits = joined.try_extend_from_slice(list);
        }
    }
}

// How many cards at the front stand in a location, none of them twice. Their flags are set.
fn run_of(stand: &[(u16, u16)], ids: &[u16], from: u16, flags: &mut [bool]) -> usize
    requires cards { All (λ id. id < length stand.now) ids.now }
    requires flags { length stand.now ≤ length flags.old }
    ensures count { result ≤ length ids.now }
    ensures flags { flags.new ≡ flagged (take result ids.now) flags.old }
    ensures fresh { AreFresh flags.old (take result ids.now) }
    ensures one { All (λ id. (slice_index_or stand.now id (0, 0)).0 ≡ from) (take result ids.now) }
{
    for at in 0..ids.len() {
        let id = ids[at] as usize;
        if flags[id] || stand[id].0 != from {
            return at;
        }
        flags[id] = true;
    }
    ids.len()
}

impl Table {
    /// How many cards at the front stand in this location, none of them twice.
    pub fn run(&self, ids: &[u16], from: u16) -> usize
        requires cards { All (λ id. id < length self.now.shape.faces) ids.now }
        ensures count { result ≤ length ids.now }
        ensures fresh { AreFresh (replicate most_in_list false) (take result ids.now) }
        ensures one { All (λ id. loc_of self.now.shape self.now.table id ≡ from) (take result ids.now) }
    {
        // what a shape keeps
        let _players = self.shape().players();
        let mut flags = [false; MOST_IN_LIST];
        run_of(&self.whereabouts, ids, from, &mut flags)
    }

    /// Puts cards on top of a location of cards, one after the other, as `put_top` does.
    pub fn put_all_top(&mut self, ids: &[u16], loc: u16)
        requires cards { All (λ id. id < length self.old.shape.faces) ids.now }
        requires loc { HoldsCards self.old.shape loc }
        ensures { self.new ≡ relaid self.old
            (fold (λ table id. put_top self.old.shape id loc table) self.old.table ids.now) }
    {
        self.put_all(ids, Side::Top, loc);
    }

    /// Puts cards at the bottom of a location of cards, one after the other, as `put_bottom` does.
    pub fn put_all_bottom(&mut self, ids: &[u16], loc: u16)
        requires cards { All (λ id. id < length self.old.shape.faces) ids.now }
        requires loc { HoldsCards self.old.shape loc }
        ensures { self.new ≡ relaid self.old
            (fold (λ table id. put_bottom self.old.shape id loc table) self.old.table ids.now) }
    {
        self.put_all(ids, Side::Bottom, loc);
    }

    // The same at either end.
    fn put_all(&mut self, ids: &[u16], side: Side, loc: u16)
        requires cards { All (λ id. id < length self.old.shape.faces) ids.now }
        requires loc { HoldsCards self.old.shape loc }
        ensures { self.new ≡ relaid self.old (put_each self.old.shape (end_of side) loc ids.now self.old.table) }
    {
        let mut at = 0;
        while at < ids.len() {
            at += self.put_some(&ids[at..], side, loc);
        }
    }

    // The same of some at the front, and tells how many they are.
    fn put_some(&mut self, ids: &[u16], side: Side, loc: u16) -> usize
        requires some { 0 < length ids.now }
        requires cards { All (λ id. id < length self.old.shape.faces) ids.now }
        requires loc { HoldsCards self.old.shape loc }
        ensures some { 0 < result }
        ensures count { result ≤ length ids.now }
        ensures put { self.new ≡ relaid self.old
            (put_each self.old.shape (end_of side) loc (take result ids.now) self.old.table) }
    {
        if ids.len() < MANY {
            self.put_one_by_one(ids, side, loc);
            return ids.len();
        }
        // what a shape keeps
        let _players = self.shape().players();
        let (from, _) = self.place_of(ids[0]);
        let mut flags = [false; MOST_IN_LIST];
        let count = run_of(&self.whereabouts, ids, from, &mut flags);
        if count < MANY {
            let count = count.max(1);
            self.put_one_by_one(&ids[..count], side, loc);
            return count;
        }
        self.put_run(&ids[..count], &flags, from, side, loc);
        count
    }

    // The same of each by itself.
    fn put_one_by_one(&mut self, ids: &[u16], side: Side, loc: u16)
        requires cards { All (λ id. id < length self.old.shape.faces) ids.now }
        requires loc { HoldsCards self.old.shape loc }
        ensures { self.new ≡ relaid self.old (put_each self.old.shape (end_of side) loc ids.now self.old.table) }
    {
        for id in ids {
            match side {
                Side::Top => self.put_top(*id, loc),
                Side::Bottom => self.put_bottom(*id, loc),
            }
        }
    }

    // The same of different cards of one location, whose flags alone are set. Each list is written once.
    fn put_run(&mut self, ids: &[u16], flags: &[bool], from: u16, side: Side, loc: u16)
        requires some { 0 < length ids.now }
        requires cards { All (λ id. id < length self.old.shape.faces) ids.now }
        requires loc { HoldsCards self.old.shape loc }
        requires from { All (λ id. loc_of self.old.shape self.old.table id ≡ from) ids.now }
        requires flags { flags.now ≡ flagged ids.now (replicate most_in_list false) }
        requires fresh { AreFresh (replicate most_in_list false) ids.now }
        ensures { self.new ≡ relaid self.old (put_each self.old.shape (end_of side) loc ids.now self.old.table) }
    {
        edits_keep_tables_sound();
        // what is known of a sound table
        let _shape = self.shape();
        let mut left = ArrayVec::new();
        push_free(self.lists.list(from), flags, &mut left);
        self.lists.overwrite(from as usize, left.as_slice());
        let mut joined = ArrayVec::new();
        add_all(self.lists.list(loc), ids, side, &mut joined);
        self.lists.overwrite(loc as usize, joined.as_slice());
        note_move(
            &mut self.whereabouts,
            &self.shape,
            &self.lists,
            from,
            0,
            loc,
            0,
        );
        self.marks.clear_all(ids);
    }
}
