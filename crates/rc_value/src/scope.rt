//! Variables.
ghost use Rattle.std.specs.Prelude.{◌≡◌, ◌+◌, ◌<◌, ◌≤◌, [], ◌∷◌, ◌++◌, length, slice_get, option_map};

use crate::collection::Collection;
use crate::{Card, Cards};
use std::marker::Model;

/// What a variable stands for.
#[derive(Clone, Copy)]
pub enum Bind<'g> {
    Player(u8),
    Card(Card),
    Group(&'g Cards),
}

/// The variables in scope, from outside to inside.
#[derive(Drop)]
pub struct Bindings<'g> {
    binds: [Bind<'g>; 5],
    count: usize,
}

impl<'g> Model for Bindings<'g> {
    ghost use Rattle.std.specs.Prelude.{List, ◌≡◌, ◌≤◌, length, map, take};
    ghost use Rattle.rc_play_spec.specs.Value.{Bind as PureBind};
    ghost use Rattle.rc_play_spec.specs.Scene.{CardValue};

    ghost Value = { List (PureBind CardValue) };

    ghost use Rattle.rc_value.specs.Seen.{bind_seen};

    ghost view = { λ s. map bind_seen (take s.count s.binds) };

    ghost invariant = { λ s. (s.count ≤ 5) × (length s.binds ≡ 5) };
}

impl<'g> Bindings<'g> {
    ghost use Rattle.std.specs.Prelude.{List};
    ghost use Rattle.rc_play_spec.specs.Value.{Bind as PureBind, player_of, card_of, group_of, cut};
    ghost use Rattle.rc_play_spec.specs.Scene.{CardValue, id_of};
    ghost use Rattle.rc_value.specs.Seen.{bind_seen};
    ghost use Rattle.rc_value.specs.Cards.{value_seen};

    /// No variable.
    pub fn empty() -> Bindings<'g>
        ensures { result ≡ [] }
    {
        Bindings {
            binds: [Bind::Player(0); 5],
            count: 0,
        }
    }

    /// These variables and one more inside them.
    #[inline(always)]
    pub fn with(&self, bind: Bind<'g>) -> Bindings<'g>
        requires { length self.now < 5 }
        ensures { result ≡ self.now ++ bind_seen bind.entry ∷ [] }
    {
        let mut binds = self.binds;
        binds[self.count] = bind;
        Bindings {
            binds,
            count: self.count + 1,
        }
    }

    /// Lets the innermost variable stand for something else.
    #[inline(always)]
    pub fn rebind(&mut self, bind: Bind<'g>)
        requires { 0 < length self.old }
        ensures { (vars : List (PureBind CardValue)) (m : PureBind CardValue) → self.old ≡ vars ++ m ∷ []
            → self.new ≡ vars ++ bind_seen bind.entry ∷ [] }
    {
        let last = self.count - 1;
        let binds = &mut self.binds[..];
        binds[last] = bind;
    }

    /// How many variables there are.
    #[inline(always)]
    pub fn len(&self) -> usize
        ensures { result ≡ length self.now }
    {
        self.count
    }

    // What a variable stands for, if there is one.
    #[inline(always)]
    fn bind(&self, var: u8) -> Option<Bind<'g>>
        ensures { option_map bind_seen result ≡ slice_get self.now var }
    {
        match self.binds[..self.count].get(var as usize) {
            Some(bind) => Some(*bind),
            None => None,
        }
    }

    /// The player that a variable stands for, or 0.
    #[inline(always)]
    pub fn player(&self, var: u8) -> u8
        ensures { result ≡ player_of (slice_get self.now var) }
    {
        match self.bind(var) {
            Some(Bind::Player(player)) => player,
            _ => 0,
        }
    }

    /// The group that a variable stands for.
    pub fn group(&self, var: u8) -> Collection<'g>
        ensures { result ≡ cut (group_of (slice_get self.now var)) }
    {
        match self.bind(var) {
            Some(Bind::Group(cards)) => Collection::part(cards.as_slice()),
            _ => Collection::of_cards(&[]),
        }
    }

    /// The id of the card that a variable stands for.
    #[inline(always)]
    pub(crate) fn id(&self, var: u8) -> Option<u16>
        ensures { result ≡ option_map id_of (card_of (slice_get self.now var)) }
    {
        match self.bind(var) {
            Some(Bind::Card(card)) => Some(card.id()),
            _ => None,
        }
    }

    /// The card that a variable stands for.
    #[inline(always)]
    pub fn card(&self, var: u8) -> Option<Card>
        ensures { option_map value_seen result ≡ card_of (slice_get self.now var) }
    {
        match self.bind(var) {
            Some(Bind::Card(card)) => Some(card),
            _ => None,
        }
    }
}
