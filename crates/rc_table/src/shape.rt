//! The shape of a sheet.
ghost use Rattle.std.specs.Prelude.{◌≡◌, ◌≤◌, true, length, slice_get, slice_index_or, option_map, IfOk};
ghost use Rattle.rc_play_spec.specs.Shape.{team_at, face_at, holds_references};
ghost use Rattle.rc_table.specs.Laid.{room_in};
ghost use Rattle.rc_table.specs.Places.{place_seen};
ghost use Rattle.rc_table.specs.Shape.{IsShape, shape_of_parts, face_numbers_of, face_or_none, mems_among};

use crate::faces::face_numbers_of;
use crate::place::{Place, mems_among};
use rc_base::LocKind;
use rc_base::limits::MOST_IN_MEM;
use rc_deck::{Face, Memory};
use std::alloc::Global;
use std::marker::Model;

/// How many players there are, each player's team, the locations in their order, how many numbers there are, and each
/// card's face and first location.
///
/// It keeps the limits: 1 to 8 players, at most 512 cards, 256 locations and 256 numbers. Owners are players and teams
/// that are there, and each card begins in a location that is no `mem`.
#[derive(Debug, Drop)]
pub struct Shape {
    players: u8,
    team_of: Vec<u8>,
    places: Vec<Place>,
    numbers: u16,
    faces: Vec<Face>,
    // the number of each card's face
    face_numbers: Vec<u16>,
    home: Vec<u16>,
    // how many locations hold references
    mems: u16,
}

impl Model for Shape {
    ghost use Rattle.std.specs.Coded.{codes};
    ghost use Rattle.rc_play_spec.specs.Shape.{Shape as PureShape};

    ghost Value = { PureShape };

    ghost coded = { Prim.hlevel codes };

    ghost use Rattle.std.specs.Prelude.{◌≡◌};
    ghost use Rattle.std.specs.Prelude.{map};
    ghost use Rattle.rc_table.specs.Places.{place_seen};
    ghost use Rattle.rc_table.specs.Shape.{IsShape, shape_of_parts, face_numbers_of, mems_among};

    ghost view = { λ s. shape_of_parts s.players s.team_of.items s.places.items s.numbers s.faces.items s.home.items };

    ghost invariant = { λ s. IsShape
        (shape_of_parts s.players s.team_of.items s.places.items s.numbers s.faces.items s.home.items)
        × (s.face_numbers.items ≡ face_numbers_of s.faces.items)
        × (s.mems ≡ mems_among (map place_seen s.places.items)) };
}

impl Shape {
    /// A shape of these parts. It finds the number of each card's face, by which later calls tell faces, and how many
    /// locations hold references.
    pub fn new(
        alloc: Global,
        players: u8,
        team_of: Vec<u8>,
        places: Vec<Place>,
        numbers: u16,
        faces: Vec<Face>,
        home: Vec<u16>,
    ) -> Result<Shape, Memory>
        requires { IsShape (shape_of_parts players team_of.items places.items numbers faces.items home.items) }
        ensures { IfOk result (λ shape. shape
            ≡ shape_of_parts players team_of.items places.items numbers faces.items home.items) }
    {
        let face_numbers = face_numbers_of(alloc, &faces)?;
        let mems = mems_among(&places);
        Ok(Shape {
            players,
            team_of,
            places,
            numbers,
            faces,
            face_numbers,
            home,
            mems,
        })
    }

    /// How many players there are.
    pub fn players(&self) -> u8
        ensures players { result ≡ self.now.players }
        ensures limits { IsShape self.now }
    {
        self.players
    }

    /// A player's team, or 0 where there is no such player.
    pub fn team_of(&self, player: u8) -> u8
        ensures { result ≡ team_at self.now player }
    {
        match self.team_of.get(player as usize) {
            Some(team) => *team,
            None => 0,
        }
    }

    /// How many locations there are.
    pub fn locations(&self) -> u16
        ensures { result ≡ length self.now.places }
    {
        self.places.len() as u16
    }

    /// The location with this number, if there is one.
    pub fn place(&self, loc: u16) -> Option<Place>
        ensures { option_map place_seen result ≡ slice_get self.now.places loc }
    {
        self.places.get(loc as usize).copied()
    }

    /// Whether the location with this number holds references, and not cards.
    pub fn holds_references(&self, loc: u16) -> bool
        ensures { result ≡ holds_references (slice_get self.now.places loc) }
    {
        matches!(
            self.place(loc),
            Some(Place {
                kind: LocKind::Mem,
                ..
            })
        )
    }

    /// Whether the location is one of two at most that hold references.
    #[inline(always)]
    pub(crate) fn is_of_two(&self, loc: u16) -> bool
        ensures holds { result ≡ true → holds_references (slice_get self.now.places loc) ≡ true }
        ensures few { result ≡ true → mems_among self.now.places ≤ 2 }
    {
        self.mems <= 2 && self.holds_references(loc)
    }

    /// How many numbers there are.
    pub fn numbers(&self) -> u16
        ensures { result ≡ self.now.numbers }
    {
        self.numbers
    }

    /// How many cards there are.
    pub fn cards(&self) -> u16
        ensures { result ≡ length self.now.faces }
    {
        self.faces.len() as u16
    }

    /// The face of a card, if there is such a card.
    pub fn face(&self, id: u16) -> Option<&Face>
        ensures { face_at self.now id ≡ face_or_none (option_map (λ face. face.now) result) }
    {
        self.faces.get(id as usize)
    }

    /// The number of each card's face: the smallest id of a card with that face.
    pub(crate) fn face_numbers(&self) -> &[u16]
        ensures { result.now ≡ face_numbers_of self.now.faces }
    {
        &self.face_numbers
    }

    /// The location that a card begins in, or 0 where there is no such card.
    pub fn home(&self, id: u16) -> u16
        ensures { result ≡ slice_index_or self.now.home id 0 }
    {
        match self.home.get(id as usize) {
            Some(loc) => *loc,
            None => 0,
        }
    }

    /// The most ids that a location may hold: 512 references, or else as many cards as there are.
    pub(crate) fn room_of(&self, loc: u16) -> u16
        ensures { result ≡ room_in self.now (slice_get self.now.places loc) }
    {
        if self.holds_references(loc) {
            MOST_IN_MEM as u16
        } else {
            self.faces.len() as u16
        }
    }
}
