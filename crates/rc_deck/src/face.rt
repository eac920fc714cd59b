//! What a card shows.
ghost use Rattle.std.specs.Prelude.{◌≡◌, ◌≢◌, ◌++◌, ◌∷◌, [], All, IfOk, IsNone, ◌↔◌};
ghost use Rattle.rc_base.specs.Deck.{value_at};

use crate::Memory;
use std::alloc::Global;
use std::marker::Model;

/// What a card shows: a list of pairs of an attribute and its value. Two faces are equal where the lists are.
#[derive(Debug, Drop)]
pub struct Face {
    pairs: Vec<(u16, u16)>,
}

impl Model for Face {
    ghost use Rattle.rc_base.specs.Deck.{Face as Pairs};

    ghost Value = { Pairs };

    ghost view = { λ f. f.pairs.items };
}

impl Face {
    /// The face with these pairs. It takes no memory.
    pub fn new(pairs: Vec<(u16, u16)>) -> Face
        ensures { result ≡ pairs.items }
    {
        Face { pairs }
    }

    /// The pairs in order.
    pub fn pairs(&self) -> &[(u16, u16)]
        ensures { result.now ≡ self.now }
    {
        self.pairs.as_slice()
    }

    // This face and one more pair behind it.
    pub(crate) fn with(self, attr: u16, value: u16) -> Result<Face, Memory>
        ensures { IfOk result (λ f. f ≡ self ++ (attr, value) ∷ []) }
    {
        let mut pairs = self.pairs;
        pairs.push((attr, value))?;
        Ok(Face { pairs })
    }

    pub(crate) fn copy(&self, alloc: Global) -> Result<Face, Memory>
        ensures { IfOk result (λ f. f ≡ self.now) }
    {
        let pairs = Vec::from_slice(alloc, self.pairs.as_slice())?;
        Ok(Face { pairs })
    }
}

/// The value that a face has for an attribute, which is that of the first pair with it.
pub fn attr(face: &Face, name: u16) -> Option<u16>
    ensures value { result ≡ value_at face.now name }
    ensures none { IsNone result ↔ All (λ pair. pair.0 ≢ name) face.now }
{
    face.pairs()
        .iter()
        .find(|pair| pair.0 == name)
        .map(|pair| pair.1)
}
