//! Cards of a location that are put on top of another one.
ghost use Rattle.std.specs.Prelude.{◌≡◌, ◌<◌, [], ◌∷◌, length, false, fold, All, IfSome, OnOk, IsOk};
ghost use Rattle.rc_play_spec.specs.Bound.{HoldsCards};
ghost use Rattle.rc_play_spec.specs.Table.{list_at, put_top};
ghost use Rattle.rc_table.specs.Laid.{relaid};
ghost use Rattle.rc_undo.specs.Piled.{piled};
ghost use Rattle.rc_undo.specs.Undo.{Keeps};

use crate::board::Board;
use arrayvec::ArrayVec;
use rc_base::limits::MOST_IN_LIST;
use rc_deck::Memory;

impl Board {
    /// Puts all cards of a location on top of a location of cards, the lowest first. Which they are is read before the
    /// first one moves, and references stay where they are.
    #[inline(always)]
    pub fn pile(&mut self, from: u16, to: u16) -> Result<(), Memory>
        requires { HoldsCards self.old.laid.shape to }
        ensures leads { OnOk result (self.new.laid
            ≡ relaid self.old.laid (piled self.old.laid.shape to from self.old.laid.table)) }
        ensures keeps { Keeps self.old self.new }
        ensures quiet { self.old.notes ≡ false → IsOk result }
    {
        // what a list keeps
        let _few = self.table().list(from);
        if self.table().shape().holds_references(from) {
            return Ok(());
        }
        pile_cards(self, from, to)
    }
}

// The same of a location of cards. One is moved without a list.
#[inline(always)]
fn pile_cards(board: &mut Board, from: u16, to: u16) -> Result<(), Memory>
    requires { HoldsCards board.old.laid.shape to }
    ensures leads { OnOk result (board.new.laid ≡ relaid board.old.laid
        (fold (λ table id. put_top board.old.laid.shape id to table) board.old.laid.table
        (list_at board.old.laid.table from))) }
    ensures keeps { Keeps board.old board.new }
    ensures quiet { board.old.notes ≡ false → IsOk result }
{
    // what a table keeps
    let _sound = board.table().shape();
    match sole(board.table().list(from)) {
        Some(id) => board.put_top(id, to),
        None => pile_many(board, from, to),
    }
}

// The id of a list of one.
#[inline(always)]
fn sole(ids: &[u16]) -> Option<u16>
    ensures { IfSome result (λ id. ids.now ≡ id ∷ []) }
{
    match ids {
        [id] => Some(*id),
        _ => None,
    }
}

// The same of however many, which are listed first.
#[inline(never)]
fn pile_many(board: &mut Board, from: u16, to: u16) -> Result<(), Memory>
    requires { HoldsCards board.old.laid.shape to }
    ensures leads { OnOk result (board.new.laid ≡ relaid board.old.laid
        (fold (λ table id. put_top board.old.laid.shape id to table) board.old.laid.table
        (list_at board.old.laid.table from))) }
    ensures keeps { Keeps board.old board.new }
    ensures quiet { board.old.notes ≡ false → IsOk result }
{
    // what a table keeps
    let _sound = board.table().shape();
    let mut ids: ArrayVec<u16, MOST_IN_LIST> = ArrayVec::new();
    let _fits = ids.try_extend_from_slice(board.table().list(from));
    board.put_all_top(ids.as_slice(), to)
}
