//! How many cards a sheet has. The function does nothing: its contract is the law.
ghost use Rattle.std.specs.Prelude.{◌≡◌, List, length, sum_by};
ghost use Rattle.std.specs.List.{AllZip};
ghost use Rattle.rc_base.specs.Deck.{Face, AreFaces, Groups, face_count};
ghost use Rattle.rc_sheet_spec.specs.Sheet.{DeckLine};

/// The count of a deck tree is the length of its list of faces, and the count of all decks of a sheet, which is kept
/// below the limit on cards, is the length of all their lists together.
pub fn cards_are_faces()
    ensures deck { (groups : Groups) (faces : List Face) → AreFaces groups faces → face_count groups ≡ length faces }
    ensures decks { (decks : List DeckLine) (faces : List (List Face))
        → AllZip (λ line. AreFaces line.groups) decks faces
        → sum_by (λ line. face_count line.groups) decks ≡ sum_by length faces }
{}
