//! The text of the trick game, and the law that it is accepted.
ghost use Rattle.std.specs.Prelude.{◌≡◌, ◌≤◌, ℕ, List, [], ◌∷◌, length, None};
ghost use Rattle.rc_base.specs.Tree.{Tree};
ghost use Rattle.rc_base.specs.Spelled.{Spelled};
ghost use Rattle.rc_base.specs.Limits.{longest_source};
ghost use Rattle.rc_form.specs.FormFault.{IsFormFault};
ghost use Rattle.rc_form.specs.declared.fault.FormKind.{FormKind};
ghost use Rattle.rc_sheet_spec.specs.Sheet.{Sheet};
ghost use Rattle.rc_sheet_spec.specs.Sight.{IsUnseen};
ghost use Rattle.rc_check.specs.SecondFaults.{sheet_fault};
ghost use Rattle.rc_sheet.specs.Accepted.{IsSheetOf};
ghost use Rattle.rc_trick.specs.Trick.{trick_text, IsTrickGame};

/// The text of the trick game.
pub fn trick_text() -> &'static [u8]
    ensures text { result.now ≡ trick_text }
    ensures small { length result.now ≤ longest_source }
{
    b"(game\n\
      (setup (create players 4)\n\
      (create deck (game hloc STOCK) (deck (RANK (3 4 5 6 7 8 9 10)) (SUIT (C D H S))))\n\
      (create deck (game hloc STOCK) (deck (RANK (A)) (SUIT (C D H))))\n\
      (put points POWER ((RANK (3) 3) (RANK (4) 4) (RANK (5) 5) (RANK (6) 6) (RANK (7) 7)\n\
      (RANK (8) 8) (RANK (9) 9) (RANK (10) 10) (RANK (A) 11))))\n\
      (do (shuffle (game hloc STOCK))\n\
      (all player 'P (repeat 6 (move (top (game hloc STOCK)) (top ('P iloc HAND))))))\n\
      (stage player (end (all player 'P (= (size ('P iloc HAND)) 0)))\n\
      (stage player (end (all player 'P (= (size ('P vloc TRICK)) 1)))\n\
      (choice (any ((current player) iloc HAND) 'C\n\
      (if (or (= (size (game mem LEAD)) 0)\n\
      (= (attr 'C SUIT) (attr (top (game mem LEAD)) SUIT))\n\
      (not (any ((current player) iloc HAND) 'D\n\
      (= (attr 'D SUIT) (attr (top (game mem LEAD)) SUIT)))))\n\
      (if (= (size (game mem LEAD)) 0) (remember 'C (top (game mem LEAD))))\n\
      (move 'C (top ((current player) vloc TRICK)))))))\n\
      (do (set (game sto BEST) 0)\n\
      (all player 'P\n\
      (if (and (= (attr (top ('P vloc TRICK)) SUIT) (attr (top (game mem LEAD)) SUIT))\n\
      (> (points (top ('P vloc TRICK)) using POWER) (game sto BEST)))\n\
      (set (game sto BEST) (points (top ('P vloc TRICK)) using POWER))\n\
      (all player 'Q (set ('Q sto LAST) 0))\n\
      (set ('P sto LAST) 1)\n\
      (cycle next 'P)))\n\
      (all player 'P (move all ('P vloc TRICK) (top (game vloc USED))))\n\
      (forget (top (game mem LEAD)))))\n\
      (scoring max ('SELF sto LAST)))\n"
}

/// The text of the trick game spells one form and nothing else, and that form is accepted as one sheet, for 4 players.
/// The function does nothing: its contract is the law.
pub fn the_trick_game_is_accepted()
    ensures some { (sheet : Sheet) × IsTrickGame sheet }
    ensures one { (sheet other : Sheet) → IsTrickGame sheet → IsTrickGame other → other ≡ sheet }
    ensures players { (sheet : Sheet) → IsTrickGame sheet → sheet.players ≡ 4 }

    // So what reads the text as a sheet finds the one form, no fault on the way, and that sheet.
    ensures no_form_fault { (kind : FormKind) (at : ℕ) → IsFormFault trick_text 1 kind at → ⊥ }
    ensures one_form { (forms : List Tree) (rest : ℕ) → Spelled trick_text 1 forms rest
        → (form : Tree) × (forms ≡ form ∷ []) × (rest ≡ length trick_text) }
    ensures no_part_fault { (form : Tree) (others : List Tree) (rest : ℕ) → Spelled trick_text 1 (form ∷ others) rest
        → sheet_fault form ≡ None }
    ensures no_sight_fault { (form : Tree) (others : List Tree) (rest : ℕ) (sheet : Sheet) (at : ℕ)
        → Spelled trick_text 1 (form ∷ others) rest → IsSheetOf form sheet → IsUnseen sheet at → ⊥ }
    ensures game { (form : Tree) (others : List Tree) (rest : ℕ) (sheet : Sheet)
        → Spelled trick_text 1 (form ∷ others) rest → IsSheetOf form sheet → IsTrickGame sheet }
{}
