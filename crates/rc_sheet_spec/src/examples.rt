//! The definitions of sheets, computed on sheets that are known. No function here does anything: each has a contract
//! that the check proves by computing.
ghost use Rattle.std.specs.Prelude.{◌≡◌, length};
ghost use Rattle.rc_base.specs.Token.{tokens};
ghost use Rattle.rc_base.specs.Tree.{spelling};
ghost use Rattle.rc_sheet_spec.specs.Stands.{Stands};
ghost use Rattle.rc_sheet_spec.specs.WellFormed.{IsWellFormed};
ghost use Rattle.rc_sheet_spec.specs.Numbering.{IsNumbered};
ghost use Rattle.rc_sheet_spec.specs.FormMentions.{AreNames};
ghost use Rattle.rc_sheet_spec.specs.Examples.{form_of, four_cards, four_cards_text};

/// The form of the text is what the text spells.
pub fn four_cards_form()
    ensures size { length four_cards_text ≡ 463 }
    ensures spelled { spelling (form_of four_cards_text) ≡ tokens four_cards_text }
{}

/// The form stands for the sheet.
pub fn four_cards_stands()
    ensures { Stands four_cards (form_of four_cards_text) }
{}

/// Its names are numbered as they are mentioned, by the sheet and by the form.
pub fn four_cards_numbered()
    ensures sheet { IsNumbered four_cards }
    ensures form { AreNames four_cards (form_of four_cards_text) }
{}

/// It is well formed.
pub fn four_cards_well_formed()
    ensures { IsWellFormed four_cards }
{}
