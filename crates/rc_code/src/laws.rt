//! Laws of code. No function here does anything: a crate above gets a law by calling its function.
ghost use Rattle.rc_code.specs.Laws.{DoesInOrder, SaysWhatItStandsFor, NothingLeft, StandingImplements, SitesArePlaced};

/// Effects are done one instruction after the other.
pub fn code_is_done_in_order()
    ensures does { DoesInOrder }
    ensures nothing { NothingLeft }
{}

/// Code says what it stands for.
pub fn code_says_what_it_stands_for()
    ensures { SaysWhatItStandsFor }
{}

/// Code that stands for a well formed sheet implements it.
pub fn standing_code_implements()
    ensures { StandingImplements }
{}

/// Each choice site has its place in the code, and what is left there is what the sheet leaves at the site.
pub fn sites_are_placed()
    ensures { SitesArePlaced }
{}
