//! Laws of sound tables in matches. No function here does anything: a crate above gets a law by calling its function.
ghost use Rattle.rc_play_spec.specs.SoundLaws.{SheetsHaveHomes, OpeningIsSound, EffectsKeepSound, ReachedIsSound, ReachedViewsAreOfSound, MatchesDealOrders, DecisionsCanBeRedrawn};

/// The cards of a well formed sheet begin in locations of cards, and so the opening table is sound.
pub fn opening_tables_are_sound()
    ensures homes { SheetsHaveHomes }
    ensures sound { OpeningIsSound }
{}

/// Effects of a well formed sheet leave a sound table sound.
pub fn effects_keep_tables_sound()
    ensures { EffectsKeepSound }
{}

/// Wherever items lead in a match of a well formed sheet, the table is sound, so that each view there can be redrawn.
pub fn tables_of_matches_are_sound()
    ensures tables { ReachedIsSound }
    ensures views { ReachedViewsAreOfSound }
    ensures orders { MatchesDealOrders }
{}

/// At each decision what the mover sees can be redrawn: the table is sound, has that view, and has the same menu.
pub fn decisions_can_be_redrawn()
    ensures { DecisionsCanBeRedrawn }
{}
