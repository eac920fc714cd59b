//! Laws of views and their bytes. No function here does anything: a crate above gets a law by calling its function.
ghost use Rattle.rc_view.specs.Laws.{FittingControlsHaveKeys, KeysAreShort, KeysTellViews};

/// Two views of one shape have equal bytes exactly where they are equal.
#[tactic(auto, using(crate::proofs::KeyLemmas::keys_tell_views))]
pub fn keys_tell_views()
    ensures { KeysTellViews }
{}

/// What a seat sees of a table takes fewer than 8,000 bytes.
#[tactic(auto, using(crate::proofs::ShortKeys::keys_are_short))]
pub fn keys_are_short()
    ensures { KeysAreShort }
{}

/// A control that fits a choice site has room in the bytes, so what is seen at each decision of a match has its shape.
#[tactic(auto, using(crate::proofs::Fitting::fitting_controls_have_keys))]
pub fn fitting_controls_have_keys()
    ensures { FittingControlsHaveKeys }
{}
