//! What isn't read changes nothing.
ghost use Rattle.rc_flow.specs.UnreadLaws.{UnreadInTests, UnreadInCards};

/// What an expression is worth doesn't hang on a variable that it doesn't read. The function does nothing: its contract
/// is a law.
pub fn unread_variables_change_nothing()
    ensures tests { UnreadInTests }
    ensures cards { UnreadInCards }
{}
