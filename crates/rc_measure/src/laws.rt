//! Laws of measures. No function here does anything: a crate above gets a law by calling its function.
ghost use Rattle.rc_measure.specs.Laws.{SitesAddUp, SeatsAddUp, StrategiesAddUp, ForcedAreFew, MenusAreLong};
ghost use Rattle.rc_measure.specs.Laws.{PointsAddUp, MatchesHaveBest, BestAddUp, LeaderHasMost, LeadsAreFewer};
ghost use Rattle.rc_measure.specs.Laws.{AscendingIsInOrder, AscendingIsTheOne, TurnsAscend, MeasuresHaveNumbers};

/// The choices of all sites are all choices, and so are those of all seats and of all strategies. Of any choices at
/// most all leave nothing to choose, and their menus have at least as many items as there are choices.
pub fn choices_add_up()
    ensures sites { SitesAddUp }
    ensures seats { SeatsAddUp }
    ensures strategies { StrategiesAddUp }
    ensures forced { ForcedAreFew }
    ensures menus { MenusAreLong }
{}

/// The strategies have the rank points that the seats have. In each match there is a strategy that none has more points
/// than, so that the matches in which each is one add up to all matches at least.
pub fn points_add_up()
    ensures points { PointsAddUp }
    ensures some { MatchesHaveBest }
    ensures best { BestAddUp }
{}

/// A leader has the most points, and the lowest number of those that have. There are fewer changes than matches.
pub fn leaders_have_most()
    ensures most { LeaderHasMost }
    ensures fewer { LeadsAreFewer }
{}

/// The turn counts are told in ascending order.
pub fn turns_are_in_order()
    ensures order { AscendingIsInOrder }
    ensures only { AscendingIsTheOne }
    ensures ascend { TurnsAscend }
{}

/// Each list of measures has the numbers of its line.
pub fn measures_have_numbers()
    ensures { MeasuresHaveNumbers }
{}
