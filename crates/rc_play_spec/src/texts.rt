//! Laws of house texts, of either format. No function here does anything: its contract is the law.
ghost use Rattle.rc_play_spec.specs.TextParts.{TextIsOfParts};
ghost use Rattle.rc_play_spec.specs.TextLaws.{LegendIsCut, LineIsRead, ReadIsLine, PlainText, PlainIsText, TextIsHouseText, TextIsCut, LinesAreFew, TextIsRead, ReadIsText, FaultIsFirst, FirstIsFault};

/// A line is read exactly where its text stands.
pub fn lines_are_read()
    ensures again { LineIsRead }
    ensures only { ReadIsLine }
{}

/// A house text is made of its lines, and falls into them. One without marks is a text of the format without them.
pub fn texts_are_of_lines()
    ensures parts { TextIsOfParts }
    ensures plain { PlainText }
    ensures bare { PlainIsText }
    ensures house { TextIsHouseText }
    ensures cut { TextIsCut }
    ensures few { LinesAreFew }
{}

/// A house text is read exactly where its text stands.
pub fn texts_are_read()
    ensures again { TextIsRead }
    ensures only { ReadIsText }
{}

/// A fault is exactly at the first line that no house text goes on with.
pub fn faults_are_first()
    ensures only { FaultIsFirst }
    ensures again { FirstIsFault }
{}

/// A legend falls into its lines.
pub fn legends_are_cut()
    ensures { LegendIsCut }
{}
