//! Reads a house text of either format, line by line.
ghost use Rattle.std.specs.Prelude.{◌≡◌, ℕ, ◌+◌, ◌≤◌, Bool, true, List, ◌++◌, [], length, IfOk, IfErr, OnOk, Ok, Err};
ghost use Rattle.rc_base.specs.Transcript.{house_text, Record};
ghost use Rattle.rc_play_spec.specs.ItemBounds.{Bound};
ghost use Rattle.rc_play_spec.specs.HouseText.{HouseText as ToldText, NamedText as PureNamed, plain, naming, unmarked};
ghost use Rattle.rc_play_spec.specs.HouseText.{lines_of, text_in, IsHouseText, IsText};
ghost use Rattle.rc_play_spec.specs.Reading.{before, lines_in, read_from, read_in};
ghost use Rattle.rc_play_spec.specs.TextLaws.{IsFirstFault, ReadIsText};
ghost use Rattle.rc_text.specs.House.{text_of, house_text_seen, named_seen, Fits};
ghost use Rattle.rc_text.specs.Gives.{Gives, IfTextFault};
ghost use Rattle.rc_text.specs.PlaceSeen.{stand_seen, open_stand, IsFit, StandsFit};

use crate::fields::first_line;
use crate::house::{HouseText, NamedText};
use crate::lines::first_choice;
use crate::places::{Matches, OpenMatch, Progress, take_bytes};
use rc_deck::Memory;
use rc_play_spec::{faults_are_first, texts_are_of_lines, texts_are_read};
use std::alloc::Global;

/// Why a text isn't read.
#[derive(Clone, Copy, PartialEq, Eq, Debug)]
pub enum TextFail {
    /// The text is no house text. This is the number of its first line, counted from 1, that can't stand there: the
    /// lines before it begin a house text, and with it they begin none. Where the text ends too early, it is the number
    /// of lines plus 1.
    Fault { line: u32 },
    /// Memory ran out.
    Memory,
}

impl From<Memory> for TextFail {
    ghost use Rattle.std.specs.Prelude.{◌≡◌};
    ghost use Rattle.rc_text.specs.declared.reading.TextFail.TheVariants as fail;

    ghost from_gives = { λ _ e. e ≡ fail.Memory };

    fn from(_: Memory) -> TextFail {
        TextFail::Memory
    }
}

/// Reads a house text: the format's line, one or more matches, and one or more standings. A match is its line, its
/// choices, the number of its shuffles unless that is 0, its end, and one or more scores. Each line ends with LF, each
/// number is within the range of its place, and each value has one spelling.
///
/// # Errors
///
/// The text is no house text, or memory ran out.
pub fn read_house(alloc: Global, bytes: &[u8]) -> Result<HouseText, TextFail>
    requires short { length bytes.now ≤ 33554432 }

    // What is read is a house text with the bytes as its text, and it has no more lines than bytes.
    ensures text { IfOk result (λ text. IsHouseText (house_text_seen text)) }
    ensures spelled { IfOk result (λ text. bytes.now ≡ text_of text) }
    ensures few { IfOk result (λ text. 1 + length (lines_of (house_text_seen text)) ≤ length bytes.now) }

    // The bytes of any house text are read as that one.
    ensures again { (told : ToldText) → IsHouseText told → bytes.now ≡ house_text told.matches told.standings
        → Gives house_text_seen result (Ok told) }

    // A fault is at the first line that no house text goes on with, and where there is such a line, it is found.
    ensures fault { IfErr result (λ fail. IfTextFault fail (IsFirstFault plain bytes.now)) }
    ensures first { (line : ℕ) → IsFirstFault plain bytes.now line → Gives house_text_seen result (Err line) }

    ensures exact { Gives (λ text. unmarked (house_text_seen text)) result (read_in plain bytes.now) }
{
    texts_are_of_lines();
    texts_are_read();
    faults_are_first();
    without_marks(read_lines(alloc, false, b"house 1\n", b"", bytes))
}

/// What was read of a text that has no marks.
fn without_marks(read: Result<NamedText, TextFail>) -> Result<HouseText, TextFail>
    ensures { (bytes : List ℕ) → ReadIsText → Gives named_seen read (read_in plain bytes)
        → Gives (λ text. unmarked (house_text_seen text)) result (read_in plain bytes) }
{
    match read {
        Ok(named) => Ok(named.text),
        Err(fail) => Err(fail),
    }
}

/// Reads a house text that names what items bind: the format's line, this legend, and then as `read_house`, but that
/// choices have their marks. The legend's lines end with LF.
///
/// # Errors
///
/// The text is none with this legend, or memory ran out.
pub fn read_named(alloc: Global, legend: &[u8], bytes: &[u8]) -> Result<NamedText, TextFail>
    requires short { length bytes.now ≤ 33554432 }
    requires legend { (lines_in legend.now).1 ≡ [] }
    ensures text { IfOk result (λ named. IsText true (named_seen named)) }
    ensures fits { IfOk result Fits }
    ensures spelled { IfOk result (λ named.
        bytes.now ≡ text_in (naming (lines_in legend.now).0) (named_seen named)) }
    ensures few { IfOk result (λ named.
        length (naming (lines_in legend.now).0).head + length (lines_of (house_text_seen named.text))
        ≤ length bytes.now) }
    ensures again { (told : PureNamed) → IsText true told → bytes.now ≡ text_in (naming (lines_in legend.now).0) told
        → Gives named_seen result (Ok told) }
    ensures fault { IfErr result (λ fail. IfTextFault fail (IsFirstFault (naming (lines_in legend.now).0) bytes.now)) }
    ensures first { (line : ℕ) → IsFirstFault (naming (lines_in legend.now).0) bytes.now line
        → Gives named_seen result (Err line) }
    ensures exact { Gives named_seen result (read_in (naming (lines_in legend.now).0) bytes.now) }
{
    texts_are_of_lines();
    texts_are_read();
    faults_are_first();
    read_lines(alloc, true, b"house 2\n", legend, bytes)
}

/// Reads the lines in turn: the first line of the head, the legend, and what stands behind them.
fn read_lines(
    alloc: Global,
    named: bool,
    first: &[u8],
    legend: &[u8],
    bytes: &[u8],
) -> Result<NamedText, TextFail>
    requires short { length bytes.now ≤ 33554432 }
    requires first { (lines_in first.now).1 ≡ [] }
    requires legend { (lines_in legend.now).1 ≡ [] }
    ensures reads { Gives named_seen result
        (read_in (record { head = (lines_in first.now).0 ++ (lines_in legend.now).0; named = named }) bytes.now) }
    ensures fits { named ≡ true → IfOk result Fits }
{
    let (number, rest) = behind_head(first, 1, bytes)?;
    let (number, rest) = behind_head(legend, number, rest)?;
    read_body(alloc, named, number, rest)
}

/// The number of the line behind these lines of the head, from the line of this number on, and the bytes behind them.
fn behind_head<'a>(head: &[u8], from: u32, bytes: &'a [u8]) -> Result<(u32, &'a [u8]), TextFail>
    requires short { from + length bytes.now ≤ 33554433 }
    requires head { (lines_in head.now).1 ≡ [] }
    ensures behind { IfOk result (λ x. (named : Bool) (more : List (List ℕ)) →
        read_from named from (before ((lines_in head.now).0 ++ more)) (lines_in bytes.now).0 (lines_in bytes.now).1
        ≡ read_from named x.0 (before more) (lines_in x.1.now).0 (lines_in x.1.now).1) }
    ensures short { IfOk result (λ x. x.0 + length x.1.now ≤ from + length bytes.now) }
    ensures fault { IfErr result (λ fail. IfTextFault fail (λ line. (named : Bool) (more : List (List ℕ)) →
        read_from named from (before ((lines_in head.now).0 ++ more)) (lines_in bytes.now).0 (lines_in bytes.now).1
        ≡ Err line)) }
{
    let mut number = from;
    let mut wanted = head;
    let mut rest = bytes;
    while let Some((want, later)) = first_line(wanted) {
        match first_line(rest) {
            Some((line, behind)) if line == want => {
                number += 1;
                wanted = later;
                rest = behind;
            }
            _ => return Err(TextFail::Fault { line: number }),
        }
    }
    Ok((number, rest))
}

/// Reads the lines behind the head, the first of which has this number.
fn read_body(alloc: Global, named: bool, from: u32, bytes: &[u8]) -> Result<NamedText, TextFail>
    requires short { from + length bytes.now ≤ 33554433 }
    ensures reads { Gives named_seen result
        (read_from named from (before []) (lines_in bytes.now).0 (lines_in bytes.now).1) }
    ensures fits { named ≡ true → IfOk result Fits }
{
    let mut place = Progress::Headed;
    let mut number = from;
    let mut rest = bytes;
    while let Some((line, later)) = first_line(rest) {
        let Some(next) = take_bytes(alloc, named, place, line)? else {
            return Err(TextFail::Fault { line: number });
        };
        let (further, behind, after) = with_choices(named, next, number + 1, later)?;
        place = further;
        number = behind;
        rest = after;
    }
    if !rest.is_empty() {
        return Err(TextFail::Fault { line: number });
    }
    match place {
        Progress::Ranking(Matches { records, bounds }, standings) => Ok(NamedText {
            text: HouseText {
                matches: records,
                standings,
            },
            bounds,
        }),
        _ => Err(TextFail::Fault { line: number }),
    }
}

/// Where the text stands behind the choices that come next, the number of the line behind them, and the bytes from
/// there on. Choices stand in a match, and are most of a text's lines.
fn with_choices(
    named: bool,
    place: Progress,
    from: u32,
    bytes: &[u8],
) -> Result<(Progress, u32, &[u8]), Memory>
    requires short { from + length bytes.now ≤ 33554433 }
    ensures reads { IfOk result (λ x. read_from named from (stand_seen place) (lines_in bytes.now).0
        (lines_in bytes.now).1
        ≡ read_from named x.1 (stand_seen x.0) (lines_in x.2.now).0 (lines_in x.2.now).1) }
    ensures short { IfOk result (λ x. x.1 + length x.2.now ≤ from + length bytes.now) }
    ensures shorter { IfOk result (λ x. length x.2.now ≤ length bytes.now) }
    ensures fit { named ≡ true → StandsFit place → IfOk result (λ x. StandsFit x.0) }
{
    match place {
        Progress::Playing(before, mut played) => {
            let (number, rest) = take_choices(named, &mut played, from, bytes)?;
            Ok((Progress::Playing(before, played), number, rest))
        }
        other => Ok((other, from, bytes)),
    }
}

/// Takes the choices that come next into an open match, and tells the number of the line behind them and the bytes from
/// there on.
fn take_choices<'a>(
    named: bool,
    played: &mut OpenMatch,
    from: u32,
    bytes: &'a [u8],
) -> Result<(u32, &'a [u8]), Memory>
    requires short { from + length bytes.now ≤ 33554433 }
    ensures reads { IfOk result (λ x. (before : List Record) (marks : List (List Bound)) →
        read_from named from (open_stand before marks played.old) (lines_in bytes.now).0 (lines_in bytes.now).1
        ≡ read_from named x.0 (open_stand before marks played.new) (lines_in x.1.now).0 (lines_in x.1.now).1) }
    ensures short { IfOk result (λ x. x.0 + length x.1.now ≤ from + length bytes.now) }
    ensures shorter { IfOk result (λ x. length x.1.now ≤ length bytes.now) }
    ensures fit { named ≡ true → IsFit played.old → OnOk result (IsFit played.new) }
{
    let mut number = from;
    let mut rest = bytes;
    while let Some((pick, bounds, later)) = first_choice(named, rest) {
        played.choose(pick, bounds)?;
        number += 1;
        rest = later;
    }
    Ok((number, rest))
}
