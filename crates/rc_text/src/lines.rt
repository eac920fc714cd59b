//! The lines of a house text, read.
ghost use Rattle.rc_play_spec.specs.Lines.{line_of, other_in, opening_in, chosen_in, told_in, shuffled_in, done_in};
ghost use Rattle.rc_play_spec.specs.Lines.{limit_in, scored_in, ranked_in};
ghost use Rattle.rc_play_spec.specs.Fields.{last};
ghost use Rattle.rc_rules.specs.Record.{pick_seen};
ghost use Rattle.rc_text.specs.BoundSeen.{option_seen};
ghost use Rattle.rc_text.specs.Choices.{pick_in, IsFirstChoice};
ghost use Rattle.rc_text.specs.Finds.{Finds};
ghost use Rattle.std.specs.Prelude.{◌≡◌, ◌<◌, true, length, IfSome, IsSome};
ghost use Rattle.rc_text.specs.LineSeen.{line_seen, marked_seen, choice_seen, IsTold, IsBare};

use crate::bounds::bounds_in;
use crate::fields::{counted_number, first_line, integer, number};
use rc_base::limits::{LARGEST_SEED, MOST_ITEMS, MOST_TURNS};
use rc_rules::{Bounds, Ended, Pick, Score, Standing};

/// A line of a house text behind its head.
#[derive(Drop)]
pub enum Line {
    /// The line that a match begins with.
    Opening { number: u32, deal: u64, seats: u64 },
    /// A choice, with what its item binds where the text names that.
    Chosen(Pick, Option<Bounds>),
    /// How many shuffles there were.
    Shuffled(u32),
    /// How a match ended, and in which turn.
    Ending { stop: Ended, turn: u32 },
    /// A player's score.
    Scored(Score),
    /// A strategy's place.
    Ranked(Standing),
}

/// The line that bytes spell, in a text that names what items bind or in one that doesn't. The bytes are without the
/// line's LF.
pub fn line_of(named: bool, bytes: &[u8]) -> Option<Line>
    ensures found { Finds marked_seen result (line_of named bytes.now) }
    ensures told { named ≡ true → IfSome result IsTold }
{
    match chosen_in(named, bytes) {
        Some(line) => Some(line),
        None => other_in(bytes),
    }
}

fn other_in(bytes: &[u8]) -> Option<Line>
    ensures found { Finds line_seen result (other_in bytes.now) }
    ensures bare { IfSome result IsBare }
{
    opening_in(bytes)
        .or_else(|| shuffled_in(bytes))
        .or_else(|| done_in(bytes))
        .or_else(|| limit_in(bytes))
        .or_else(|| scored_in(bytes))
        .or_else(|| ranked_in(bytes))
}

fn opening_in(bytes: &[u8]) -> Option<Line>
    ensures found { Finds line_seen result (opening_in bytes.now) }
    ensures bare { IfSome result IsBare }
{
    let (match_number, rest) = number(b"match ", 4095, bytes)?;
    let (deal, rest) = number(b" deal ", LARGEST_SEED, rest)?;
    let (seats, rest) = number(b" seats ", LARGEST_SEED, rest)?;
    let line = Line::Opening {
        number: match_number as u32,
        deal,
        seats,
    };
    last(line, rest)
}

fn chosen_in(named: bool, bytes: &[u8]) -> Option<Line>
    ensures found { Finds marked_seen result (chosen_in named bytes.now) }
    ensures told { named ≡ true → IfSome result IsTold }
{
    let (pick, rest) = pick_in(bytes)?;
    let bounds = told_in(named, rest)?;
    Some(Line::Chosen(pick, bounds))
}

/// The choice that the first line of bytes spells, with what its item binds where the text names that, and the bytes
/// behind the line. The line isn't cut first: where its numbers end, little of it is left.
pub fn first_choice(named: bool, bytes: &[u8]) -> Option<(Pick, Option<Bounds>, &[u8])>
    ensures found { IfSome result (λ x. IsFirstChoice named bytes.now (choice_seen (x.0, x.1)) x.2.now) }
    ensures told { named ≡ true → IfSome result (λ x. IsSome x.1) }
    ensures shorter { IfSome result (λ x. length x.2.now < length bytes.now) }
{
    let (pick, rest) = pick_in(bytes)?;
    let (marks, later) = first_line(rest)?;
    let bounds = told_in(named, marks)?;
    Some((pick, bounds, later))
}

/// The numbers of a choice, and the bytes behind them.
#[inline(always)]
fn pick_in(bytes: &[u8]) -> Option<(Pick, &[u8])>
    ensures { Finds (λ x. (pick_seen x.0, x.1.now)) result (pick_in bytes.now) }
{
    let (seat, rest) = number(b"choose ", 7, bytes)?;
    let (site, rest) = number(b" ", 63, rest)?;
    let (item, rest) = number(b" ", 255, rest)?;
    let (size, rest) = counted_number(b" ", MOST_ITEMS as u64, rest)?;
    let pick = Pick {
        seat: seat as u8,
        site: site as u8,
        item: item as u16,
        size: size as u16,
    };
    Some((pick, rest))
}

/// What a line tells behind the numbers of its choice: what the item binds where the text names that, else nothing.
#[inline(always)]
fn told_in(named: bool, bytes: &[u8]) -> Option<Option<Bounds>>
    ensures found { Finds option_seen result (told_in named bytes.now) }
    ensures told { named ≡ true → IfSome result (λ bounds. IsSome bounds) }
{
    if named {
        let bounds = bounds_in(bytes)?;
        Some(Some(bounds))
    } else if bytes.is_empty() {
        Some(None)
    } else {
        None
    }
}

fn shuffled_in(bytes: &[u8]) -> Option<Line>
    ensures found { Finds line_seen result (shuffled_in bytes.now) }
    ensures bare { IfSome result IsBare }
{
    let (shuffles, rest) = counted_number(b"shuffles ", 4_294_967_295, bytes)?;
    last(Line::Shuffled(shuffles as u32), rest)
}

fn done_in(bytes: &[u8]) -> Option<Line>
    ensures found { Finds line_seen result (done_in bytes.now) }
    ensures bare { IfSome result IsBare }
{
    let (turn, rest) = number(b"end done ", MOST_TURNS, bytes)?;
    let line = Line::Ending {
        stop: Ended::Done,
        turn: turn as u32,
    };
    last(line, rest)
}

fn limit_in(bytes: &[u8]) -> Option<Line>
    ensures found { Finds line_seen result (limit_in bytes.now) }
    ensures bare { IfSome result IsBare }
{
    let (turn, rest) = number(b"end limit ", MOST_TURNS, bytes)?;
    let line = Line::Ending {
        stop: Ended::Limit,
        turn: turn as u32,
    };
    last(line, rest)
}

fn scored_in(bytes: &[u8]) -> Option<Line>
    ensures found { Finds line_seen result (scored_in bytes.now) }
    ensures bare { IfSome result IsBare }
{
    let (player, rest) = number(b"score ", 7, bytes)?;
    let (score, rest) = integer(b" ", rest)?;
    let (points, rest) = number(b" ", 14, rest)?;
    let score = Score {
        player: player as u8,
        score,
        points: points as u8,
    };
    last(Line::Scored(score), rest)
}

fn ranked_in(bytes: &[u8]) -> Option<Line>
    ensures found { Finds line_seen result (ranked_in bytes.now) }
    ensures bare { IfSome result IsBare }
{
    let (place, rest) = counted_number(b"standing ", 8, bytes)?;
    let (strategy, rest) = number(b" strategy ", 7, rest)?;
    let (points, rest) = number(b" points ", 57_344, rest)?;
    let standing = Standing {
        place: place as u8,
        strategy: strategy as u8,
        points: points as u32,
    };
    last(Line::Ranked(standing), rest)
}

/// A line, if nothing follows.
fn last(line: Line, rest: &[u8]) -> Option<Line>
    ensures found { Finds line_seen result (last (line_seen line) rest.now) }
    ensures same { IfSome result (λ found. found ≡ line) }
{
    if rest.is_empty() { Some(line) } else { None }
}
