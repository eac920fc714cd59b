//! The lines of a house text. Every line ends with LF.
ghost use Rattle.std.specs.Prelude.{◌≡◌, ◌<◌, ◌++◌, codes, decimal, string_bytes, map, flat_map, option_map, OnOk};
ghost use Rattle.std.specs.Fmt.{signed_decimal};
ghost use Rattle.rc_base.specs.Transcript.{match_line, shuffles_line, end_line, ending_word, score_line};
ghost use Rattle.rc_base.specs.Transcript.{standing_line};
ghost use Rattle.rc_play_spec.specs.Bounds.{mark_text};
ghost use Rattle.rc_play_spec.specs.Lines.{chosen};
ghost use Rattle.rc_play_spec.specs.HouseText.{ended_text};
ghost use Rattle.rc_play_spec.specs.TextParts.{picks_text};
ghost use Rattle.rc_rules.specs.Bounds.{bound_seen, bounds_seen};
ghost use Rattle.rc_text.specs.PickText.{pick_text};
ghost use Rattle.rc_rules.specs.Record.{pick_seen, ending_seen, score_seen, record_seen, standing_seen};

use rc_rules::{Bound, Bounds, Ended, MatchRecord, Pick, Score, Standing};
use std::alloc::AllocError;
use std::fmt::Write;

/// Adds the line that a match begins with.
pub(crate) fn write_match_line(out: &mut Vec<u8>, played: &MatchRecord) -> Result<(), AllocError>
    ensures { OnOk result (out.new.items ≡ out.old.items ++ match_line (record_seen played.now)) }
{
    write_words(out, b"match ", u64::from(played.number))?;
    write_words(out, b" deal ", played.deal)?;
    write_words(out, b" seats ", played.seats)?;
    end_the_line(out)
}

/// Adds a line for each choice, with a mark for each variable that its item binds where that is told.
pub(crate) fn write_picks(
    out: &mut Vec<u8>,
    picks: &[Pick],
    bounds: &[Bounds],
) -> Result<(), AllocError>
    ensures { OnOk result (out.new.items
        ≡ out.old.items ++ picks_text (map bounds_seen bounds.now) (map pick_seen picks.now)) }
{
    for (index, pick) in picks.iter().enumerate() {
        write_choice(out, *pick, bounds.get(index))?;
    }
    Ok(())
}

// Adds the line of a choice.
#[inline(always)]
fn write_choice(out: &mut Vec<u8>, pick: Pick, bounds: Option<&Bounds>) -> Result<(), AllocError>
    ensures { OnOk result (out.new.items
        ≡ out.old.items ++ ended_text (chosen (pick_seen pick), option_map (λ b. bounds_seen b.now) bounds.entry)) }
{
    write_pick(out, pick)?;
    if let Some(bounds) = bounds {
        write_marks(out, bounds.as_slice())?;
    }
    end_the_line(out)
}

// Adds the numbers of a choice, in one piece where each of them has one digit, as most have.
fn write_pick(out: &mut Vec<u8>, pick: Pick) -> Result<(), AllocError>
    ensures { OnOk result (out.new.items ≡ out.old.items ++ pick_text (pick_seen pick)) }
{
    let Pick {
        seat,
        site,
        item,
        size,
    } = pick;
    if seat < 10 && site < 10 && item < 10 && size < 10 {
        return out.extend_from_slice(&short_line(seat, site, item as u8, size as u8));
    }
    write_numbers(out, pick)
}

// The choice of such numbers.
#[inline(always)]
fn short_line(seat: u8, site: u8, item: u8, size: u8) -> [u8; 14]
    requires seat { seat < 10 }
    requires site { site < 10 }
    requires item { item < 10 }
    requires size { size < 10 }
    ensures { result ≡ pick_text (record { seat = seat; site = site; item = item; size = size }) }
{
    let mut line = *b"choose 0 0 0 0";
    line[7] += seat;
    line[9] += site;
    line[11] += item;
    line[13] += size;
    line
}

// Adds a choice, number by number.
#[inline(never)]
fn write_numbers(out: &mut Vec<u8>, pick: Pick) -> Result<(), AllocError>
    ensures { OnOk result (out.new.items ≡ out.old.items ++ pick_text (pick_seen pick)) }
{
    write_words(out, b"choose ", u64::from(pick.seat))?;
    write_next(out, u64::from(pick.site))?;
    write_next(out, u64::from(pick.item))?;
    write_next(out, u64::from(pick.size))
}

// Adds a mark for each variable.
fn write_marks(out: &mut Vec<u8>, bounds: &[Bound]) -> Result<(), AllocError>
    ensures { OnOk result (out.new.items ≡ out.old.items ++ flat_map mark_text (map bound_seen bounds.now)) }
{
    for bound in bounds {
        write_mark(out, *bound)?;
    }
    Ok(())
}

fn write_mark(out: &mut Vec<u8>, bound: Bound) -> Result<(), AllocError>
    ensures { OnOk result (out.new.items ≡ out.old.items ++ mark_text (bound_seen bound)) }
{
    match bound {
        Bound::Player(player) => write_words(out, b" p", u64::from(player)),
        Bound::Card(face) => write_words(out, b" c", u64::from(face)),
        Bound::Group(face) => write_words(out, b" g", u64::from(face)),
    }
}

/// Adds a line for the shuffles, where there were any.
pub(crate) fn write_shuffles(out: &mut Vec<u8>, shuffles: u32) -> Result<(), AllocError>
    ensures { OnOk result (out.new.items ≡ out.old.items ++ shuffles_line shuffles) }
{
    if shuffles == 0 {
        return Ok(());
    }
    write_words(out, b"shuffles ", u64::from(shuffles))?;
    end_the_line(out)
}

/// Adds the line that tells how a match ended, and in which turn.
pub(crate) fn write_end(out: &mut Vec<u8>, stop: Ended, turn: u32) -> Result<(), AllocError>
    ensures { OnOk result (out.new.items ≡ out.old.items ++ end_line (ending_seen stop) turn) }
{
    write_words(out, end_words(stop), u64::from(turn))?;
    end_the_line(out)
}

// The words that tell how a match ended, with the spaces around the last.
fn end_words(stop: Ended) -> &'static [u8]
    ensures { result.now ≡ codes "end " ++ ending_word (ending_seen stop) ++ codes " " }
{
    match stop {
        Ended::Done => b"end done ",
        Ended::Limit => b"end limit ",
    }
}

/// Adds a line for each player's score.
pub(crate) fn write_scores(out: &mut Vec<u8>, scores: &[Score]) -> Result<(), AllocError>
    ensures { OnOk result (out.new.items ≡ out.old.items ++ flat_map score_line (map score_seen scores.now)) }
{
    for score in scores {
        write_score(out, *score)?;
    }
    Ok(())
}

fn write_score(out: &mut Vec<u8>, score: Score) -> Result<(), AllocError>
    ensures { OnOk result (out.new.items ≡ out.old.items ++ score_line (score_seen score)) }
{
    write_words(out, b"score ", u64::from(score.player))?;
    write_integer(out, score.score)?;
    write_next(out, u64::from(score.points))?;
    end_the_line(out)
}

// Adds LF.
#[inline(always)]
fn end_the_line(out: &mut Vec<u8>) -> Result<(), AllocError>
    ensures { OnOk result (out.new.items ≡ out.old.items ++ codes "\n") }
{
    out.push(b'\n')?;
    Ok(())
}

// Adds words, and a number behind them.
#[inline(always)]
pub(crate) fn write_words(out: &mut Vec<u8>, words: &[u8], number: u64) -> Result<(), AllocError>
    ensures { OnOk result (out.new.items ≡ out.old.items ++ words.now ++ decimal number) }
{
    out.extend_from_slice(words)?;
    write_number(out, number)
}

// Adds a space and a number.
fn write_next(out: &mut Vec<u8>, number: u64) -> Result<(), AllocError>
    ensures { OnOk result (out.new.items ≡ out.old.items ++ codes " " ++ decimal number) }
{
    out.push(b' ')?;
    write_number(out, number)
}

// Adds a number in decimal digits. Most have one.
fn write_number(out: &mut Vec<u8>, number: u64) -> Result<(), AllocError>
    ensures { OnOk result (out.new.items ≡ out.old.items ++ decimal number) }
{
    if number < 10 {
        out.push(b'0' + number as u8)?;
        return Ok(());
    }
    let mut digits = itoa::Buffer::new();
    out.extend_from_slice(digits.format(number).as_bytes())
}

// Adds a space and a number in decimal digits, with `-` before it where it is below 0.
fn write_integer(out: &mut Vec<u8>, number: i64) -> Result<(), AllocError>
    ensures { OnOk result (out.new.items ≡ out.old.items ++ codes " " ++ signed_decimal number) }
{
    out.push(b' ')?;
    let mut digits = itoa::Buffer::new();
    out.extend_from_slice(digits.format(number).as_bytes())
}

/// Adds a line for each strategy.
///
/// # Errors
///
/// No memory is left. Nothing is promised of `out` then, which may end within a line.
pub fn write_standings(out: &mut String, standings: &[Standing]) -> Result<(), AllocError>
    ensures { OnOk result (string_bytes out.new
        ≡ string_bytes out.old ++ flat_map standing_line (map standing_seen standings.now)) }
{
    for standing in standings {
        write_standing(out, *standing)?;
    }
    Ok(())
}

fn write_standing(out: &mut String, standing: Standing) -> Result<(), AllocError>
    ensures { OnOk result (string_bytes out.new ≡ string_bytes out.old ++ standing_line (standing_seen standing)) }
{
    let Standing {
        place,
        strategy,
        points,
    } = standing;
    writeln!(out, "standing {place} strategy {strategy} points {points}")
}
