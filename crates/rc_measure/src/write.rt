//! The text of measures. Every line ends with LF.
ghost use Rattle.std.specs.Prelude.{◌≡◌, ◌++◌, ◌<◌, length, codes, map, flat_map, string_bytes, IfOk, OnOk};
ghost use Rattle.rc_measure.specs.Text.{fraction_line, row_line, matches_text, head_text, measures_text, HasNumbers};
ghost use Rattle.rc_measure.specs.Seen.{measures_seen};

use crate::measures::Measures;
use rc_deck::Memory;
use std::alloc::{AllocError, Global};
use std::fmt::Write;

/// The text of measures: the format's line, and a line for each row of numbers.
///
/// # Errors
///
/// No memory is left.
pub fn write_measures(alloc: Global, m: &Measures) -> Result<Vec<u8>, Memory>
    requires { HasNumbers (measures_seen m.now) }
    ensures { IfOk result (λ bytes. bytes.items ≡ measures_text (measures_seen m.now)) }
{
    let mut out = String::new(alloc);
    write_head(&mut out, m)?;
    write_row(&mut out, "turns", &m.turns)?;
    write_rows(&mut out, "site", &m.sites)?;
    write_rows(&mut out, "seat", &m.seats)?;
    write_rows(&mut out, "strategy", &m.strategies)?;
    Ok(out.into_bytes())
}

// The lines of two numbers.
fn write_head(out: &mut String, m: &Measures) -> Result<(), AllocError>
    requires { HasNumbers (measures_seen m.now) }
    ensures { OnOk result (string_bytes out.new ≡ string_bytes out.old ++ head_text (measures_seen m.now)) }
{
    write_matches(out, m)?;
    write_fraction(out, "choices ", &m.choices)?;
    write_fraction(out, "forced ", &m.forced)?;
    write_fraction(out, "menu ", &m.menu)?;
    write_fraction(out, "spread ", &m.spread)?;
    write_fraction(out, "leads ", &m.leads)?;
    Ok(())
}

// The format's line, and how many matches there are.
fn write_matches(out: &mut String, m: &Measures) -> Result<(), AllocError>
    requires { length m.now.matches.items ≡ 2 }
    ensures { OnOk result (string_bytes out.new ≡ string_bytes out.old ++ matches_text (measures_seen m.now)) }
{
    writeln!(
        out,
        "measure 1\nmatches {} limits {}",
        m.matches[0], m.matches[1]
    )
}

// A fraction as it is.
fn write_fraction(out: &mut String, word: &str, row: &[i64]) -> Result<(), AllocError>
    requires { length row.now ≡ 2 }
    ensures { OnOk result (string_bytes out.new ≡ string_bytes out.old ++ fraction_line word.now row.now) }
{
    writeln!(out, "{word}{}/{}", row[0], row[1])
}

fn write_rows(out: &mut String, word: &str, rows: &[Vec<i64>]) -> Result<(), AllocError>
    ensures { OnOk result (string_bytes out.new
        ≡ string_bytes out.old ++ flat_map (row_line word.now) (map (λ row. row.items) rows.now)) }
{
    for row in rows {
        write_row(out, word, row)?;
    }
    Ok(())
}

// A word, and numbers behind it.
fn write_row(out: &mut String, word: &str, row: &[i64]) -> Result<(), AllocError>
    ensures { OnOk result (string_bytes out.new ≡ string_bytes out.old ++ row_line word.now row.now) }
{
    out.push_str(word)?;
    for number in row {
        write!(out, " {number}")?;
    }
    writeln!(out)
}
