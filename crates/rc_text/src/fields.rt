//! The parts of a text: its lines, and in a line words and numbers in their one spelling.
ghost use Rattle.std.specs.Prelude.{◌≡◌, ◌<◌, ◌≤◌, ◌^◌, ◌∷◌, [], length, IfSome, IfNone};
ghost use Rattle.rc_base.specs.Clamp.{largest_number};
ghost use Rattle.rc_base.specs.Literal.{is_digit};
ghost use Rattle.rc_play_spec.specs.Fields.{behind, digits_to, number_to, number, counted, integer};
ghost use Rattle.rc_play_spec.specs.Reading.{lines_in};
ghost use Rattle.rc_text.specs.Finds.{Finds};

use rc_base::limits;

/// The largest number of a game. The least one is as far below 0.
const LARGEST_NUMBER: u64 = limits::LARGEST_NUMBER as u64;

/// The first line, without its LF, and the bytes behind that; nothing where no LF is left.
pub fn first_line(bytes: &[u8]) -> Option<(&[u8], &[u8])>
    ensures found { IfSome result (λ x.
        lines_in bytes.now ≡ (x.0.now ∷ (lines_in x.1.now).0, (lines_in x.1.now).1)) }
    ensures shorter { IfSome result (λ x. length x.1.now < length bytes.now) }
    ensures none { IfNone result (lines_in bytes.now ≡ ([], bytes.now)) }
{
    let mut at = 0;
    while at < bytes.len() {
        if bytes[at] == b'\n' {
            return Some((&bytes[..at], &bytes[at + 1..]));
        }
        at += 1;
    }
    None
}

/// The bytes behind a word.
#[inline(always)]
pub fn behind<'a>(word: &[u8], bytes: &'a [u8]) -> Option<&'a [u8]>
    ensures { Finds (λ rest. rest.now) result (behind word.now bytes.now) }
{
    if bytes.len() < word.len() {
        return None;
    }
    let mut at = 0;
    while at < word.len() {
        if bytes[at] != word[at] {
            return None;
        }
        at += 1;
    }
    Some(&bytes[word.len()..])
}

/// A number of at most `most` behind a word, and the bytes behind it.
pub fn number<'a>(word: &[u8], most: u64, bytes: &'a [u8]) -> Option<(u64, &'a [u8])>
    requires small { most < 2 ^ 60 }
    ensures found { Finds (λ x. (x.0, x.1.now)) result (number word.now most bytes.now) }
    ensures within { IfSome result (λ x. x.0 ≤ most) }
{
    let rest = behind(word, bytes)?;
    number_to(most, rest)
}

/// A number of 1 to `most` behind a word, and the bytes behind it.
pub fn counted_number<'a>(word: &[u8], most: u64, bytes: &'a [u8]) -> Option<(u64, &'a [u8])>
    requires small { most < 2 ^ 60 }
    ensures found { Finds (λ x. (x.0, x.1.now)) result (counted word.now most bytes.now) }
    ensures within { IfSome result (λ x. x.0 ≤ most) }
{
    let (n, rest) = number(word, most, bytes)?;
    if n < 1 {
        return None;
    }
    Some((n, rest))
}

/// A number of a game behind a word, with `-` before it where it is below 0, and the bytes behind it.
pub fn integer<'a>(word: &[u8], bytes: &'a [u8]) -> Option<(i64, &'a [u8])>
    ensures { Finds (λ x. (x.0, x.1.now)) result (integer word.now largest_number bytes.now) }
{
    let rest = behind(word, bytes)?;
    match rest {
        [b'-', digits @ ..] => {
            let (n, rest) = number_to(LARGEST_NUMBER, digits)?;
            if n < 1 {
                return None;
            }
            Some((-(n as i64), rest))
        }
        _ => {
            let (n, rest) = number_to(LARGEST_NUMBER, rest)?;
            Some((n as i64, rest))
        }
    }
}

/// A number of at most `most`, and the bytes behind it. Behind a `0` no further digit belongs to it.
fn number_to(most: u64, bytes: &[u8]) -> Option<(u64, &[u8])>
    requires small { most < 2 ^ 60 }
    ensures found { Finds (λ x. (x.0, x.1.now)) result (number_to most bytes.now) }
    ensures within { IfSome result (λ x. x.0 ≤ most) }
{
    match bytes {
        [b'0', rest @ ..] => Some((0, rest)),
        [first, rest @ ..] if is_digit(*first) => {
            let n = u64::from(*first - b'0');
            if n > most {
                return None;
            }
            digits_to(most, n, rest)
        }
        _ => None,
    }
}

/// The number of the digits that come first, behind those of this one, if it is at most `most`, and the bytes behind
/// them.
fn digits_to(most: u64, from: u64, bytes: &[u8]) -> Option<(u64, &[u8])>
    requires small { most < 2 ^ 60 }
    requires within { from ≤ most }
    ensures found { Finds (λ x. (x.0, x.1.now)) result (digits_to most from bytes.now) }
    ensures within { IfSome result (λ x. x.0 ≤ most) }
{
    let mut n = from;
    let mut at = 0;
    while at < bytes.len() && is_digit(bytes[at]) {
        n = n * 10 + u64::from(bytes[at] - b'0');
        if n > most {
            return None;
        }
        at += 1;
    }
    Some((n, &bytes[at..]))
}

fn is_digit(byte: u8) -> bool
    ensures { result ≡ is_digit byte }
{
    b'0' <= byte && byte <= b'9'
}
