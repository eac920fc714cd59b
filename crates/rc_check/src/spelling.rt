//! Which keyword a word spells.
ghost use Rattle.std.specs.Prelude.{◌≡◌};
ghost use Rattle.rc_check.specs.Spelling as spec;

use crate::atoms::is_word;
use crate::keyword::Keyword;

/// The keyword that a word spells. It is looked for among those alone that begin with the same byte, of which those
/// that stand most often in sheets come first.
pub fn keyword_of(word: &[u8]) -> Option<Keyword>
    ensures { result ≡ spec.keyword_of word.now }
{
    let first = word.first()?;
    match *first {
        b'!' => keyword_among(&[Keyword::NotEqual], word),
        b'*' => keyword_among(&[Keyword::Times], word),
        b'+' => keyword_among(&[Keyword::Plus], word),
        b'-' => keyword_among(&[Keyword::Minus], word),
        b'<' => keyword_among(&[Keyword::Less, Keyword::LessOrEqual], word),
        b'=' => keyword_among(&[Keyword::Equal], word),
        b'>' => keyword_among(&[Keyword::More, Keyword::MoreOrEqual], word),
        b'a' => keyword_among(
            &[Keyword::All, Keyword::And, Keyword::Attr, Keyword::Any],
            word,
        ),
        b'b' => keyword_among(&[Keyword::Bottom], word),
        b'c' => keyword_among(
            &[
                Keyword::Current,
                Keyword::Cycle,
                Keyword::Choice,
                Keyword::Create,
            ],
            word,
        ),
        b'd' => keyword_among(&[Keyword::Do, Keyword::Dec, Keyword::Deck], word),
        b'e' => keyword_among(&[Keyword::End], word),
        b'f' => keyword_among(&[Keyword::Filter, Keyword::Forget], word),
        b'g' => keyword_among(&[Keyword::Game], word),
        b'h' => keyword_among(&[Keyword::Hloc], word),
        b'i' => keyword_among(
            &[Keyword::If, Keyword::Inc, Keyword::Is, Keyword::Iloc],
            word,
        ),
        b'k' => keyword_among(&[Keyword::Known], word),
        b'm' => keyword_among(
            &[Keyword::Move, Keyword::Max, Keyword::Min, Keyword::Mem],
            word,
        ),
        b'n' => keyword_among(&[Keyword::Not, Keyword::Next], word),
        b'o' => keyword_among(&[Keyword::Or, Keyword::Of], word),
        b'p' => keyword_among(
            &[
                Keyword::Points,
                Keyword::Peek,
                Keyword::Partition,
                Keyword::Put,
                Keyword::Player,
                Keyword::Players,
            ],
            word,
        ),
        b'r' => keyword_among(
            &[Keyword::Repeat, Keyword::Remember, Keyword::Reverse],
            word,
        ),
        b's' => keyword_among(
            &[
                Keyword::Size,
                Keyword::Set,
                Keyword::Sum,
                Keyword::Stage,
                Keyword::Shuffle,
                Keyword::Scoring,
                Keyword::Setup,
                Keyword::Sto,
            ],
            word,
        ),
        b't' => keyword_among(&[Keyword::Top, Keyword::Team, Keyword::Teams], word),
        b'u' => keyword_among(&[Keyword::Union, Keyword::Using], word),
        b'v' => keyword_among(&[Keyword::Vloc], word),
        _ => None,
    }
}

/// The first of these keywords that a word spells. It is compiled for each row of them, whose bytes are known there.
#[inline(always)]
fn keyword_among(keywords: &[Keyword], word: &[u8]) -> Option<Keyword>
    ensures { result ≡ spec.keyword_among keywords.now word.now }
{
    for keyword in keywords {
        if is_word(*keyword, word) {
            return Some(*keyword);
        }
    }
    None
}
