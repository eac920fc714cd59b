//! Number literals: one to eighteen digits, and in a sheet an optional `-` before them.
ghost use Rattle.std.specs.Prelude.{◌≡◌, ◌<◌, ◌≤◌, ◌^◌, ◌*◌, IsTrue, IfSome, length};
ghost use Rattle.std.specs.List.{list_all};
ghost use Rattle.rc_base.specs.Literal as literal;

/// The number that a literal without a sign spells, if the word is one.
pub fn natural(word: &[u8]) -> Option<u64>
    ensures value { result ≡ literal.natural word.now }
    ensures small { IfSome result (λ n. n < 10 ^ 18) }
{
    if word.is_empty() || word.len() > 18 || !are_digits(word) {
        return None;
    }
    Some(value_of(word))
}

/// The number that a literal spells, if the word is one.
pub fn integer(word: &[u8]) -> Option<i64>
    ensures { result ≡ literal.integer word.now }
{
    match word {
        [] => None,
        [b'-', size @ ..] => Some(-(natural(size)? as i64)),
        _ => Some(natural(word)? as i64),
    }
}

fn are_digits(word: &[u8]) -> bool
    ensures { result ≡ list_all literal.is_digit word.now }
{
    word.iter().all(|b| *b >= b'0' && *b <= b'9')
}

/// The number that digits spell in base ten.
fn value_of(digits: &[u8]) -> u64
    requires few { length digits.now ≤ 18 }
    requires digits { IsTrue (list_all literal.is_digit digits.now) }
    ensures value { result ≡ literal.value_of digits.now }
    ensures small { result < 10 ^ 18 }
{
    let mut value = 0;
    for digit in digits {
        value = value * 10 + u64::from(*digit - b'0');
    }
    value
}
