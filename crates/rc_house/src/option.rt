//! One option in a list of words.
ghost use Rattle.std.specs.Prelude.{ℕ, ◌≡◌, ◌↔◌, ◌++◌, List, Some, map, codes, string_bytes, option_map};
ghost use Rattle.std.specs.Prelude.{IsTrue, IfSome, IsSomeAnd};
ghost use Rattle.rc_house.specs.Words.{IsFirst, name_of};

/// An option of `play` and `bench`.
#[derive(Clone, Copy, Debug, PartialEq, Eq)]
pub(crate) enum OptionName {
    /// How many threads play.
    Workers,
    /// How many totals are kept.
    Cache,
    /// What a transcript tells.
    Format,
}

impl OptionName {
    /// The word that names the option and has its text behind it.
    fn flag(self) -> &'static [u8]
        ensures { result.now ≡ codes "--" ++ name_of self }
    {
        match self {
            OptionName::Workers => b"--workers",
            OptionName::Cache => b"--cache",
            OptionName::Format => b"--format",
        }
    }

    /// How a word begins that names the option and holds its text.
    fn head(self) -> &'static [u8]
        ensures { result.now ≡ codes "--" ++ name_of self ++ codes "=" }
    {
        match self {
            OptionName::Workers => b"--workers=",
            OptionName::Cache => b"--cache=",
            OptionName::Format => b"--format=",
        }
    }
}

/// Whether the word alone gives the option this text.
fn is_joined(word: &String, name: OptionName, text: &str) -> bool
    ensures { IsTrue result ↔ (string_bytes word.now ≡ codes "--" ++ name_of name ++ codes "=" ++ text.now) }
{
    match word.as_bytes().strip_prefix(name.head()) {
        Some(rest) => rest == text.as_bytes(),
        None => false,
    }
}

/// Whether two words give the option this text.
fn is_pair(word: &String, value: &String, name: OptionName, text: &str) -> bool
    ensures { IsTrue result
        ↔ ((string_bytes word.now ≡ codes "--" ++ name_of name) × (string_bytes value.now ≡ text.now)) }
{
    word.as_bytes() == name.flag() && value.as_str() == text
}

/// The words behind the option, where it has a text and the first one or two words give it this text.
pub(crate) fn behind_option<'a>(
    words: &'a [String],
    name: OptionName,
    text: Option<&str>,
) -> Option<&'a [String]>
    ensures some { IfSome result (λ rest. IsFirst name (option_map (λ s. s.now) text.entry) (map string_bytes words.now)
        (map string_bytes rest.now)) }
    ensures only { (back : List (List ℕ))
        → IsFirst name (option_map (λ s. s.now) text.entry) (map string_bytes words.now) back
        → IsSomeAnd result (λ rest. map string_bytes rest.now ≡ back) }
{
    match text {
        Some(text) => behind_text(words, name, text),
        None => None,
    }
}

/// The words behind the option, where the first one or two words give it this text.
fn behind_text<'a>(words: &'a [String], name: OptionName, text: &str) -> Option<&'a [String]>
    ensures some { IfSome result (λ rest.
        IsFirst name (Some text.now) (map string_bytes words.now) (map string_bytes rest.now)) }
    ensures only { (back : List (List ℕ)) → IsFirst name (Some text.now) (map string_bytes words.now) back
        → IsSomeAnd result (λ rest. map string_bytes rest.now ≡ back) }
{
    match words {
        [word, rest @ ..] if is_joined(word, name, text) => Some(rest),
        [word, value, rest @ ..] if is_pair(word, value, name, text) => Some(rest),
        _ => None,
    }
}
