//! Finds where tokens begin and end in a text.
ghost use Rattle.std.specs.Prelude.{◌≡◌, ◌+◌, ◌<◌, ◌≤◌, length, drop, slice_index, IsTrue};
ghost use Rattle.rc_base.specs.Token.{is_part, is_blank, atom_front, tokens_from, in_comment};
ghost use Rattle.rc_form.specs.Lexer.{tokens_at, begins_token};

/// Whether the byte may stand in an atom.
pub fn may_stand_in_atom(byte: u8) -> bool
    ensures { result ≡ is_part byte }
{
    33 <= byte && byte <= 126 && byte != b'(' && byte != b')' && byte != b';' && byte != b','
}

fn is_white_space(byte: u8) -> bool
    ensures { result ≡ is_blank byte }
{
    byte == b'\t' || byte == b'\n' || byte == b'\r' || byte == b' ' || byte == b','
}

/// Where the comment around this offset ends: at the next LF, or at the text's end.
fn comment_end(text: &[u8], from: usize) -> usize
    requires { from ≤ length text.now }
    ensures within { result ≤ length text.now }
    ensures forward { from ≤ result }
    ensures passed { tokens_from in_comment from (drop from text.now) ≡ tokens_at text.now result }
{
    let mut at = from;
    while at < text.len() && text[at] != b'\n' {
        at += 1;
    }
    at
}

/// Where the next token begins, or the text's end where there is none.
pub fn token_start(text: &[u8], from: usize) -> usize
    requires { from ≤ length text.now }
    ensures within { result ≤ length text.now }
    ensures forward { from ≤ result }
    ensures passed { tokens_at text.now from ≡ tokens_at text.now result }
    ensures begins { result < length text.now → IsTrue (begins_token (slice_index text.now result)) }
{
    let mut at = from;
    while at < text.len() {
        if text[at] == b';' {
            at = comment_end(text, at + 1);
        } else if is_white_space(text[at]) {
            at += 1;
        } else {
            return at;
        }
    }
    at
}

/// Where the atom that begins at this offset ends: at the first byte that may not stand in an atom.
pub fn atom_end(text: &[u8], from: usize) -> usize
    requires { from ≤ length text.now }
    ensures within { result ≤ length text.now }
    ensures reach { result ≡ from + length (atom_front (drop from text.now)) }
{
    let mut at = from;
    while at < text.len() && may_stand_in_atom(text[at]) {
        at += 1;
    }
    at
}
