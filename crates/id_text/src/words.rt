//! Names and reserved words.

ghost use Rattle.std.specs.Prelude.{◌≡◌, ◌≢◌, ◌<◌, ◌≤◌, length, drop, take_while, MatchOption};
ghost use Rattle.std.specs.Prelude.{IsTrue, slice_index};
ghost use Rattle.id_text.specs.Bytes.{is_letter, is_name_byte, word_of};
ghost use Rattle.id_text.specs.declared.token.Keyword.{Keyword};

use crate::bytes::name_len;
use crate::token::Keyword;

/// The word at this place, where a letter stands: the longest run of bytes that go on a name.
pub fn word_at(text: &str, at: usize) -> &str
    requires before_end { at < length text.now }
    requires letter { IsTrue (is_letter (slice_index text.now at)) }
    ensures { result.now ≡ take_while is_name_byte (drop at text.now) }
{
    let len = name_len(&text.as_bytes()[at..]);
    &text[at..at + len]
}

/// The reserved word that is spelled so, if one is. Only those of its length and first byte are compared with it.
pub fn keyword_of(word: &str) -> Option<Keyword>
    ensures { MatchOption result ((k : Keyword) → word.now ≢ word_of k) (λ k. word.now ≡ word_of k) }
{
    match word.len() {
        2 => keyword_of_two(word),
        3 => keyword_of_three(word),
        4 => keyword_of_four(word),
        5 | 7 => longer_keyword(word),
        _ => None,
    }
}

/// The reserved word of two bytes that is spelled so, if one is.
fn keyword_of_two(word: &str) -> Option<Keyword>
    requires { length word.now ≡ 2 }
    ensures { MatchOption result ((k : Keyword) → word.now ≢ word_of k) (λ k. word.now ≡ word_of k) }
{
    let first = word.as_bytes()[0];
    match (first, word) {
        (b'i', "if") => Some(Keyword::If),
        (b'd', "do") => Some(Keyword::Do),
        (b'i', "in") => Some(Keyword::In),
        (b't', "to") => Some(Keyword::To),
        (b'o', "or") => Some(Keyword::Or),
        _ => None,
    }
}

/// The reserved word of three bytes that is spelled so, if one is.
fn keyword_of_three(word: &str) -> Option<Keyword>
    requires { length word.now ≡ 3 }
    ensures { MatchOption result ((k : Keyword) → word.now ≢ word_of k) (λ k. word.now ≡ word_of k) }
{
    let first = word.as_bytes()[0];
    match (first, word) {
        (b'd', "def") => Some(Keyword::Def),
        (b'i', "int") => Some(Keyword::Int),
        (b'd', "div") => Some(Keyword::Div),
        (b'r', "rem") => Some(Keyword::Rem),
        (b'a', "and") => Some(Keyword::And),
        (b'n', "not") => Some(Keyword::Not),
        (b'f', "for") => Some(Keyword::For),
        _ => None,
    }
}

/// The reserved word of four bytes that is spelled so, if one is.
fn keyword_of_four(word: &str) -> Option<Keyword>
    requires { length word.now ≡ 4 }
    ensures { MatchOption result ((k : Keyword) → word.now ≢ word_of k) (λ k. word.now ≡ word_of k) }
{
    let first = word.as_bytes()[0];
    match (first, word) {
        (b't', "then") => Some(Keyword::Then),
        (b'e', "else") => Some(Keyword::Else),
        (b'n', "next") => Some(Keyword::Next),
        (b't', "true") => Some(Keyword::True),
        (b'b', "bool") => Some(Keyword::Bool),
        _ => None,
    }
}

/// The reserved word of five or seven bytes that is spelled so, if one is.
fn longer_keyword(word: &str) -> Option<Keyword>
    requires { 5 ≤ length word.now }
    ensures { MatchOption result ((k : Keyword) → word.now ≢ word_of k) (λ k. word.now ≡ word_of k) }
{
    let first = word.as_bytes()[0];
    match (first, word) {
        (b'w', "while") => Some(Keyword::While),
        (b'f', "finally") => Some(Keyword::Finally),
        (b'f', "false") => Some(Keyword::False),
        (b'a', "array") => Some(Keyword::Array),
        _ => None,
    }
}
