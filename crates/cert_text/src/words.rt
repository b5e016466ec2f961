//! The words of a line.

ghost use Rattle.std.specs.Prelude.{◌≡◌, ◌≤◌, ◌<◌, ◌^◌, length, take, nat_le, Option, Some};
ghost use Rattle.std.specs.Option.{option_map};
ghost use Rattle.cert_grammar.specs.Cert.{is_number};
ghost use Rattle.cert_grammar.specs.Lines.{words_of};
ghost use Rattle.cert_text.specs.Cuts.{len_before, behind_cut, is_empty};
ghost use Rattle.cert_text.specs.Gives.{uncons};
ghost use Rattle.cert_grammar.specs.Phrases.{keyword_at, numeral_of, number_at, one_word};

use itoa::Buffer;
use std::marker::Model;

/// The words that are left of a line. A contract sees the list of them.
#[derive(Drop)]
pub(crate) struct Words<'a> {
    left: Option<&'a [u8]>,
}

impl<'a> Model for Words<'a> {
    ghost use Rattle.std.specs.Prelude.{List};
    ghost use Rattle.std.specs.Option.{option_map};
    ghost use Rattle.cert_grammar.specs.Lines.{Word};
    ghost use Rattle.cert_text.specs.WordsLeft.{words_left};

    ghost Value = { List Word };

    ghost view = { λ w. words_left (option_map (λ s. s.now) w.left) };
}

/// How many bytes stand before the first `c`.
#[tactic(auto, unfolding(crate::specs::Cuts::len_before))]
pub(crate) fn len_before_byte(c: u8, bytes: &[u8]) -> usize
    ensures len { result ≡ len_before c bytes.now }
    ensures within { result ≤ length bytes.now }
{
    let mut n = 0;
    while n < bytes.len() && bytes[n] != c {
        n += 1;
    }
    n
}

/// The bytes before the first `c`, and those behind it, where there is one.
pub(crate) fn cut(c: u8, bytes: &[u8]) -> (&[u8], Option<&[u8]>)
    ensures front { result.0.now ≡ take (len_before c bytes.now) bytes.now }
    ensures behind { option_map (λ s. s.now) result.1 ≡ behind_cut (len_before c bytes.now) bytes.now }
{
    let n = len_before_byte(c, bytes);
    if n < bytes.len() {
        return (&bytes[..n], Some(&bytes[n + 1..]));
    }
    (&bytes[..n], None)
}

/// The words of a line, without its end.
pub(crate) fn words_in(line: &[u8]) -> Words<'_>
    ensures { result ≡ words_of line.now }
{
    Words { left: Some(line) }
}

/// The next word, and the words behind it.
pub(crate) fn next<'a>(words: Words<'a>) -> Option<(&'a [u8], Words<'a>)>
    ensures { option_map (λ x. (x.0.now, x.1)) result ≡ uncons words.entry }
{
    let bytes = words.left?;
    let (word, left) = cut(b' ', bytes);
    Some((word, Words { left }))
}

/// The number of a numeral without leading zeros, at most `limit`.
pub(crate) fn numeral(word: &[u8], limit: u32) -> Option<u32>
    ensures { result ≡ numeral_of (λ n. nat_le n limit) word.now }
{
    let mut value = 0u64;
    for b in word {
        value = 10 * value + u64::from(b.saturating_sub(b'0'));
        if value > u64::from(limit) {
            return None;
        }
    }
    let mut buffer = Buffer::new();
    if word == buffer.format(value).as_bytes() {
        Some(value as u32)
    } else {
        None
    }
}

/// The words behind this one.
pub(crate) fn keyword<'a>(words: Words<'a>, k: &[u8]) -> Option<Words<'a>>
    ensures { result ≡ keyword_at k.now words.entry }
{
    let (word, rest) = next(words)?;
    if word == k { Some(rest) } else { None }
}

/// A number and the words behind it.
pub(crate) fn number<'a>(words: Words<'a>) -> Option<(u32, Words<'a>)>
    ensures { result ≡ number_at words.entry }
{
    let (word, rest) = next(words)?;
    let n = numeral(word, 65535)?;
    Some((n, rest))
}

/// Whether no word is left.
pub(crate) fn is_ended(words: Words<'_>) -> bool
    ensures { result ≡ is_empty words.entry }
{
    words.left.is_none()
}
