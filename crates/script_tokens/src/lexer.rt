//! Bytes into tokens.

ghost use Rattle.std.specs.Prelude.{◌≡◌, ℕ, ◌<◌, ◌≤◌, List, length, drop, take, Option, Some, None, IfSome};
ghost use Rattle.std.specs.Option.{option_map};
ghost use Rattle.script_grammar.specs.Tokens.{is_blank, is_mark, is_word_byte, skip, blanks, line, block, word_len, text_len, front, next};
ghost use Rattle.script_tokens.specs.PlaceView.{place_of};

use crate::token::{Place, Token};
use crate::words::{is_digit_byte, is_letter_byte};

/// Whether the byte is a blank.
fn is_blank_byte(b: u8) -> bool
    ensures { result ≡ is_blank b }
{
    b == b'\t' || b == b'\n' || b == b'\r' || b == b' '
}

/// Whether the byte is a letter or a digit.
fn in_word(b: u8) -> bool
    ensures { result ≡ is_word_byte b }
{
    is_letter_byte(b) || is_digit_byte(b)
}

/// Whether the byte is a token by itself.
fn is_mark_byte(b: u8) -> bool
    ensures { result ≡ is_mark b }
{
    matches!(
        b,
        b'=' | b',' | b'(' | b')' | b';' | b'+' | b'-' | b'*' | b'/' | b'^'
    )
}

/// What is behind the line.
#[tactic(auto, unfolding(script_grammar::specs::Tokens::skip))]
fn line_end(bytes: &[u8]) -> &[u8]
    ensures same { skip blanks result.now ≡ skip line bytes.now }
    ensures shorter { length result.now ≤ length bytes.now }
{
    let mut rest = bytes;
    loop {
        match rest {
            [] => return rest,
            [b'\n', after @ ..] => return after,
            [_, after @ ..] => rest = after,
        }
    }
}

/// What is behind the comment, where it is closed.
#[tactic(auto, unfolding(script_grammar::specs::Tokens::skip))]
fn block_end(bytes: &[u8]) -> Option<&[u8]>
    ensures some { IfSome result (λ rest. skip blanks rest.now ≡ skip block bytes.now) }
    ensures none { result ≡ None → skip block bytes.now ≡ None }
    ensures shorter { IfSome result (λ rest. length rest.now ≤ length bytes.now) }
{
    let mut rest = bytes;
    loop {
        match rest {
            [] => return None,
            [b'*', b'/', after @ ..] => return Some(after),
            [_, after @ ..] => rest = after,
        }
    }
}

/// The bytes from the next token on.
#[tactic(auto, unfolding(script_grammar::specs::Tokens::skip))]
fn skipped(bytes: &[u8]) -> Option<&[u8]>
    ensures skipped { option_map (λ rest. rest.now) result ≡ skip blanks bytes.now }
    ensures within { IfSome result (λ rest. length rest.now ≤ length bytes.now) }
{
    let mut rest = bytes;
    loop {
        match rest {
            [b, after @ ..] if is_blank_byte(*b) => rest = after,
            [b'/', b'/', after @ ..] => rest = line_end(after),
            [b'/', b'*', after @ ..] => rest = block_end(after)?,
            _ => return Some(rest),
        }
    }
}

/// How many letters and digits the bytes begin with.
#[tactic(auto, unfolding(script_grammar::specs::Tokens::word_len))]
fn word_end(bytes: &[u8]) -> usize
    ensures len { result ≡ word_len bytes.now }
    ensures within { result ≤ length bytes.now }
{
    let mut n = 0;
    while n < bytes.len() && in_word(bytes[n]) {
        n += 1;
    }
    n
}

/// How many bytes stand before the first `"`.
#[tactic(auto, unfolding(script_grammar::specs::Tokens::text_len))]
fn text_end(bytes: &[u8]) -> Option<usize>
    ensures len { result ≡ text_len bytes.now }
    ensures within { IfSome result (λ n. n < length bytes.now) }
{
    let mut n = 0;
    while n < bytes.len() {
        if bytes[n] == b'"' {
            return Some(n);
        }
        n += 1;
    }
    None
}

/// The token that begins with the first byte.
#[tactic(auto, unfolding(script_grammar::specs::Tokens::front, script_grammar::specs::Tokens::word_len))]
fn front_token(bytes: &[u8]) -> Place<'_>
    ensures token { place_of result ≡ front bytes.now }
    ensures within { result.left ≤ length bytes.now }
{
    let left = bytes.len();
    let (first, after) = match bytes {
        [] => return Place {
            token: Token::End,
            left: 0,
            rest: bytes,
        },
        [first, after @ ..] => (*first, after),
    };
    if in_word(first) {
        let (word, rest) = bytes.split_at(word_end(after) + 1);
        return Place {
            token: Token::Word(word),
            left,
            rest,
        };
    }
    if is_mark_byte(first) {
        return Place {
            token: Token::Mark(first),
            left,
            rest: after,
        };
    }
    if first == b'"' {
        return match text_end(after) {
            Some(n) => Place {
                token: Token::Text(&after[..n]),
                left,
                rest: &after[n + 1..],
            },
            None => Place {
                token: Token::Cut,
                left: 0,
                rest: &[],
            },
        };
    }
    Place {
        token: Token::Bad,
        left,
        rest: after,
    }
}

/// The next token.
#[tactic(auto, unfolding(script_grammar::specs::Tokens::next))]
pub fn next_token(bytes: &[u8]) -> Place<'_>
    ensures next { place_of result ≡ next bytes.now }
    ensures within { result.left ≤ length bytes.now }
{
    match skipped(bytes) {
        Some(rest) => front_token(rest),
        None => Place {
            token: Token::Cut,
            left: 0,
            rest: &[],
        },
    }
}
