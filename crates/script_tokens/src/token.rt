//! Tokens, and where they stand.

ghost use Rattle.std.specs.Prelude.{◌≡◌, true, ◌≤◌, ◌-◌, length};
ghost use Rattle.std.specs.Str.{IsAscii};
ghost use Rattle.script_grammar.specs.Words.{word_of};
ghost use Rattle.script_grammar.specs.Places.{is_last};
ghost use Rattle.script_tokens.specs.TokenView.{token_of};

/// A token of a script.
#[derive(Clone, Copy)]
pub enum Token<'a> {
    /// A longest run of letters and digits.
    Word(&'a [u8]),
    /// A string, without its quotes.
    Text(&'a [u8]),
    /// One of `= , ( ) ; + - * / ^`.
    Mark(u8),
    /// A byte of no token.
    Bad,
    /// The end of the input.
    End,
    /// The end of the input within a string or a comment.
    Cut,
}

/// A token, and where it stands.
#[derive(Clone, Copy)]
pub struct Place<'a> {
    pub token: Token<'a>,
    /// How many bytes are left from its first one on.
    pub left: usize,
    /// The bytes behind it.
    pub rest: &'a [u8],
    ghost shorter: { length rest.now ≤ left - 1 },
    ghost ends: { left ≡ 0 → is_last (token_of token) ≡ true },
    ghost ascii: { IsAscii (word_of (token_of token)) },
}
