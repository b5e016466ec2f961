//! Remarks, which do nothing.

ghost use Rattle.std.specs.Prelude.{◌≡◌, true, ◌<◌, ◌≤◌, ◌-◌, IfOk};
ghost use Rattle.script_tokens.specs.PlaceView.{place_of};
ghost use Rattle.script_tokens.specs.TokenView.{token_of};
ghost use Rattle.script_tokens.specs.Reads.{ReadsAs};
ghost use Rattle.script_grammar.specs.Words.{is_the_text};
ghost use Rattle.script_grammar.specs.Statements.{begins_remark, library_at, remark_at};
ghost use Rattle.ring_reader.specs.Behind.{behind_read, remarks_read};

use script_grammar::{ReadKind, Refusal, What};
use script_tokens::{Place, Token, behind, is_word, mark, refused, same, word};

/// Whether a remark begins here.
pub(crate) fn is_remark(here: Place) -> bool
    ensures which { result ≡ begins_remark (token_of here.entry.token) }
    ensures some { result ≡ true → 0 < here.entry.left }
{
    is_word(here, b"option") || is_word(here, b"LIB")
}

/// The string `"sing.lib"`.
fn library(here: Place<'_>) -> Result<Place<'_>, Refusal>
    ensures reads { ReadsAs place_of result (library_at (place_of here.entry)) }
    ensures shorter { IfOk result (λ n. n.left < here.entry.left) }
{
    match here.token {
        Token::Text(text) if same(b"sing.lib", text) => Ok(behind(here)),
        _ => Err(refused(here, ReadKind::Expected(What::Library))),
    }
}

/// A remark.
#[tactic(auto, unfolding(script_grammar::specs::Statements::remark_at))]
pub(crate) fn remark(here: Place<'_>) -> Result<Place<'_>, Refusal>
    ensures reads { ReadsAs place_of result (behind_read (remark_at (place_of here.entry))) }
    ensures shorter { IfOk result (λ n. n.left ≤ here.entry.left - 1) }
{
    if is_word(here, b"option") {
        let after = mark(behind(here), b'(', What::Open)?;
        let after = word(after, b"redSB", What::RedSb)?;
        let after = mark(after, b')', What::Close)?;
        return mark(after, b';', What::Semicolon);
    }
    let after = library(behind(here))?;
    mark(after, b';', What::Semicolon)
}

/// Remarks, as long as there are some.
pub(crate) fn remarks(here: Place<'_>) -> Result<Place<'_>, Refusal>
    ensures reads { ReadsAs place_of result (remarks_read (place_of here.entry)) }
    ensures shorter { IfOk result (λ n. n.left ≤ here.entry.left) }
{
    let mut after = here;
    while is_remark(after) {
        after = remark(after)?;
    }
    Ok(after)
}
