//! What a word names.

ghost use Rattle.std.specs.Prelude.{◌≡◌, ◌≤◌, ◌<◌, ◌-◌, List, true, false, map, Contains, IfOk, IfSome, IfNone};
ghost use Rattle.std.specs.Str.{IsAscii};
ghost use Rattle.sparse_poly.specs.Poly.{Poly as Terms};
ghost use Rattle.script_tokens.specs.PlaceView.{place_of};
ghost use Rattle.script_tokens.specs.Reads.{ReadsAs};
ghost use Rattle.script_grammar.specs.Words.{is_one_of};
ghost use Rattle.script_grammar.specs.Meaning.{Named, value_in};
ghost use Rattle.script_grammar.specs.Statements.{clashes as clashes_with, new_name_at, name_among, argument_at};
ghost use Rattle.expression_reader.specs.NamesView.{names_in, declarations_of, declared_poly, declared_ideal};

use crate::names::{NamedIdeal, NamedPoly, Names};
use script_grammar::{ReadKind, Refusal, What};
use script_tokens::{Place, behind, is_keyword, is_short, mark, name, refused, same};

/// The greatest number of names of polynomials and ideals together.
const MAX_NAMES: usize = 64;

/// What is declared with a name. A contract sees it as in the grammar.
pub trait Declared {
    ghost Value: { Type 0 };

    ghost seen: { Self → Named Value };

    /// The name.
    fn name(&self) -> &[u8]
        ensures { result.now ≡ (seen self.now).name };
}

impl Declared for NamedPoly {
    ghost Value = { Terms };

    ghost seen = { declared_poly };

    fn name(&self) -> &[u8] {
        self.name.bytes()
    }
}

impl Declared for NamedIdeal {
    ghost Value = { List Terms };

    ghost seen = { declared_ideal };

    fn name(&self) -> &[u8] {
        self.name.bytes()
    }
}

/// What is declared with that name.
pub fn find<'a, T: Declared>(all: &'a [T], word: &[u8]) -> Option<&'a T>
    ensures value { IfSome result (λ f. (other : T.Value) → value_in (map T.seen all.now) other word.now ≡ (T.seen f.now).value) }
    ensures named { IfSome result (λ f. is_one_of (names_in T.seen all.now) word.now ≡ true) }
    ensures name { IfSome result (λ f. (T.seen f.now).name ≡ word.now) }
    ensures there { IfSome result (λ f. Contains all.now f.now) }
    ensures absent { IfNone result ((other : T.Value) → value_in (map T.seen all.now) other word.now ≡ other) }
    ensures unnamed { IfNone result (is_one_of (names_in T.seen all.now) word.now ≡ false) }
{
    for f in all {
        if same(f.name(), word) {
            return Some(f);
        }
    }
    None
}

/// Whether one of them has that name.
pub fn has<T: Declared>(all: &[T], word: &[u8]) -> bool
    ensures { result ≡ is_one_of (names_in T.seen all.now) word.now }
{
    find(all, word).is_some()
}

/// Whether the word can't be declared.
fn clashes(names: &Names, word: &[u8]) -> bool
    ensures { result ≡ clashes_with (declarations_of names.now) word.now }
{
    is_keyword(word)
        || same(names.ring, word)
        || has(names.polys, word)
        || has(names.ideals, word)
        || is_short(names.letters.bytes(), word)
}

/// A name that is declared.
#[tactic(auto, unfolding(script_grammar::specs::Statements::new_name_at))]
pub fn new_name<'a>(names: &Names, here: Place<'a>) -> Result<(&'a [u8], Place<'a>), Refusal>
    ensures reads { ReadsAs (λ x. (x.0.now, place_of x.1)) result (new_name_at (declarations_of names.now) (place_of here.entry)) }
    ensures ascii { IfOk result (λ x. IsAscii x.0.now) }
    ensures shorter { IfOk result (λ x. x.1.left < here.entry.left) }
{
    let Some(word) = name(here) else {
        return Err(refused(here, ReadKind::Expected(What::Name)));
    };
    if clashes(names, word) {
        return Err(refused(here, ReadKind::NameClash));
    }
    if names.polys.len() >= MAX_NAMES || names.ideals.len() >= MAX_NAMES - names.polys.len() {
        return Err(refused(here, ReadKind::TooManyNames));
    }
    Ok((word, behind(here)))
}

/// What is declared with the name that stands here.
#[tactic(auto, unfolding(script_grammar::specs::Statements::name_among))]
pub fn known<'n, 'a, T: Declared>(
    all: &'n [T],
    here: Place<'a>,
) -> Result<(&'n T, Place<'a>), Refusal>
    ensures reads { ReadsAs (λ x. ((T.seen x.0.now).name, place_of x.1)) result (name_among (names_in T.seen all.now) (place_of here.entry)) }
    ensures value { IfOk result (λ x. (other : T.Value) → value_in (map T.seen all.now) other (T.seen x.0.now).name ≡ (T.seen x.0.now).value) }
    ensures there { IfOk result (λ x. Contains all.now x.0.now) }
    ensures ascii { IfOk result (λ x. IsAscii (T.seen x.0.now).name) }
    ensures shorter { IfOk result (λ x. x.1.left < here.entry.left) }
{
    let Some(word) = name(here) else {
        return Err(refused(here, ReadKind::Expected(What::Argument)));
    };
    match find(all, word) {
        Some(item) => Ok((item, behind(here))),
        None => Err(refused(here, ReadKind::UnknownName)),
    }
}

/// What is declared with the name in parentheses.
#[tactic(auto, unfolding(script_grammar::specs::Statements::argument_at))]
pub fn argument<'n, 'a, T: Declared>(
    all: &'n [T],
    here: Place<'a>,
) -> Result<(&'n T, Place<'a>), Refusal>
    ensures reads { ReadsAs (λ x. ((T.seen x.0.now).name, place_of x.1)) result (argument_at (names_in T.seen all.now) (place_of here.entry)) }
    ensures value { IfOk result (λ x. (other : T.Value) → value_in (map T.seen all.now) other (T.seen x.0.now).name ≡ (T.seen x.0.now).value) }
    ensures there { IfOk result (λ x. Contains all.now x.0.now) }
    ensures ascii { IfOk result (λ x. IsAscii (T.seen x.0.now).name) }
    ensures shorter { IfOk result (λ x. x.1.left < here.entry.left) }
{
    let after = mark(here, b'(', What::Open)?;
    let (item, after) = known(all, after)?;
    let after = mark(after, b')', What::Close)?;
    Ok((item, after))
}
