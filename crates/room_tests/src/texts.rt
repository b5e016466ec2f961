//! Texts that were written by hand.

ghost use Rattle.std.specs.Prelude.{◌≡◌, [], false, length, All, IfOk};
ghost use Rattle.std.specs.Str.{IsAscii};
ghost use Rattle.script_grammar.specs.Statements.{is_on_poly};
ghost use Rattle.text_out.specs.declared.answer.Answer.{Answer as Answered};
ghost use Rattle.text_out.specs.Answers.{IsAnswerFor, IsInRing, IsModulo};

use crate::build::{Exponents, Written, field, mono, poly};
use prime_field::Field;
use script_grammar::{Command, Name, Subject, Word};
use sparse_poly::{Letters, Polys, Problem};
use std::alloc::Global;
use std::test::Fail;
use text_out::{Answer, Monos, block_text, mono_text, poly_text};

/// The letters x and y.
fn letters() -> Result<Letters, Fail>
    ensures { IfOk result (λ l. length l ≡ 2) }
{
    Ok(Letters::new(b"xy").ok_or("no letters")?)
}

/// The polynomials that have one term each, with coefficient 1.
fn basis(alloc: Global, field: &Field, leads: &[Exponents]) -> Result<Polys, Fail>
    ensures { IfOk result (λ fs. All (IsModulo field.now 2) fs) }
{
    let mut all = Polys::new(alloc);
    for lead in leads {
        all.push(poly(alloc, field, &[(*lead, 1)])?)?;
    }
    Ok(all)
}

/// The list of these monomials.
fn stair(alloc: Global, monomials: &[Exponents]) -> Result<Monos, Fail>
    ensures { IfOk result (λ ms. All (λ m. length m ≡ 2) ms) }
{
    let mut all = Monos::new(alloc);
    for exponents in monomials {
        all.push(mono(exponents)?)?;
    }
    Ok(all)
}

/// The problem without generators in x and y over Z/32003, modulo degree 6.
fn problem(alloc: Global) -> Result<Problem, Fail>
    ensures { IfOk result (λ P. P.p ≡ 32003) }
{
    let field = field(32003)?;
    // Its prime is one of the table.
    let _prime = field.prime();
    Ok(Problem::new(field, 2, 5, Polys::new(alloc)))
}

/// The command of that word on i.
fn command(alloc: Global, word: Word) -> Result<Command, Fail>
    requires { is_on_poly word ≡ false }
    ensures name { IfOk result (λ c. IsAscii c.name) }
    ensures answer { IfOk result (λ c. (a : Answered) → IsInRing 32003 2 a → IsAnswerFor 2 c.word c.subject a) }
{
    Ok(Command {
        word,
        name: Name::new(alloc, b"i")?,
        subject: Subject::Ideal(problem(alloc)?),
    })
}

/// The block of the command of that word, where the basis has these leads and the staircase these monomials.
fn fitting_block(
    alloc: Global,
    word: Word,
    leads: &[Exponents],
    monomials: &[Exponents],
) -> Result<String, Fail>
    requires { is_on_poly word ≡ false }
{
    let field = field(32003)?;
    let answer = Answer::Fits {
        basis: basis(alloc, &field, leads)?,
        stair: stair(alloc, monomials)?,
    };
    Ok(block_text(alloc, 1, &letters()?, &command(alloc, word)?, &answer)?)
}

/// The blocks of the commands on ideals, one behind the other.
fn fitting_blocks(
    alloc: Global,
    leads: &[Exponents],
    monomials: &[Exponents],
) -> Result<String, Fail> {
    let mut text = fitting_block(alloc, Word::Std, leads, monomials)?;
    text.push_str(&fitting_block(alloc, Word::Vdim, leads, monomials)?)?;
    text.push_str(&fitting_block(alloc, Word::Kbase, leads, monomials)?)?;
    text.push_str(&fitting_block(alloc, Word::HighCorner, leads, monomials)?)?;
    Ok(text)
}

#[test]
fn monomials(rt: HostRuntime) -> Result<(), Fail> {
    let alloc = rt.alloc();
    let letters = letters()?;
    for (exponents, expected) in [
        ([0, 0], "1"),
        ([1, 0], "x"),
        ([0, 12], "y^12"),
        ([2, 1], "x^2*y"),
    ] {
        let text = mono_text(alloc, &letters, &mono(&exponents)?)?;
        assert!(rt; text.as_str() == expected, "{expected}");
    }
    Ok(())
}

/// Primes, polynomials and their texts.
const POLYNOMIALS: &[(u32, &[Written], &str)] = &[
    (32003, &[([2, 1], 1), ([0, 4], 16004)], "x^2*y-15999*y^4"),
    (32003, &[([0, 2], 16001), ([1, 0], 32002)], "-x+16001*y^2"),
    (32003, &[([0, 0], 32002)], "-1"),
    (2, &[([0, 0], 1), ([1, 0], 1), ([0, 1], 3)], "1+x+y"),
    (2, &[([1, 1], 2)], "0"),
    (2, &[([0, 0], 1)], "1"),
];

#[test]
fn polynomials(rt: HostRuntime) -> Result<(), Fail> {
    let alloc = rt.alloc();
    let letters = letters()?;
    for (p, terms, expected) in POLYNOMIALS {
        let field = field(*p)?;
        let text = poly_text(alloc, &letters, &field, &poly(alloc, &field, terms)?)?;
        assert!(rt; text.as_str() == *expected, "{expected}");
    }
    Ok(())
}

/// The leads and the staircase of x^3, x^2*y, y^3.
const LEADS: &[Exponents] = &[[3, 0], [2, 1], [0, 3]];

const STAIR: &[Exponents] = &[[0, 0], [1, 0], [0, 1], [2, 0], [1, 1], [0, 2], [1, 2]];

const BLOCKS: &str =
    "1 std i\n_[1]=x^3\n_[2]=x^2*y\n_[3]=y^3\ncorner x*y^2\ndim 7\n1 vdim i\ndim 7\n1 kbase i\ndim 7\n_[1]=1\n_[2]=x\n_[3]=y\n_[4]=x^2\n_[5]=x*y\n_[6]=y^2\n_[7]=x*y^2\n1 highcorner i\ncorner x*y^2\n";

/// The blocks where 1 is in the ideal.
const UNIT_BLOCKS: &str =
    "1 std i\n_[1]=1\ncorner none\ndim 0\n1 vdim i\ndim 0\n1 kbase i\ndim 0\n1 highcorner i\ncorner none\n";

#[test]
fn blocks(rt: HostRuntime) -> Result<(), Fail> {
    let blocks = fitting_blocks(rt.alloc(), LEADS, STAIR)?;
    assert_eq!(rt; blocks.as_str(), BLOCKS);
    let of_a_unit = fitting_blocks(rt.alloc(), &[[0, 0]], &[])?;
    assert_eq!(rt; of_a_unit.as_str(), UNIT_BLOCKS);
    Ok(())
}

#[test]
fn small_degree(rt: HostRuntime) -> Result<(), Fail> {
    let alloc = rt.alloc();
    let answer = Answer::TooSmall {
        missing: mono(&[0, 5])?,
    };
    let text = block_text(
        alloc,
        1,
        &letters()?,
        &command(alloc, Word::Kbase)?,
        &answer,
    )?;
    assert!(rt; text.as_str() == "1 kbase i\nD 5 is too small: y^5\n");
    Ok(())
}

#[test]
fn lists(rt: HostRuntime) -> Result<(), Fail> {
    let mut list = Vec::new(rt.alloc());
    list.push(mono(&[1, 0])?)?;
    let list = Monos::from_vec(list);
    assert!(rt; list.len() == 1 && list.get(0).degree() == 1);
    Ok(())
}
