//! Texts of monomials and polynomials that are read back, and bytes that are none.

use crate::build::field;
use prime_field::Field;
use sparse_poly::Letters;
use std::alloc::Global;
use std::test::Fail;
use text_out::{mono_text, poly_text, read_mono, read_poly};

/// Texts modulo a prime, in the variables of these letters.
struct Row {
    prime: u32,
    letters: &'static [u8],
    texts: &'static [&'static str],
}

/// Polynomials of worked examples and of their certificates, and those at the limits.
const POLYNOMIALS: [Row; 6] = [
    Row {
        prime: 32003,
        letters: b"xy",
        texts: &[
            "0",
            "1",
            "-1",
            "x",
            "y^3",
            "x^3",
            "x^2*y",
            "x*y",
            "y^6",
            "x*y^5",
            "x^2",
            "y^2",
            "y^5",
            "x^2*y-15999*y^4",
            "x*y^2-15999*x^4",
            "15999*x^4",
            "x^5-y^5",
            "2*x*y^2+5*x^4",
            "2*x^2*y+5*y^4",
            "x-x^2-y^3",
            "x^2+x*y+x^3",
            "y^3+x^4+x*y^3",
            "-x+16001*y^2",
            "-16001-16001*x",
            "x^1000*y^1000",
        ],
    },
    Row {
        prime: 32003,
        letters: b"xyz",
        texts: &["x^2", "y^2", "z^2", "x*y", "y^2-x*z", "y*z", "x*y*z"],
    },
    Row {
        prime: 32003,
        letters: b"x",
        texts: &["x", "x-x^2", "1+x+x^2", "1+x+x^2+x^3", "x-x^4"],
    },
    Row {
        prime: 2147483647,
        letters: b"x",
        texts: &["x^255", "x^254", "2*x^255", "1073741823-1073741823*x"],
    },
    Row {
        prime: 2,
        letters: b"xy",
        texts: &["y", "x^2", "1+x+y"],
    },
    Row {
        prime: 11,
        letters: b"x",
        texts: &["x", "1", "5-5*x"],
    },
];

/// Bytes that are no polynomial's text.
const NO_POLYNOMIALS: [Row; 4] = [
    Row {
        prime: 32003,
        letters: b"xy",
        texts: &[
            // nothing, blanks, signs that lead nowhere
            "",
            " ",
            " x",
            "x ",
            "x +y",
            "x+ y",
            "x\n",
            "+x",
            "x+",
            "x-",
            "-",
            "+",
            "x++y",
            "x+-y",
            "--x",
            "x-+y",
            // leading zeros, and numbers and exponents that aren't written
            "02*x",
            "x+03*y",
            "01",
            "00",
            "-0",
            "x^02",
            "x^1",
            "x^0",
            "1*x",
            "x-1*y",
            "0*x",
            "x+0",
            "0+x",
            "-0*x",
            // coefficients of the other sign, the prime and above it
            "16002*x",
            "x-16002*y",
            "32002",
            "32003*x",
            "32003",
            "-32003*x",
            "32004*x",
            "4294967298*x",
            "18446744073709551618*x",
            // terms that don't fall, and a monomial twice
            "y+x",
            "x^2+x",
            "x+1",
            "x*y+x^2",
            "x^3+x*y",
            "x+x",
            "2*x+x",
            "x-x",
            "1+1",
            // letters that are no variables, and variables in another order
            "z",
            "X",
            "x+z",
            "a*x",
            "y*x",
            "x*x",
            "y^2*x",
            "x*y*x",
            "\u{e9}",
            // the other spellings of scripts, and factors that are missing
            "2x",
            "xy",
            "x2",
            "2*3",
            "x*2",
            "x**y",
            "*x",
            "x*",
            "2*",
            "^2",
            "x^",
            "x^y",
            "x^-1",
            "(x)",
            "x/2",
            "2+x*",
            // exponents past the limit
            "x^1001",
            "x^65538",
            "x^4294967298",
            "x^1000*y^1001",
        ],
    },
    Row {
        prime: 2147483647,
        letters: b"x",
        texts: &[
            "1073741824*x",
            "-1073741824*x",
            "2147483647",
            "2147483648*x",
            "y",
        ],
    },
    Row {
        prime: 2,
        letters: b"xy",
        texts: &["-x", "2*x", "x-y", "1+1", "-1", "3", "2"],
    },
    Row {
        prime: 11,
        letters: b"x",
        texts: &["6*x", "-6*x", "11", "12", "x^2+x", "y"],
    },
];

/// The letters of the variables.
fn letters_of(row: &Row) -> Result<Letters, Fail> {
    Ok(Letters::new(row.letters).ok_or("no letters")?)
}

/// Whether the text is read as a polynomial. It has this text.
#[tactic(auto, using(sparse_poly::proofs::Sorted::residues_of))]
fn is_poly(alloc: Global, letters: &Letters, field: &Field, text: &str) -> Result<bool, Fail> {
    let Some(f) = read_poly(alloc, letters, field, text.as_bytes())? else {
        return Ok(false);
    };
    let printed = poly_text(alloc, letters, field, &f)?;
    Ok(printed.as_str() == text)
}

/// Whether each text of the row is one of a polynomial, or none is.
fn are_polys(alloc: Global, row: &Row, are: bool) -> Result<bool, Fail> {
    let letters = letters_of(row)?;
    let field = field(row.prime)?;
    for text in row.texts {
        if is_poly(alloc, &letters, &field, *text)? != are {
            return Ok(false);
        }
    }
    Ok(true)
}

#[test]
fn polynomials_are_read_back(rt: HostRuntime) -> Result<(), Fail> {
    for row in &POLYNOMIALS {
        assert!(rt; are_polys(rt.alloc(), row, true)?);
    }
    for row in &NO_POLYNOMIALS {
        assert!(rt; are_polys(rt.alloc(), row, false)?);
    }
    Ok(())
}

/// Monomials of worked examples, and those at the limits.
const MONOMIALS: &[&str] = &[
    "1",
    "x",
    "y",
    "z",
    "x^2",
    "x*y",
    "y^2",
    "x^3",
    "x^2*y",
    "x*y^2",
    "y^12",
    "x^5",
    "x^255",
    "x*y*z",
    "x^19",
    "z^21",
    "x^1000*y^1000*z^1000",
];

/// Bytes that are no monomial's text.
const NO_MONOMIALS: &[&str] = &[
    "",
    " ",
    "x ",
    " x",
    "x\n",
    "0",
    "01",
    "11",
    "2",
    "x^0",
    "x^1",
    "x^01",
    "x^02",
    "x^",
    "x^y",
    "-x",
    "+x",
    "2*x",
    "1*x",
    "x*1",
    "x+y",
    "y*x",
    "x*x",
    "z*y*x",
    "x*",
    "*x",
    "x**y",
    "xy",
    "x2",
    "w",
    "X",
    "x*w",
    "x^1001",
    "x^65538",
    "x^4294967298",
    "none",
];

/// Whether the text is read as a monomial. It has this text.
fn is_mono(alloc: Global, letters: &Letters, text: &str) -> Result<bool, Fail> {
    let Some(m) = read_mono(letters, text.as_bytes()) else {
        return Ok(false);
    };
    let printed = mono_text(alloc, letters, &m)?;
    Ok(printed.as_str() == text)
}

#[test]
fn monomials_are_read_back(rt: HostRuntime) -> Result<(), Fail> {
    let letters = Letters::new(b"xyz").ok_or("no letters")?;
    for text in MONOMIALS {
        assert!(rt; is_mono(rt.alloc(), &letters, *text)?, "{text}");
    }
    for text in NO_MONOMIALS {
        assert!(rt; !is_mono(rt.alloc(), &letters, *text)?, "{text}");
    }
    Ok(())
}
