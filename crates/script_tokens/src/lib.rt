//! Bytes of a script into tokens, words and numerals. Each function gives what the function of the same meaning in
//! `script_grammar` gives.
#![tactic(auto)]

mod lexer;
mod parts;
mod short;
mod token;
mod words;

pub use lexer::next_token;
pub use parts::{behind, exponent, is_mark, is_word, mark, name, numeral, refused, word};
pub use short::{coefficient, degree_within, has_large, is_short, letter_exponent};
pub use token::{Place, Token};
pub use words::{is_keyword, is_letter_byte, is_named, is_numeral, number_within, same, small};
