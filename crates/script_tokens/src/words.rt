//! Words and numerals.

ghost use Rattle.std.specs.Prelude.{◌≡◌, true, drop};
ghost use Rattle.local_order.specs.Limits.{max_exponent};
ghost use Rattle.prime_field.specs.Decimal.{AreDigits, value_of};
ghost use Rattle.script_grammar.specs.Tokens.{is_digit, is_letter};
ghost use Rattle.script_grammar.specs.Words.{is_same, is_one_of, keywords, is_numeral as is_numeral_word, is_named as is_named_word};
ghost use Rattle.script_tokens.specs.Reads.{at_most};

/// The greatest exponent.
pub(crate) const MAX_EXPONENT: u32 = 1000;

/// Whether the byte is a digit.
pub(crate) fn is_digit_byte(b: u8) -> bool
    ensures { result ≡ is_digit b }
{
    b >= b'0' && b <= b'9'
}

/// Whether the byte is an ASCII letter.
pub fn is_letter_byte(b: u8) -> bool
    ensures { result ≡ is_letter b }
{
    (b >= b'A' && b <= b'Z') || (b >= b'a' && b <= b'z')
}

/// Whether the two are the same bytes.
pub fn same(a: &[u8], b: &[u8]) -> bool
    ensures { result ≡ is_same a.now b.now }
{
    let (mut a, mut b) = (a, b);
    loop {
        let [x, more_a @ ..] = a else {
            return b.is_empty();
        };
        let [y, more_b @ ..] = b else {
            return false;
        };
        if *x != *y {
            return false;
        }
        a = more_a;
        b = more_b;
    }
}

/// Whether the word is a numeral, digits alone.
#[tactic(auto, using(crate::proofs::Numbers::digits_alone))]
pub fn is_numeral(word: &[u8]) -> bool
    ensures which { result ≡ is_numeral_word word.now }
    ensures digits { result ≡ true → AreDigits word.now }
{
    all_digits(word)
}

/// Whether each byte is a digit.
fn all_digits(word: &[u8]) -> bool
    ensures { result ≡ is_numeral_word word.now }
{
    word.iter().all(|b| is_digit_byte(*b))
}

/// Whether the word begins with a letter.
pub fn is_named(word: &[u8]) -> bool
    ensures { result ≡ is_named_word word.now }
{
    match word {
        [] => false,
        [b, ..] => is_letter_byte(*b),
    }
}

/// Whether the word is a keyword.
pub fn is_keyword(word: &[u8]) -> bool
    ensures { result ≡ is_one_of keywords word.now }
{
    same(b"ring", word)
        || same(b"poly", word)
        || same(b"ideal", word)
        || same(b"option", word)
        || same(b"noether", word)
        || same(b"LIB", word)
        || same(b"std", word)
        || same(b"vdim", word)
        || is_later_keyword(word)
}

/// Whether the word is one of the later keywords.
fn is_later_keyword(word: &[u8]) -> bool
    ensures { result ≡ is_one_of (drop 8 keywords) word.now }
{
    same(b"kbase", word)
        || same(b"highcorner", word)
        || same(b"milnor", word)
        || same(b"tjurina", word)
        || same(b"jacob", word)
        || same(b"redSB", word)
        || same(b"ds", word)
        || same(b"Ds", word)
}

/// The number, where it is at most 1,000.
pub fn small(digits: &[u8]) -> Option<u32>
    ensures { result ≡ at_most max_exponent (value_of digits.now) }
{
    number_within(MAX_EXPONENT, digits)
}

/// The number, where it is at most a limit.
#[tactic(auto, using(crate::proofs::Numbers::value_above))]
pub fn number_within(limit: u32, digits: &[u8]) -> Option<u32>
    ensures { result ≡ at_most limit (value_of digits.now) }
{
    let mut number: u64 = 0;
    for b in digits {
        if number > u64::from(limit) {
            return None;
        }
        number = 10 * number + u64::from((*b).saturating_sub(b'0'));
    }
    if number > u64::from(limit) {
        None
    } else {
        Some(number as u32)
    }
}
