// The lines of refusals. They take no memory.
ghost use Rattle.std.specs.Prelude.{◌≡◌, ◌+◌, ◌≤◌, ◌++◌, decimal, codes, length};
ghost use Rattle.local_std.specs.Texts.{what_text as text_of_what, kind_text, refusal_line as line_of_refusal};

use arrayvec::ArrayString;
use itoa::Buffer;
use ring_reader::{ReadKind, What};

/// A line that has room for each refusal.
pub type Line = ArrayString<100>;

/// The line of a refusal at that line and column.
pub fn refusal_line(line: u32, column: u32, kind: ReadKind) -> Line
    ensures { result.bytes ≡ line_of_refusal line column kind }
{
    let mut text = position_text(line, column);
    push_kind(&mut text, kind);
    text.push_str("\n");
    text
}

/// The part of the line that says where.
fn position_text(line: u32, column: u32) -> Line
    ensures bytes { result.bytes ≡ codes "line " ++ decimal line ++ codes " column " ++ decimal column ++ codes ": " }
    ensures few { length result.bytes ≤ 55 }
{
    let mut text = ArrayString::new();
    text.push_str("line ");
    push_number(&mut text, u64::from(line));
    text.push_str(" column ");
    push_number(&mut text, u64::from(column));
    text.push_str(": ");
    text
}

/// Adds a number in decimal.
pub(crate) fn push_number(text: &mut Line, n: u64)
    requires { length text.old.bytes + 20 ≤ 100 }
    ensures bytes { text.new.bytes ≡ text.old.bytes ++ decimal n }
    ensures few { length text.new.bytes ≤ length text.old.bytes + 20 }
{
    let mut buffer = Buffer::new();
    text.push_str(buffer.format(n));
}

/// Adds why a token is refused.
fn push_kind(text: &mut Line, kind: ReadKind)
    requires { length text.old.bytes + 44 ≤ 100 }
    ensures bytes { text.new.bytes ≡ text.old.bytes ++ kind_text kind }
    ensures few { length text.new.bytes ≤ length text.old.bytes + 44 }
{
    match kind {
        ReadKind::BadByte => text.push_str("bad byte"),
        ReadKind::EndOfInput => text.push_str("end of input"),
        ReadKind::MissingNoether => text.push_str("noether is missing"),
        ReadKind::TooManyCommands => text.push_str("too many commands"),
        ReadKind::Expected(what) => push_expected(text, what),
        ReadKind::NotAPrime => text.push_str("characteristic not in the table"),
        ReadKind::TooManyVariables => text.push_str("too many variables"),
        ReadKind::NameClash => text.push_str("name clash"),
        ReadKind::TooManyNames => text.push_str("too many names"),
        ReadKind::UnknownName => text.push_str("unknown name"),
        ReadKind::ExponentTooLarge => text.push_str("exponent too large"),
        ReadKind::ZeroDivisor => text.push_str("zero divisor"),
        ReadKind::TooDeep => text.push_str("too deep"),
        ReadKind::NoetherDegree => text.push_str("noether degree not 1 to 255"),
        ReadKind::TooManyMonomials(count) => push_count(text, count),
        ReadKind::TooManyGenerators => text.push_str("too many generators"),
    }
}

/// Adds what must stand at the place.
fn push_expected(text: &mut Line, what: What)
    requires { length text.old.bytes + 44 ≤ 100 }
    ensures bytes { text.new.bytes ≡ text.old.bytes ++ kind_text (ReadKind.Expected what) }
    ensures few { length text.new.bytes ≤ length text.old.bytes + 44 }
{
    text.push_str("expected ");
    text.push_str(what_text(what));
}

/// Adds how many monomials there are.
fn push_count(text: &mut Line, count: u64)
    requires { length text.old.bytes + 44 ≤ 100 }
    ensures bytes { text.new.bytes ≡ text.old.bytes ++ kind_text (ReadKind.TooManyMonomials count) }
    ensures few { length text.new.bytes ≤ length text.old.bytes + 44 }
{
    push_number(text, count);
    text.push_str(" monomials, at most 4096");
}

/// What must stand at a place, as it is written.
fn what_text(what: What) -> &'static str
    ensures text { result.now ≡ text_of_what what }
    ensures few { length result.now ≤ 22 }
{
    match what {
        What::Ring => "ring",
        What::Noether => "noether",
        What::Statement => "a statement",
        What::Name => "a name",
        What::Equals => "=",
        What::Open => "(",
        What::Close => ")",
        What::Semicolon => ";",
        What::Comma => ",",
        What::Numeral => "a numeral",
        What::Variable => "a variable",
        What::Order => "an order",
        What::RedSb => "redSB",
        What::Library => "\"sing.lib\"",
        What::Monomial => "a monomial",
        What::Operand => "an operand",
        What::Operator => "an operator or the end",
        What::Argument => "a name",
    }
}
