//! The line that is printed for a script.

ghost use Rattle.std.specs.Prelude.{◌≡◌, ◌≤◌, ◌++◌, length, decimal, string_bytes, IfOk, OnOk};
ghost use Rattle.script_grammar.specs.Limits.{max_script};
ghost use Rattle.script_table.specs.Outcome.{what_text, kind_text, refusal_text as text_of_refusal, outcome_text};

use itoa::Buffer;
use ring_reader::{ReadError, ReadKind, What, read_script};
use std::alloc::{AllocError, Global};

/// `ok`, or the place and the kind of the script's first refusal.
pub fn outcome(alloc: Global, script: &[u8]) -> Result<String, AllocError>
    requires { length script.now ≤ max_script }
    ensures { IfOk result (λ s. string_bytes s ≡ outcome_text script.now) }
{
    match read_script(alloc, script) {
        Ok(_script) => String::from_str(alloc, "ok"),
        Err(ReadError::At { line, column, kind }) => refusal_text(alloc, line, column, kind),
        Err(ReadError::Memory) => Err(AllocError),
    }
}

/// A refusal with its place.
fn refusal_text(alloc: Global, line: u32, column: u32, kind: ReadKind) -> Result<String, AllocError>
    ensures { IfOk result (λ s. string_bytes s ≡ text_of_refusal (line, column) kind) }
{
    let mut text = String::new(alloc);
    push_number(&mut text, u64::from(line))?;
    text.push(' ')?;
    push_number(&mut text, u64::from(column))?;
    text.push(' ')?;
    push_kind(&mut text, kind)?;
    Ok(text)
}

/// Adds a number in decimal.
fn push_number(text: &mut String, n: u64) -> Result<(), AllocError>
    ensures { OnOk result (string_bytes text.new ≡ string_bytes text.old ++ decimal n) }
{
    let mut buffer = Buffer::new();
    text.push_str(buffer.format(n))?;
    Ok(())
}

/// Adds the name of a kind, with what was expected or how many monomials there are.
fn push_kind(text: &mut String, kind: ReadKind) -> Result<(), AllocError>
    ensures { OnOk result (string_bytes text.new ≡ string_bytes text.old ++ kind_text kind) }
{
    match kind {
        ReadKind::BadByte => text.push_str("BadByte"),
        ReadKind::EndOfInput => text.push_str("EndOfInput"),
        ReadKind::MissingNoether => text.push_str("MissingNoether"),
        ReadKind::TooManyCommands => text.push_str("TooManyCommands"),
        ReadKind::Expected(what) => {
            text.push_str("Expected ")?;
            text.push_str(what_name(what))
        }
        ReadKind::NotAPrime => text.push_str("NotAPrime"),
        ReadKind::TooManyVariables => text.push_str("TooManyVariables"),
        ReadKind::NameClash => text.push_str("NameClash"),
        ReadKind::TooManyNames => text.push_str("TooManyNames"),
        ReadKind::UnknownName => text.push_str("UnknownName"),
        ReadKind::ExponentTooLarge => text.push_str("ExponentTooLarge"),
        ReadKind::ZeroDivisor => text.push_str("ZeroDivisor"),
        ReadKind::TooDeep => text.push_str("TooDeep"),
        ReadKind::NoetherDegree => text.push_str("NoetherDegree"),
        ReadKind::TooManyMonomials(count) => {
            text.push_str("TooManyMonomials ")?;
            push_number(text, count)
        }
        ReadKind::TooManyGenerators => text.push_str("TooManyGenerators"),
    }
}

/// The name of what was expected.
fn what_name(what: What) -> &'static str
    ensures { result.now ≡ what_text what }
{
    match what {
        What::Ring => "Ring",
        What::Noether => "Noether",
        What::Statement => "Statement",
        What::Name => "Name",
        What::Equals => "Equals",
        What::Open => "Open",
        What::Close => "Close",
        What::Semicolon => "Semicolon",
        What::Comma => "Comma",
        What::Numeral => "Numeral",
        What::Variable => "Variable",
        What::Order => "Order",
        What::RedSb => "RedSb",
        What::Library => "Library",
        What::Monomial => "Monomial",
        What::Operand => "Operand",
        What::Operator => "Operator",
        What::Argument => "Argument",
    }
}
