// The bench: scripts that are made of a number.
ghost use Rattle.std.specs.Prelude.{◌≡◌, ◌≤◌, ◌<◌, ◌++◌, decimal, codes, IfOk, string_bytes};
ghost use Rattle.local_std.specs.Bench.{max_bench, bench_script as script_of_bench, bench_line as line_of_bench};
ghost use Rattle.script_grammar.specs.Trees.{Tree};
ghost use Rattle.script_grammar.specs.Valid.{IsScript};
ghost use Rattle.script_grammar.specs.Meaning.{meaning};
ghost use Rattle.ring_reader.specs.Coherent.{IsCoherent};

use itoa::Buffer;
use ring_reader::{ReadError, Script, read_script};
use std::alloc::{AllocError, Global};

/// What the script of a number asks for.
pub fn read_bench(alloc: Global, number: u16) -> Result<Script, AllocError>
    requires { number ≤ max_bench }
    ensures found { IfOk result (λ s. (t : Tree) × IsScript (script_of_bench number) t × (s ≡ meaning t)) }
    ensures coherent { IfOk result IsCoherent }
{
    let script = bench_script(alloc, number)?;
    match read_script(alloc, script.as_bytes()) {
        Ok(read) => Ok(read),
        Err(ReadError::Memory) => Err(AllocError),
        Err(ReadError::At { .. }) => unreachable!(),
    }
}

/// The script of a number.
fn bench_script(alloc: Global, number: u16) -> Result<String, AllocError>
    requires { number ≤ max_bench }
    ensures { IfOk result (λ script. string_bytes script ≡ script_of_bench number) }
{
    let a = 4 + number % 16;
    let b = 5 + number / 16 % 16;
    let c = 6 + number / 256;
    let degree = a.max(b.max(c)) + 1;
    let mut script = String::from_str(
        alloc,
        "ring r=32003,(x,y,z),ds;\noption(redSB);\nnoether=z^",
    )?;
    push_number(&mut script, degree)?;
    script.push_str(";\npoly f=x^")?;
    push_number(&mut script, a)?;
    script.push_str("+y^")?;
    push_number(&mut script, b)?;
    script.push_str("+z^")?;
    push_number(&mut script, c)?;
    script.push_str("+x*y*z;\nideal j=jacob(f);\nmilnor(f);\nhighcorner(std(j));\n")?;
    Ok(script)
}

/// The line with a number.
pub fn bench_line(alloc: Global, number: u16) -> Result<String, AllocError>
    ensures { IfOk result (λ line. string_bytes line ≡ line_of_bench number) }
{
    let mut line = String::from_str(alloc, "bench ")?;
    push_number(&mut line, number)?;
    line.push_str("\n")?;
    Ok(line)
}

/// Adds a number in decimal.
fn push_number(text: &mut String, number: u16) -> Result<(), AllocError>
    ensures { IfOk result (λ u. string_bytes text.new ≡ string_bytes text.old ++ decimal number) }
{
    let mut buffer = Buffer::new();
    text.push_str(buffer.format(number))?;
    Ok(())
}
