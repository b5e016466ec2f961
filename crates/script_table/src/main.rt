//! Reads a table of scripts from standard input, and prints for each whether it is read, or its first refusal.
//!
//! Each script ends before a line that is just `%%`, or at the table's end. The newline before that is no part of the script,
//! so that a script may end without one. What is printed is `ok`, or the line and the column of the refusal and its kind:
//! `3 10 UnknownName`.
#![tactic(auto)]

mod outcome;
mod parts;

use outcome::outcome;
use parts::{SEPARATOR, end_of_part};
use std::io;
use std::io::Read;

/// How many bytes a script may have.
const LIMIT: usize = 1_048_576;

fn main(rt: HostRuntime) -> io::Result<()> {
    let mut table = Vec::new(rt.alloc());
    rt.stdin().read_to_end(&mut table)?;
    print_outcomes(&rt, &table)
}

/// Prints a line for each script of the table.
fn print_outcomes(rt: &(impl Print + AllocGlobal), table: &[u8]) -> io::Result<()> {
    let mut start = 0;
    while start < table.len() {
        let end = end_of_part(table, start);
        let part = &table[start..end];
        let script = part.strip_suffix(b"\n").unwrap_or(part);
        if script.len() > LIMIT {
            println!(rt; "TooLong")?;
        } else {
            let line = outcome(rt.alloc(), script)?;
            println!(rt; "{line}")?;
        }
        start = end + SEPARATOR.len();
    }
    Ok(())
}
