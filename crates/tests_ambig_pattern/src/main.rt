//! Searches tables of 4,096 patterns for the first two that meet, and prints them and the 16 highest
//! bits of the least number that is both's: of patterns whose constants all contradict each other, of
//! 16 groups that only assertions of 8 bits tell apart, and of these with a last pattern that has no
//! constants. By a word, `apart`, `groups` or `met`, it searches one table alone.
#![tactic(auto)]

mod table;

use crate::table::{Asked, Table, patterns_of, search};
use std::env::Env;
use std::process::ExitCode;

/// The word behind the program's name is this one, or there is none.
fn is_meant(rt: &HostRuntime, word: &[u8]) -> bool {
    let mut room = [0u8; 16];
    match rt.arg(1, &mut room) {
        Ok(len) => &room[..len] == word,
        Err(_) => true,
    }
}

/// Prints what is found in a table, where it is meant.
fn tell(rt: HostRuntime, word: &'static [u8], kind: Table, asked: bool) -> std::io::Result<()> {
    if !is_meant(&rt, word) {
        return Ok(());
    }
    match search(&Asked { asked }, &patterns_of(kind)) {
        Some(found) => {
            let (first, second) = (found.first, found.second);
            let bits = (found.number >> 112) as u64;
            println!(rt; "{first} {second} {bits}")
        }
        None => println!(rt; "none"),
    }
}

/// Prints what is found in all tables, and ends with 1 where it can't.
fn main(rt: HostRuntime) -> ExitCode {
    if tell(rt, b"apart", Table::Apart, false).is_err() {
        return ExitCode::from(1);
    }
    if tell(rt, b"groups", Table::Groups, true).is_err() {
        return ExitCode::from(1);
    }
    if tell(rt, b"met", Table::Met, true).is_err() {
        return ExitCode::from(1);
    }
    ExitCode::from(0)
}
