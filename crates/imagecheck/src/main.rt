// Checks image files.
//
// Job: reads files from standard input, each a line of hexadecimal digits, and prints a line for each:
// `ok` and the number of its entries, `no` and the refusal's number, with `row` and the row's number where a
// row is at fault, or `bad` where the line has no such digits.
// May use: tables, words, imagefile, input. The work is done there; here it is only called and printed.

#![tactic(auto)]

use imagefile::{Reader, check};
use input::{MOST_INPUT, read_input};
use std::io;
use tables::Readable;
use words::{Lines, hex_bytes};

// The most bytes of a file that a line may give: the longest file has 14,084.
const MOST_FILE: usize = 16_384;

// Prints what the check says of a file.
fn show_verdict(rt: &HostRuntime, file: &[u8]) -> io::Result<()> {
    match check(file) {
        Ok(()) => println!(rt; "ok {}", Reader::new(file).count()),
        Err(fault) => match fault.row() {
            Some(row) => println!(rt; "no {} row {row}", fault.refusal()),
            None => println!(rt; "no {}", fault.refusal()),
        },
    }
}

// Checks the file of one line.
fn check_line(rt: &HostRuntime, line: &[u8]) -> io::Result<()> {
    let mut file = [0u8; MOST_FILE];
    match hex_bytes(line, &mut file) {
        Some(n) => show_verdict(rt, &file[..n]),
        None => println!(rt; "bad"),
    }
}

fn main(rt: HostRuntime) -> io::Result<()> {
    let mut buf = [0u8; MOST_INPUT];
    let n = read_input(&mut rt.stdin(), &mut buf)?;
    for line in Lines::new(&buf[..n]) {
        check_line(&rt, line)?;
    }
    Ok(())
}
