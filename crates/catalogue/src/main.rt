// Carries a catalogue into an image file and back.
//
// Job: reads a listing from standard input, one entry a line, and prints each step with its figures.
// May use: every library below. The work is done there; here it is only called and printed.

#![tactic(auto)]

ghost use Rattle.std.specs.Prelude.{◌<◌, length};

use compare::Comparison;
use imageformat::LONGEST_FILE;
use input::{MOST_INPUT, read_input};
use listing::{BadLine, load_listing};
use pages::PageStore;
use slots::SlotStore;
use std::io;
use std::io::Write;
use tables::{LONGEST_TEXT, Readable};
use transfer::{Transfer, TransferFault, transfer_table};

// Tells each line that was passed over.
fn show_bad_lines(rt: &HostRuntime, bad: &[BadLine]) -> io::Result<()> {
    for BadLine { line, fault } in bad {
        println!(rt; "line {line}: passed over, {fault}")?;
    }
    Ok(())
}

// Prints an entry of a table: number, edition, hand and text.
fn show_entry<T: Readable>(rt: &HostRuntime, table: &T, e: usize) -> io::Result<()>
    requires { e < length (T.table table.now) }
{
    let mut text = [0u8; LONGEST_TEXT];
    let (edition, hand) = table.stamp(e).unwrap();
    let n = table.text(e, &mut text).unwrap();
    print!(rt; "{e}: edition {edition}, hand {hand}, text ")?;
    rt.stdout().write_all(&text[..n])?;
    println!(rt; "")
}

// Prints the entries of a table.
fn show_table<T: Readable>(rt: &HostRuntime, table: &T) -> io::Result<()> {
    for e in 0..table.count() {
        show_entry(rt, table, e)?;
    }
    Ok(())
}

// Prints the figures of a transfer.
fn show_transfer(rt: &HostRuntime, done: Transfer) -> io::Result<()> {
    let Transfer {
        file_length,
        entries,
        compared,
    } = done;
    println!(rt; "image file: {file_length} bytes written, and accepted by the check")?;
    println!(rt; "reader: {entries} entries shown")?;
    println!(rt; "slot store: {entries} entries restored")?;
    match compared {
        Comparison::Same => println!(rt; "compared: the two tables are the same"),
        Comparison::CountsDiffer => println!(rt; "compared: the counts differ"),
        Comparison::Entry(e) => println!(rt; "compared: entry {e} differs"),
    }
}

// Prints why a transfer ended early.
fn show_fault(rt: &HostRuntime, fault: TransferFault) -> io::Result<()> {
    match fault {
        TransferFault::Write(refusal) => {
            println!(rt; "image file: not written, refusal {refusal}")
        }
        TransferFault::Restore(fault) => {
            println!(rt; "slot store: not restored, refusal {}", fault.refusal())
        }
    }
}

// Carries the table of the page store through an image file into a slot store.
fn carry(rt: &HostRuntime, live: &PageStore) -> io::Result<()> {
    let n = live.count();
    println!(rt; "page store: {n} entries kept")?;
    let Ok(mut image) = SlotStore::new(n) else {
        return println!(rt; "slot store: not made");
    };
    let mut file = [0u8; LONGEST_FILE];
    match transfer_table(live, &mut file, &mut image) {
        Ok(done) => {
            show_transfer(rt, done)?;
            show_table(rt, &image)
        }
        Err(fault) => show_fault(rt, fault),
    }
}

fn main(rt: HostRuntime) -> io::Result<()> {
    let mut buf = [0u8; MOST_INPUT];
    let n = read_input(&mut rt.stdin(), &mut buf)?;
    match load_listing(rt.alloc(), &buf[..n]) {
        Ok(catalogue) => {
            show_bad_lines(&rt, &catalogue.bad)?;
            carry(&rt, &catalogue.store)
        }
        Err(fault) => println!(rt; "listing: {fault}"),
    }
}
