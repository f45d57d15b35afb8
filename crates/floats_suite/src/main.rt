// Runs the stored pairs of patterns, made by libmpfr, through narrowing and the square root, and writes how many were tried and how many differ.
#![tactic(auto)]

use pipes::told;
use std::fs::File;
use std::io::Stdout;
use vectors::Tally;
use vectors::files::Records;

// A pattern, and the one that it comes to.
type Record = [u8; 16];

// What is done with patterns.
#[derive(Clone, Copy)]
enum Operation {
    Narrowing,
    SquareRoot,
}

fn answer(operation: Operation, pattern: u64) -> u64 {
    match operation {
        Operation::Narrowing => floats::narrow_bits(pattern) as u64,
        Operation::SquareRoot => floats::root_bits(pattern),
    }
}

// A line for a pair that differs.
fn show(out: Stdout, pattern: u64, stored: u64, got: u64) {
    told::put(out, b"  of ");
    told::put_hex(out, pattern, true);
    told::put(out, b": ");
    told::put_hex(out, got, false);
    told::put(out, b", stored ");
    told::put_hex(out, stored, false);
    told::put(out, b"\n");
}

fn try_pair(operation: Operation, record: &Record, tally: Tally) -> Tally {
    let pattern = vectors::number(record, 0, 8);
    let stored = vectors::number(record, 8, 8);
    let got = answer(operation, pattern);
    tally.met(
        false,
        got == stored,
        |out, _| show(out, pattern, stored, got),
    )
}

// A file of at most 262,144 pairs.
fn try_pairs(from: &File, out: Stdout, operation: Operation) -> Tally {
    let mut tally = Tally::new(out);
    for record in Records::of(Some(from), 262_144) {
        tally = try_pair(operation, &record, tally);
    }
    tally
}

fn run(rt: HostRuntime, what: &[u8], path: &[u8], operation: Operation) {
    if let Some(file) = vectors::files::open(rt, path) {
        try_pairs(&file, rt.stdout(), operation).report(what);
    }
}

fn main(rt: HostRuntime) {
    run(rt, b"narrowing", b"narrowing.bin", Operation::Narrowing);
    run(
        rt,
        b"square root",
        b"square_root.bin",
        Operation::SquareRoot,
    );
}
