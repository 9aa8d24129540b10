// Reads sheets from standard input, each after its length and the room that it is converted into, as u32s, and writes for each a
// line of each way, to version 2 and to version 1: number, place, bytes written, and a hash of all the room, filled with a pattern
// before. What is written is converted back: its line, and whether it has the sheet's own bytes. tests/make_convert_cases.py makes
// sheets and answers.
#![tactic(auto)]

use ray_tracing::{Version, WriteAnswer};
use std::io;

fn convert(to: Version, sheet: &[u8], out: &mut [u8]) -> WriteAnswer {
    match to {
        Version::One => capi_answers::convert_answer(sheet_convert::to_version_1(sheet, out)),
        Version::Two => capi_answers::convert_answer(sheet_convert::to_version_2(sheet, out)),
    }
}

// Converts a sheet into the room, prints its line, and says how many bytes are written: 0 for a refused one.
fn print_converted(
    rt: &impl Print,
    to: Version,
    sheet: &[u8],
    out: &mut [u8],
) -> io::Result<usize> {
    let a = convert(to, sheet, out);
    let line = [a.number, a.place, a.written, cases::hash(out)];
    cases::print_line(rt, &line)?;
    Ok(a.written as usize)
}

fn print_same(rt: &impl Print, a: &[u8], b: &[u8]) -> io::Result<()> {
    if a == b {
        println!(rt; "same")
    } else {
        println!(rt; "different")
    }
}

// The first n, where there are so many; else none.
fn first(bytes: &[u8], n: usize) -> &[u8] {
    if bytes.len() < n {
        return &bytes[0..0];
    }
    &bytes[0..n]
}

fn print_back(rt: &impl Print, to: Version, there: &[u8], sheet: &[u8]) -> io::Result<()> {
    let mut back = [165u8; 65536];
    let n = print_converted(rt, to, there, &mut back)?;
    print_same(rt, first(&back, n), sheet)
}

fn print_there_and_back(
    rt: &impl Print,
    to: Version,
    from: Version,
    sheet: &[u8],
    room: usize,
) -> io::Result<()> {
    let mut there = [165u8; 65536];
    let n = print_converted(rt, to, sheet, cases::first(&mut there, room))?;
    if 0 < n {
        print_back(rt, from, first(&there, n), sheet)?;
    }
    Ok(())
}

// One sheet; false at the end of the input.
fn next_case(rt: &(impl Input + Print)) -> io::Result<bool> {
    let length = cases::next_u32(rt);
    let room = cases::next_u32(rt);
    if room == cases::END {
        return Ok(false);
    }
    let mut sheet = [0u8; 65536];
    let n = cases::fill(rt, &mut sheet, length);
    print_there_and_back(rt, Version::Two, Version::One, &sheet[..n], room)?;
    print_there_and_back(rt, Version::One, Version::Two, &sheet[..n], room)?;
    Ok(true)
}

// At most so many sheets, so that the program ends whatever it is fed.
fn main(rt: HostRuntime) -> io::Result<()> {
    for _ in 0..100000 {
        if !next_case(&rt)? {
            break;
        }
    }
    Ok(())
}
