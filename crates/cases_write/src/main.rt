// Reads pairs of sheets from standard input, each sheet after its length and the room that it is written into, as u32s, and writes
// a line for each sheet: number, place, bytes written, and a hash of all the room, filled with a pattern before; after two that are
// written whether their bytes are the same. tests/make_write_cases.py makes sheets and answers.
#![tactic(auto)]

use std::io;

// Writes a sheet into the room, prints its line, and says how many bytes are written: 0 for a refused one.
fn write(rt: &impl Print, sheet: &[u8], out: &mut [u8]) -> io::Result<usize> {
    let a = capi_answers::write_answer(sheet_write::write_sheet(sheet, out));
    let line = [a.number, a.place, a.written, cases::hash(out)];
    cases::print_line(rt, &line)?;
    Ok(a.written as usize)
}

// The array is set up at the head of the function that fills it, before any call: else it is set up twice.
fn write_input(
    rt: &(impl Input + Print),
    length: usize,
    room: usize,
    out: &mut [u8],
) -> io::Result<usize> {
    let mut sheet = [0u8; 65536];
    let n = cases::fill(rt, &mut sheet, length);
    write(rt, &sheet[..n], cases::first(out, room))
}

// The next sheet written into the room that it says; bytes as `write`, or END at the end of the input.
fn write_next(rt: &(impl Input + Print), out: &mut [u8]) -> io::Result<usize> {
    let length = cases::next_u32(rt);
    let room = cases::next_u32(rt);
    if room == cases::END {
        return Ok(cases::END);
    }
    write_input(rt, length, room, out)
}

fn print_same(rt: &impl Print, a: &[u8], b: &[u8]) -> io::Result<()> {
    if a == b {
        println!(rt; "same")
    } else {
        println!(rt; "different")
    }
}

// The first n, where there are so many; else none.
fn first(bytes: &[u8], n: usize) -> &[u8] {
    if bytes.len() < n {
        return &bytes[0..0];
    }
    &bytes[0..n]
}

// By what is written of each, where both are.
fn compare(rt: &impl Print, a: &[u8], n: usize, b: &[u8], m: usize) -> io::Result<()> {
    if 0 < n && 0 < m {
        print_same(rt, first(a, n), first(b, m))?;
    }
    Ok(())
}

// One pair; false at the end of the input.
fn next_case(rt: &(impl Input + Print)) -> io::Result<bool> {
    let mut a = [165u8; 65536];
    let mut b = [165u8; 65536];
    let n = write_next(rt, &mut a)?;
    if n == cases::END {
        return Ok(false);
    }
    let m = write_next(rt, &mut b)?;
    compare(rt, &a, n, &b, m)?;
    Ok(true)
}

// At most so many pairs, so that the program ends whatever it is fed.
fn main(rt: HostRuntime) -> io::Result<()> {
    for _ in 0..100000 {
        if !next_case(&rt)? {
            break;
        }
    }
    Ok(())
}
