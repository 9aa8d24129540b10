// Reads sheets from standard input, each after its length as a u32, and prints the lines of each, and then its lines with their refusal
// in words. tests/make_report_cases.py makes sheets and text.
#![tactic(auto)]

use cases::print_first;
use std::io;

fn print_report(rt: &impl Print, sheet: &[u8]) -> io::Result<()> {
    let mut text = [0u8; 6134];
    if let Ok(n) = report::report(sheet, &mut text) {
        print_first(rt, &text, n)?;
    }
    Ok(())
}

fn print_explained(rt: &impl Print, sheet: &[u8]) -> io::Result<()> {
    let mut text = [0u8; 6381];
    if let Ok(n) = explain::explain(sheet, &mut text) {
        print_first(rt, &text, n)?;
    }
    Ok(())
}

// One sheet; false at the end of the input.
fn next_case(rt: &(impl Input + Print)) -> io::Result<bool> {
    let length = cases::next_u32(rt);
    if length == cases::END {
        return Ok(false);
    }
    let mut bytes = [0u8; 65536];
    let n = cases::fill(rt, &mut bytes, length);
    print_report(rt, &bytes[..n])?;
    print_explained(rt, &bytes[..n])?;
    Ok(true)
}

// At most so many sheets, so that the program ends whatever it is fed.
fn main(rt: HostRuntime) -> io::Result<()> {
    for _ in 0..100000 {
        if !next_case(&rt)? {
            return Ok(());
        }
    }
    Ok(())
}
