// Reads sheets from standard input, each after its length as a u32, and writes a line for each: the refusal's number and place, or
// 0, version, alignment, counter, and the start and count of each section. tests/make_read_cases.py makes sheets and answers.
#![tactic(auto)]

use ray_tracing::{Section, Sheet, SheetError, Version};
use std::io;

fn number(e: SheetError) -> u64 {
    match e {
        SheetError::UnknownVersion => 1,
        SheetError::Truncated => 2,
        SheetError::TrailingBytes => 3,
        SheetError::TooMany => 4,
        SheetError::InvalidValue => 5,
    }
}

fn version_number(version: Version) -> u64 {
    match version {
        Version::One => 1,
        Version::Two => 2,
    }
}

fn print_section(rt: &impl Print, s: Section) -> io::Result<()> {
    let words = [s.start as u64, s.count as u64];
    cases::print_words(rt, &words)
}

fn print_sheet(rt: &impl Print, s: Sheet) -> io::Result<()> {
    let version = s.version;
    let head = [0, version_number(version), s.alignment as u64, s.counter];
    let buffers = s.buffers;
    let blases = s.blases;
    let declared = s.declared;
    let tlases = s.tlases;
    let entries = s.entries;
    let geometries = s.geometries;
    let packages = s.packages;
    let slots = s.slots;
    let actions = s.actions;
    let last = [actions.start as u64, actions.count as u64];
    cases::print_words(rt, &head)?;
    print_section(rt, buffers)?;
    print_section(rt, blases)?;
    print_section(rt, declared)?;
    print_section(rt, tlases)?;
    print_section(rt, entries)?;
    print_section(rt, geometries)?;
    print_section(rt, packages)?;
    print_section(rt, slots)?;
    cases::print_line(rt, &last)
}

fn answer(rt: &impl Print, sheet: &[u8]) -> io::Result<()> {
    match sheet::read_sheet(sheet) {
        Ok(s) => print_sheet(rt, s),
        Err(r) => {
            let line = [number(r.error), r.place as u64];
            cases::print_line(rt, &line)
        }
    }
}

// One sheet; false at the end of the input.
fn next_case(rt: &(impl Input + Print)) -> io::Result<bool> {
    let length = cases::next_u32(rt);
    if length == cases::END {
        return Ok(false);
    }
    let mut bytes = [0u8; 65536];
    let n = cases::fill(rt, &mut bytes, length);
    answer(rt, &bytes[..n])?;
    Ok(true)
}

// At most so many sheets, so that the program ends whatever it is fed.
fn main(rt: HostRuntime) -> io::Result<()> {
    for _ in 0..100_000 {
        if !next_case(&rt)? {
            break;
        }
    }
    Ok(())
}
