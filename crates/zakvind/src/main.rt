// zakvind [VERB]: reads a sheet from standard input and prints its lines; with the verb `explain` also what they refuse, in words; with
// `canonical` in their place its canonical bytes. Of an input that is longer than the buffer the first 65,536 bytes are read: the first 57,440
// decide what is printed (`report_prefix` of `report`, `explained_prefix` of `explain`) and whether a sheet is read at all (`prefix_decides` of
// `ray_tracing`). None has more than 57,439, so that no part of a longer input is written as one.
//
// With `to-2` and `to-1` the sheet's bytes in that version are printed, with a line to standard error that says how many those are; nothing where
// it is not converted. With `not-to-2` and `not-to-1` it is printed in words why it isn't.
//
// With the verb `open` the input is groups of slots, and the slots that they open to are printed, with such a line; nothing where they are
// refused. With `unopened` it is printed in words why they are. Of an input that is longer than 1,048,575 bytes nothing is printed. Both take it
// by one function, which so is compiled by itself: what prints sheets sets up no such stack.
//
// For other arguments it prints nothing.
#![tactic(auto)]

ghost use Rattle.std.specs.Prelude.{◌≡◌, ◌≤◌, length};

use ray_tracing::{ConvertSheetError, OpenAnswer, OpenGroupsError, Version};
use report_words::{Refusal, no_refusal};
use std::env::FillError;
use std::io;
use std::io::Read;
use std::rt::Env;

// The input's bytes, put first, up to its end or until there is no room for more, and how many those are. A read that fails ends the input.
fn read_full(rt: &impl Input, bytes: &mut [u8]) -> usize
    ensures { result ≤ length bytes.new }
{
    let mut input = rt.reader();
    let mut done = 0;
    // A `while`: how many bytes a read gives is not known before.
    while done < bytes.len() {
        match input.read(&mut bytes[done..]) {
            Ok(0) | Err(_) => break,
            Ok(more) => done += more,
        }
    }
    done
}

fn print(rt: &impl Print, text: &[u8], n: usize) -> io::Result<()> {
    if n <= text.len() {
        rt.write_all(&text[0..n])?;
    }
    Ok(())
}

// No sheet's lines are more than 6,134 bytes, so none is refused here (`report-most`, `never_short` of `report`).
fn print_lines(rt: &impl Print, sheet: &[u8]) -> io::Result<()> {
    let mut text = [0u8; 6134];
    if let Ok(n) = report::report(sheet, &mut text) {
        print(rt, &text, n)?;
    }
    Ok(())
}

// Nor are they with their words more than 6,381 (`explained-most`, `never_short` of `explain`).
fn print_explained(rt: &impl Print, sheet: &[u8]) -> io::Result<()> {
    let mut text = [0u8; 6381];
    if let Ok(n) = explain::explain(sheet, &mut text) {
        print(rt, &text, n)?;
    }
    Ok(())
}

// Nothing for a refused sheet; a written one is never empty, and never longer than this.
fn print_canonical(rt: &impl Print, sheet: &[u8]) -> io::Result<()> {
    let mut out = [0u8; 65536];
    if let Ok(n) = sheet_write::write_sheet(sheet, &mut out) {
        print(rt, &out, n)?;
    }
    Ok(())
}

fn say_written(rt: &impl Eprint, n: usize) -> io::Result<()> {
    eprintln!(rt; "written {n}")
}

// No words are more than 247 bytes.
fn print_words(rt: &impl Print, refusal: Refusal) -> io::Result<()> {
    let mut text = [0u8; 247];
    if let Ok(n) = report_words::words(refusal, &mut text) {
        print(rt, &text, n)?;
    }
    Ok(())
}

// A sheet in a version. Every sheet that is converted has room: none is longer than 57,439 bytes in either version.
fn convert(to: Version, sheet: &[u8], out: &mut [u8]) -> Result<usize, ConvertSheetError> {
    match to {
        Version::One => sheet_convert::to_version_1(sheet, out),
        Version::Two => sheet_convert::to_version_2(sheet, out),
    }
}

fn print_converted(rt: &(impl Print + Eprint), to: Version, sheet: &[u8]) -> io::Result<()> {
    let mut out = [0u8; 65536];
    if let Ok(n) = convert(to, sheet, &mut out) {
        print(rt, &out, n)?;
        say_written(rt, n)?;
    }
    Ok(())
}

// The call that `report_words` takes it for.
fn call_of(to: Version) -> u64 {
    match to {
        Version::One => 9,
        Version::Two => 8,
    }
}

fn print_unconverted(rt: &impl Print, to: Version, sheet: &[u8]) -> io::Result<()> {
    let mut out = [0u8; 65536];
    let a = capi_answers::convert_answer(convert(to, sheet, &mut out));
    print_words(
        rt,
        Refusal {
            call: call_of(to),
            number: a.number,
            e: a.place,
            ..no_refusal()
        },
    )
}

fn groups_buffer() -> [u8; 1048576]
    ensures { 1048576 ≡ length result }
{
    [0; 1048576]
}

// What opening the groups of the input came to; nothing where it fills the buffer, and may be longer.
fn open_input(rt: &impl Input, slots: &mut [u8]) -> Option<Result<usize, OpenGroupsError>> {
    let mut groups = groups_buffer();
    let n = read_full(rt, &mut groups);
    if n < groups.len() {
        return Some(groups::open_groups(&groups[..n], slots));
    }
    None
}

// No groups open to more than 512 slots of 56 bytes, and none that are not refused to none.
fn print_slots(rt: &(impl Input + Print + Eprint)) -> io::Result<()> {
    let mut out = [0u8; 28672];
    if let Some(Ok(n)) = open_input(rt, &mut out) {
        print(rt, &out, n)?;
        say_written(rt, n)?;
    }
    Ok(())
}

// Of 45 and 46 with the group and the item, of the others with the place: by the C answer's numbers, which `words` takes.
fn print_refusal(rt: &impl Print, a: OpenAnswer) -> io::Result<()> {
    let e = if 45 <= a.number { a.group } else { a.place };
    print_words(
        rt,
        Refusal {
            call: 6,
            number: a.number,
            e,
            f: a.item,
            ..no_refusal()
        },
    )
}

fn print_unopened(rt: &(impl Input + Print)) -> io::Result<()> {
    let mut slots = [0u8; 28672];
    if let Some(opened) = open_input(rt, &mut slots) {
        print_refusal(rt, capi_answers::open_answer(opened))?;
    }
    Ok(())
}

fn answer(rt: &(impl Print + Eprint), verb: &[u8], sheet: &[u8]) -> io::Result<()> {
    match verb {
        b"explain" => print_explained(rt, sheet),
        b"canonical" => print_canonical(rt, sheet),
        b"to-2" => print_converted(rt, Version::Two, sheet),
        b"to-1" => print_converted(rt, Version::One, sheet),
        b"not-to-2" => print_unconverted(rt, Version::Two, sheet),
        b"not-to-1" => print_unconverted(rt, Version::One, sheet),
        _ => Ok(()),
    }
}

fn answer_sheet(rt: &(impl Input + Print + Eprint), verb: &[u8]) -> io::Result<()> {
    let mut sheet = [0u8; 65536];
    let n = read_full(rt, &mut sheet);
    answer(rt, verb, &sheet[..n])
}

// A verb that is longer than any has no bytes here, and is none.
fn answer_argument(rt: &(impl Env + Input + Print + Eprint)) -> io::Result<()> {
    let mut space = [0u8; 16];
    let n = rt.arg(1, &mut space).unwrap_or(0);
    let verb = &space[..n];
    match verb {
        b"open" => print_slots(rt),
        b"unopened" => print_unopened(rt),
        _ => answer_sheet(rt, verb),
    }
}

fn answer_plain(rt: &(impl Input + Print)) -> io::Result<()> {
    let mut sheet = [0u8; 65536];
    let n = read_full(rt, &mut sheet);
    print_lines(rt, &sheet[..n])
}

fn has_argument(rt: &impl Env, i: usize) -> bool {
    !matches!(rt.arg(i, &mut []), Err(FillError::NotPresent))
}

fn main(rt: HostRuntime) -> io::Result<()> {
    if !has_argument(&rt, 1) {
        answer_plain(&rt)
    } else if !has_argument(&rt, 2) {
        answer_argument(&rt)
    } else {
        Ok(())
    }
}
