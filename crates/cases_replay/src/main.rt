// Replays recorded answers of the published Rust: reads sheets and submissions from standard input and prints what `report` and
// `submit` answer, with a hash of each table and list that a submission leaves. `oracle/record crates/cases_replay` makes both files;
// oracle/README.md says how a record is written and what is in the list.
//
// Each sheet is converted to the other version too: where it is read, what is written must print the same lines and be converted back to the
// sheet's own bytes. Where that isn't so a line says it, which no recorded answer has.
#![tactic(auto)]

use ray_tracing::{ConvertSheetError, SubmissionBuffers};
use std::io;
use submit::Numbered;

// The first n, where there are so many; else none.
fn first(bytes: &[u8], n: usize) -> &[u8] {
    bytes.get(..n).unwrap_or(&[])
}

fn is_version_2(sheet: &[u8]) -> bool {
    first(sheet, 1) == b"\x02".as_slice()
}

fn to_other_version(sheet: &[u8], out: &mut [u8]) -> Result<usize, ConvertSheetError> {
    if is_version_2(sheet) {
        return sheet_convert::to_version_1(sheet, out);
    }
    sheet_convert::to_version_2(sheet, out)
}

fn expect(rt: &impl Print, holds: bool) -> io::Result<()> {
    if !holds {
        println!(rt; "not so in the other version")?;
    }
    Ok(())
}

fn hold_lines(rt: &impl Print, converted: &[u8], lines: &[u8]) -> io::Result<()> {
    let mut text = [0u8; 6134];
    match report::report(converted, &mut text) {
        Ok(n) => expect(rt, first(&text, n) == lines),
        Err(_) => expect(rt, false),
    }
}

fn hold_bytes(rt: &impl Print, converted: &[u8], sheet: &[u8]) -> io::Result<()> {
    let mut back = [0u8; 65536];
    match to_other_version(converted, &mut back) {
        Ok(n) => expect(rt, first(&back, n) == sheet),
        Err(_) => expect(rt, false),
    }
}

// A sheet with its lines: one that is not converted is refused, or of version 2 with an offset that does not fit.
fn hold_converted(rt: &impl Print, sheet: &[u8], lines: &[u8]) -> io::Result<()> {
    let mut other = [0u8; 65536];
    match to_other_version(sheet, &mut other) {
        Ok(n) => {
            hold_lines(rt, first(&other, n), lines)?;
            hold_bytes(rt, first(&other, n), sheet)
        }
        Err(ConvertSheetError::Malformed(_)) => expect(rt, first(lines, 6) == b"sheet ".as_slice()),
        Err(ConvertSheetError::OffsetTooFar(_)) => expect(rt, is_version_2(sheet)),
        Err(ConvertSheetError::OutputTooShort) => expect(rt, false),
    }
}

fn answer_sheet(rt: &impl Print, sheet: &[u8]) -> io::Result<()> {
    let mut text = [0u8; 6134];
    if let Ok(n) = report::report(sheet, &mut text) {
        cases::print_first(rt, &text, n)?;
        hold_converted(rt, sheet, first(&text, n))?;
    }
    Ok(())
}

fn replay_sheet(rt: &(impl Input + Print)) -> io::Result<()> {
    let mut bytes = [0u8; 65536];
    let length = cases::next_u32(rt);
    let n = cases::fill(rt, &mut bytes, length);
    answer_sheet(rt, &bytes[..n])
}

// The n cells of list i, in its room of 512, if they are lent.
fn fill_list(rt: &impl Input, cells: &mut [u16], i: usize, n: usize) {
    if 64 < i || 512 < n {
        return;
    }
    let start = 512 * i;
    let end = start + n;
    if end <= cells.len() {
        cases::fill_cells(rt, &mut cells[start..end], n);
    }
}

fn fill_lists(rt: &impl Input, cells: &mut [u16], counts: &[u16]) {
    for (i, count) in counts.iter().enumerate() {
        fill_list(rt, cells, i, usize::from(*count));
    }
}

fn print_answer(rt: &impl Print, answer: Numbered) -> io::Result<u64> {
    let figures = [answer.number, answer.action, answer.first, answer.second];
    let next = [answer.counter];
    print!(rt; "submit ")?;
    cases::print_line(rt, &figures)?;
    print!(rt; "next ")?;
    cases::print_line(rt, &next)?;
    Ok(answer.counter)
}

fn print_left(rt: &impl Print, buffers: &SubmissionBuffers<'_>) -> io::Result<()> {
    let hashes = [
        cases::hash(buffers.blases),
        cases::hash(buffers.tlases),
        cases::hash(buffers.dependency_counts),
        cases::hash(buffers.dependencies),
    ];
    print!(rt; "left ")?;
    cases::print_line(rt, &hashes)
}

// The next piece on what is lent; the counter after it.
fn replay_piece(
    rt: &(impl Input + Print),
    counter: u64,
    buffers: &mut SubmissionBuffers<'_>,
) -> io::Result<u64> {
    let mut actions = [0u32; 2048];
    let mut lists = [0u16; 17408];
    let length = cases::next_u32(rt);
    let n = cases::fill_cells(rt, &mut actions, length);
    let length = cases::next_u32(rt);
    let m = cases::fill_cells(rt, &mut lists, length);
    let answer = submit::submit_numbers(counter, buffers, &actions[..n], &lists[..m]);
    let next = print_answer(rt, answer)?;
    print_left(rt, buffers)?;
    Ok(next)
}

// The pieces in turn, each on what the one before left.
fn replay_pieces(
    rt: &(impl Input + Print),
    pieces: usize,
    counter: u64,
    buffers: &mut SubmissionBuffers<'_>,
) -> io::Result<()> {
    let mut next = counter;
    for _ in 0..pieces {
        next = replay_piece(rt, next, buffers)?;
    }
    Ok(())
}

fn replay_submission(rt: &(impl Input + Print)) -> io::Result<()> {
    let mut blases = [0u8; 4096];
    let mut tlases = [0u8; 1024];
    let mut counts = [0u16; 64];
    let mut cells = [0xa5a5u16; 17408];
    let pieces = cases::next_u32(rt);
    let counter = cases::next_u64(rt);
    let length = cases::next_u32(rt);
    let b = cases::fill(rt, &mut blases, length);
    let length = cases::next_u32(rt);
    let t = cases::fill(rt, &mut tlases, length);
    let length = cases::next_u32(rt);
    let n = cases::fill_cells(rt, &mut counts, length);
    let length = cases::next_u32(rt);
    let dependencies = cases::first(&mut cells, length);
    fill_lists(rt, &mut *dependencies, &counts[..n]);
    let mut buffers = SubmissionBuffers {
        blases: &mut blases[..b],
        tlases: &mut tlases[..t],
        dependency_counts: &mut counts[..n],
        dependencies,
    };
    replay_pieces(rt, pieces, counter, &mut buffers)
}

// One record: 1 a sheet, 2 a submission; false at the input's end.
fn next_record(rt: &(impl Input + Print)) -> io::Result<bool> {
    match cases::next_u32(rt) {
        1 => replay_sheet(rt)?,
        2 => replay_submission(rt)?,
        _ => return Ok(false),
    }
    Ok(true)
}

// At most so many records, so that the program ends whatever it is fed.
fn main(rt: HostRuntime) -> io::Result<()> {
    for _ in 0..100000 {
        if !next_record(&rt)? {
            return Ok(());
        }
    }
    Ok(())
}
