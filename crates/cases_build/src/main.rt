// Reads builds over lent tables from standard input and writes a line for each: number, E, three figures, recorded, scratch size,
// how many elements of each output are written, and a hash of each output's whole array, filled with a pattern before.
// tests/make_build_cases.py says how a case is written, and makes cases and answers.
#![tactic(auto)]

use ray_tracing::{BuildOutputs, BuildRefusal, BuildTables, Built, Version};
use std::io;

// Number i of a case's head.
fn number(head: &[u32; 17], i: usize) -> usize {
    if i < 17 { head[i] as usize } else { 0 }
}

// The bytes of table k, which follow those of the tables before it.
fn start_of(head: &[u32; 17], k: usize) -> usize {
    let mut at = 0;
    for i in 1..k {
        at = (at % 65536) + number(head, i) % 65536;
    }
    at
}

fn part(bytes: &[u8], at: usize, n: usize) -> &[u8] {
    if bytes.len() < at {
        return &[];
    }
    if bytes.len() - at < n {
        return &[];
    }
    let end = at + n;
    &bytes[at..end]
}

fn table<'a>(head: &[u32; 17], bytes: &'a [u8], k: usize) -> &'a [u8] {
    part(bytes, start_of(head, k), number(head, k))
}

fn print_built(rt: &impl Print, built: Result<Built, BuildRefusal>) -> io::Result<()> {
    let a = capi_answers::build_answer(built);
    let words = [
        a.number,
        a.e0,
        a.e1,
        a.f0,
        a.f1,
        a.f2,
        a.recorded,
        a.scratch_size,
        a.blas_offsets,
        a.tlas_offsets,
        a.staging_ranges,
        a.instances,
        a.init_ranges,
        a.compactable,
        a.lists,
    ];
    cases::print_words(rt, &words)
}

// One build over arrays filled with a pattern.
fn answer(rt: &impl Print, version: Version, head: &[u32; 17], bytes: &[u8]) -> io::Result<()> {
    let mut blas_offsets = [0xa5a5_a5a5_a5a5_a5a5u64; 72];
    let mut tlas_offsets = [0xa5a5_a5a5_a5a5_a5a5u64; 40];
    let mut staging_ranges = [0xa5a5_a5a5_a5a5_a5a5u64; 80];
    let mut instances = [0xa5u8; 33024];
    let mut init_ranges = [0xa5a5_a5a5_a5a5_a5a5u64; 2400];
    let mut compactable = [0xa5a5u16; 72];
    let mut lists = [0xa5a5u16; 700];
    let tables = BuildTables {
        version,
        alignment: head[0],
        buffers: table(head, bytes, 1),
        blases: table(head, bytes, 2),
        declared: table(head, bytes, 3),
        tlases: table(head, bytes, 4),
        entries: table(head, bytes, 5),
        geometries: table(head, bytes, 6),
        packages: table(head, bytes, 7),
        slots: table(head, bytes, 8),
    };
    // As much of each output as the case lends.
    let mut outputs = BuildOutputs {
        blas_offsets: cases::first(&mut blas_offsets, number(head, 9)),
        tlas_offsets: cases::first(&mut tlas_offsets, number(head, 10)),
        staging_ranges: cases::first(&mut staging_ranges, number(head, 11)),
        instances: cases::first(&mut instances, number(head, 12)),
        init_ranges: cases::first(&mut init_ranges, number(head, 13)),
        compactable: cases::first(&mut compactable, number(head, 14)),
        lists: cases::first(&mut lists, number(head, 15)),
    };
    let built = build::build_acceleration_structures(&tables, &mut outputs);
    print_built(rt, built)?;
    let hashes = [
        cases::hash(&blas_offsets),
        cases::hash(&tlas_offsets),
        cases::hash(&staging_ranges),
        cases::hash(&instances),
        cases::hash(&init_ranges),
        cases::hash(&compactable),
        cases::hash(&lists),
    ];
    cases::print_line(rt, &hashes)
}

// One case; false at the end of the input, and for a version that there is not.
fn next_case(rt: &(impl Input + Print)) -> io::Result<bool> {
    let mut head = [0u32; 17];
    if cases::fill_cells(rt, &mut head, 17) < 17 {
        return Ok(false);
    }
    let mut bytes = [0u8; 65536];
    cases::fill(rt, &mut bytes, start_of(&head, 9));
    match number(&head, 16) {
        1 => answer(rt, Version::One, &head, &bytes)?,
        2 => answer(rt, Version::Two, &head, &bytes)?,
        _ => return Ok(false),
    }
    Ok(true)
}

// At most so many builds, so that the program ends whatever it is fed.
fn main(rt: HostRuntime) -> io::Result<()> {
    for _ in 0..100000 {
        if !next_case(&rt)? {
            break;
        }
    }
    Ok(())
}
