// Reads instances to append from standard input and writes a line for each case: of one call for all of them number, E, bytes in use
// and a hash of all the room, filled with a pattern before; then of one call after another, up to the first that is refused, the last
// one's number, bytes in use, how many calls there were, and a hash of a room of its own, filled alike. tests/make_append_cases.py
// says how a case is written, and makes cases and answers.
#![tactic(auto)]

use capi_answers::{append_answer, append_many_answer};
use instance::append_instance;
use instance_bytes::instance_from;
use instance_many::append_instances;
use ray_tracing::{LENT_SIZE, TlasId};
use std::io;

fn append_all(
    rt: &impl Print,
    tlases: &[u8],
    blases: &[u8],
    tlas: TlasId,
    items: &[u8],
    instances: &mut [u8],
    used: usize,
) -> io::Result<()> {
    let appended = append_instances(tlases, blases, tlas, items, instances, used);
    let a = append_many_answer(used, appended);
    let words = [a.number, a.e0, a.e1, a.used, cases::hash(instances)];
    cases::print_words(rt, &words)
}

fn append_each(
    rt: &impl Print,
    tlases: &[u8],
    blases: &[u8],
    tlas: TlasId,
    items: &[u8],
    instances: &mut [u8],
    used: usize,
) -> io::Result<()> {
    let mut in_use = used;
    let mut number = 0;
    let mut calls = 0;
    for (i, item) in items.chunks_exact(LENT_SIZE).enumerate() {
        let instance = instance_from(item, 0);
        let appended = append_instance(tlases, blases, tlas, instance, instances, in_use);
        let a = append_answer(in_use, appended);
        number = a.number;
        in_use = a.used as usize;
        calls = i + 1;
        if number != 0 {
            break;
        }
    }
    let line = [number, in_use as u64, calls as u64, cases::hash(instances)];
    cases::print_line(rt, &line)
}

// Both, each over a room of its own.
fn answer(
    rt: &impl Print,
    tlases: &[u8],
    blases: &[u8],
    tlas: TlasId,
    items: &[u8],
    room: usize,
    used: usize,
) -> io::Result<()> {
    let mut first = [165u8; 65536];
    let mut second = [165u8; 65536];
    append_all(
        rt,
        tlases,
        blases,
        tlas,
        items,
        cases::first(&mut first, room),
        used,
    )?;
    append_each(
        rt,
        tlases,
        blases,
        tlas,
        items,
        cases::first(&mut second, room),
        used,
    )
}

// One case; false at the end of the input.
fn next_case(rt: &(impl Input + Print)) -> io::Result<bool> {
    let id = cases::next_u32(rt);
    if id == cases::END {
        return Ok(false);
    }
    let tlas = TlasId((id % 65536) as u16);
    let used = cases::next_u64(rt) as usize;
    let room = cases::next_u32(rt);
    let mut tlases = [0u8; 8192];
    let mut blases = [0u8; 16384];
    let mut items = [0u8; 65536];
    let length = cases::next_u32(rt);
    let t = cases::fill(rt, &mut tlases, length);
    let length = cases::next_u32(rt);
    let b = cases::fill(rt, &mut blases, length);
    let length = cases::next_u32(rt);
    let n = cases::fill(rt, &mut items, length);
    answer(
        rt,
        &tlases[..t],
        &blases[..b],
        tlas,
        &items[..n],
        room,
        used,
    )?;
    Ok(true)
}

// At most so many cases, so that the program ends whatever it is fed.
fn main(rt: HostRuntime) -> io::Result<()> {
    for _ in 0..100000 {
        if !next_case(&rt)? {
            break;
        }
    }
    Ok(())
}
