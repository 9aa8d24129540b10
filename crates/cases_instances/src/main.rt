// Reads tables from standard input, and for each of them cases: records to read, or items to append. For each call a line: number, E,
// bytes written or in use, and a hash of all the room, filled with a pattern before. What is read is then appended to Tlas 0 and to
// Tlas 1, what is appended is read again. tests/make_instances_cases.py says how a case is written, and makes cases and answers.
#![tactic(auto)]

use capi_answers::{append_many_answer, instances_answer};
use instance_many::append_instances;
use instance_read::read_instances;
use ray_tracing::{AppendAnswer, InstancesAnswer, TlasId};
use std::io;

// The first n, where there are so many; else none.
fn first(bytes: &[u8], n: usize) -> &[u8] {
    if bytes.len() < n {
        return &bytes[0..0];
    }
    &bytes[0..n]
}

fn print_read(
    rt: &impl Print,
    records: &[u8],
    blases: &[u8],
    items: &mut [u8],
) -> io::Result<InstancesAnswer> {
    let read = read_instances(records, blases, items);
    let a = instances_answer(read);
    let line = [a.number, a.e0, a.e1, a.written, cases::hash(items)];
    cases::print_line(rt, &line)?;
    Ok(a)
}

fn print_appended(
    rt: &impl Print,
    tlases: &[u8],
    blases: &[u8],
    tlas: TlasId,
    items: &[u8],
    instances: &mut [u8],
) -> io::Result<AppendAnswer> {
    let appended = append_instances(tlases, blases, tlas, items, instances, 0);
    let a = append_many_answer(0, appended);
    let line = [a.number, a.e0, a.e1, a.used, cases::hash(instances)];
    cases::print_line(rt, &line)?;
    Ok(a)
}

// What was read, appended where there is room for as many bytes as were read.
fn print_back(
    rt: &impl Print,
    tlases: &[u8],
    blases: &[u8],
    tlas: TlasId,
    items: &[u8],
    room: usize,
) -> io::Result<()> {
    let mut instances = [165u8; 65536];
    print_appended(
        rt,
        tlases,
        blases,
        tlas,
        items,
        cases::first(&mut instances, room),
    )?;
    Ok(())
}

fn print_both_back(
    rt: &impl Print,
    tlases: &[u8],
    blases: &[u8],
    items: &[u8],
    room: usize,
) -> io::Result<()> {
    print_back(rt, tlases, blases, TlasId(0), items, room)?;
    print_back(rt, tlases, blases, TlasId(1), items, room)
}

fn print_records(
    rt: &impl Print,
    tlases: &[u8],
    blases: &[u8],
    records: &[u8],
    room: usize,
) -> io::Result<()> {
    let mut items = [165u8; 65536];
    let a = print_read(rt, records, blases, cases::first(&mut items, room))?;
    if a.number == 0 {
        let n = a.written as usize;
        print_both_back(rt, tlases, blases, first(&items, n), records.len())?;
    }
    Ok(())
}

// What was appended, read where there is room for as many bytes as were lent.
fn print_again(rt: &impl Print, records: &[u8], blases: &[u8], room: usize) -> io::Result<()> {
    let mut items = [165u8; 65536];
    print_read(rt, records, blases, cases::first(&mut items, room))?;
    Ok(())
}

fn print_items(
    rt: &impl Print,
    tlases: &[u8],
    blases: &[u8],
    tlas: TlasId,
    items: &[u8],
    room: usize,
) -> io::Result<()> {
    let mut instances = [165u8; 65536];
    let a = print_appended(
        rt,
        tlases,
        blases,
        tlas,
        items,
        cases::first(&mut instances, room),
    )?;
    if a.number == 0 {
        let n = a.used as usize;
        print_again(rt, first(&instances, n), blases, items.len())?;
    }
    Ok(())
}

// One case; false at the end of the input.
fn next_case(rt: &(impl Input + Print), tlases: &[u8], blases: &[u8]) -> io::Result<bool> {
    let kind = cases::next_u32(rt);
    let id = cases::next_u32(rt);
    let tlas = TlasId((id % 65536) as u16);
    let room = cases::next_u32(rt);
    let length = cases::next_u32(rt);
    if length == cases::END {
        return Ok(false);
    }
    let mut bytes = [0u8; 65536];
    let n = cases::fill(rt, &mut bytes, length);
    if kind == 1 {
        print_records(rt, tlases, blases, &bytes[..n], room)?;
    } else {
        print_items(rt, tlases, blases, tlas, &bytes[..n], room)?;
    }
    Ok(true)
}

fn answer_each(
    rt: &(impl Input + Print),
    tlases: &[u8],
    blases: &[u8],
    count: usize,
) -> io::Result<()> {
    for _ in 0..count {
        if !next_case(rt, tlases, blases)? {
            break;
        }
    }
    Ok(())
}

// Tables and their cases; false at the end of the input.
fn next_tables(rt: &(impl Input + Print)) -> io::Result<bool> {
    let length = cases::next_u32(rt);
    if length == cases::END {
        return Ok(false);
    }
    let mut tlases = [0u8; 8192];
    let mut blases = [0u8; 16384];
    let t = cases::fill(rt, &mut tlases, length);
    let length = cases::next_u32(rt);
    let b = cases::fill(rt, &mut blases, length);
    let count = cases::next_u32(rt);
    answer_each(rt, &tlases[..t], &blases[..b], count)?;
    Ok(true)
}

// At most so many tables, so that the program ends whatever it is fed.
fn main(rt: HostRuntime) -> io::Result<()> {
    for _ in 0..100000 {
        if !next_tables(&rt)? {
            break;
        }
    }
    Ok(())
}
