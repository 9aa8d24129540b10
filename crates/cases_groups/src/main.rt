// Reads groups of slots from standard input, each after its length and the room that they are opened into, as u32s, and writes a
// line for each: number, place, group, item, bytes written, and a hash of all the room, filled with a pattern before.
// tests/make_groups_cases.py makes groups and answers.
#![tactic(auto)]

use std::io;

fn open(rt: &impl Print, groups: &[u8], slots: &mut [u8]) -> io::Result<()> {
    let a = capi_answers::open_answer(groups::open_groups(groups, slots));
    let line = [
        a.number,
        a.place,
        a.group,
        a.item,
        a.written,
        cases::hash(slots),
    ];
    cases::print_line(rt, &line)
}

// Each array is set up at the head of the function that fills it, before any call: else it is set up twice.
fn open_into(rt: &impl Print, groups: &[u8], room: usize) -> io::Result<()> {
    let mut slots = [165u8; 65536];
    open(rt, groups, cases::first(&mut slots, room))
}

fn open_input(rt: &(impl Input + Print), length: usize, room: usize) -> io::Result<()> {
    let mut groups = [0u8; 65536];
    let n = cases::fill(rt, &mut groups, length);
    open_into(rt, &groups[..n], room)
}

// One input; false at the end of all.
fn next_case(rt: &(impl Input + Print)) -> io::Result<bool> {
    let length = cases::next_u32(rt);
    let room = cases::next_u32(rt);
    if room == cases::END {
        return Ok(false);
    }
    open_input(rt, length, room)?;
    Ok(true)
}

// At most so many, so that the program ends whatever it is fed.
fn main(rt: HostRuntime) -> io::Result<()> {
    for _ in 0..100000 {
        if !next_case(&rt)? {
            break;
        }
    }
    Ok(())
}
