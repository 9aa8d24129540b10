// Reads roundings from standard input, each as a u32 1 and three u64s (total, size and alignment), and writes a line for each: 1 if the
// alignment is a power of two, else 0; and but for an alignment of 0, which no rounding is asked of, two numbers for the size rounded and two
// for the total with it: 1 and what it comes to, or 0 and 0 where it passed 2^64 - 1. tests/make_scratch_cases.py makes roundings and lines.
#![tactic(auto)]

use cases::{next_u64, print_line};
use scratch::{add_rounded, align_to, is_power_of_two};
use std::io;

fn print_rounding(rt: &impl Print, total: u64, size: u64, alignment: u64) -> io::Result<()> {
    let power = u64::from(is_power_of_two(alignment));
    if alignment == 0 {
        let line = [power];
        return print_line(rt, &line);
    }
    let rounded = align_to(size, alignment);
    let sum = add_rounded(total, size, alignment);
    let line = [
        power,
        u64::from(rounded.is_some()),
        rounded.unwrap_or(0),
        u64::from(sum.is_some()),
        sum.unwrap_or(0),
    ];
    print_line(rt, &line)
}

// One rounding; false at the end of the input.
fn next_case(rt: &(impl Input + Print)) -> io::Result<bool> {
    if cases::next_u32(rt) != 1 {
        return Ok(false);
    }
    let total = next_u64(rt);
    let size = next_u64(rt);
    print_rounding(rt, total, size, next_u64(rt))?;
    Ok(true)
}

// At most so many roundings, so that the program ends whatever it is fed.
fn main(rt: HostRuntime) -> io::Result<()> {
    for _ in 0..100000 {
        if !next_case(&rt)? {
            return Ok(());
        }
    }
    Ok(())
}
