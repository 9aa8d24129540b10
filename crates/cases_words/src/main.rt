// Reads refusals from standard input, each as a u32 1 and seven u64s (call, number, E and three figures), and prints the words of each.
// tests/make_words_cases.py makes refusals and text.
#![tactic(auto)]

use cases::{next_u64, print_first};
use report_words::{Refusal, words};
use std::io;

fn print_words_of(rt: &impl Print, refusal: Refusal) -> io::Result<()> {
    let mut text = [0u8; 247];
    if let Ok(n) = words(refusal, &mut text) {
        print_first(rt, &text, n)?;
    }
    Ok(())
}

// One refusal; false at the end of the input.
fn next_case(rt: &(impl Input + Print)) -> io::Result<bool> {
    if cases::next_u32(rt) != 1 {
        return Ok(false);
    }
    let refusal = Refusal {
        call: next_u64(rt),
        number: next_u64(rt),
        e: next_u64(rt),
        f: next_u64(rt),
        x: next_u64(rt),
        y: next_u64(rt),
        z: next_u64(rt),
    };
    print_words_of(rt, refusal)?;
    Ok(true)
}

// At most so many refusals, so that the program ends whatever it is fed.
fn main(rt: HostRuntime) -> io::Result<()> {
    for _ in 0..100000 {
        if !next_case(&rt)? {
            return Ok(());
        }
    }
    Ok(())
}
