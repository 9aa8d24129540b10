// Reads submissions from standard input and writes a line for each: number, action, two figures, the counter after it, and a hash
// of each lent buffer. tests/make_submit_cases.py says how a case is written, and makes cases and answers.
#![tactic(auto)]

use ray_tracing::SubmissionBuffers;
use std::io;

// What is lent: the counter, and how much of each buffer.
#[derive(Clone, Copy)]
struct Lent {
    counter: u64,
    blases: usize,
    tlases: usize,
    counts: usize,
    cells: usize,
}

// One submission over what is lent, and its line; the counter after it.
fn run(
    rt: &impl Print,
    counter: u64,
    buffers: &mut SubmissionBuffers<'_>,
    actions: &[u32],
    lists: &[u16],
) -> io::Result<u64> {
    let s = submit::submit_numbers(counter, &mut *buffers, actions, lists);
    let line = [
        s.number,
        s.action,
        s.first,
        s.second,
        s.counter,
        cases::hash(buffers.blases),
        cases::hash(buffers.tlases),
        cases::hash(buffers.dependency_counts),
        cases::hash(buffers.dependencies),
    ];
    cases::print_line(rt, &line)?;
    Ok(s.counter)
}

// The n cells of actions and m of lists that follow, and their submission over the lent parts of the buffers.
fn act(
    rt: &(impl Input + Print),
    lent: Lent,
    blases: &mut [u8],
    tlases: &mut [u8],
    counts: &mut [u16],
    cells: &mut [u16],
    n: usize,
    m: usize,
) -> io::Result<u64> {
    let mut actions = [0u32; 4096];
    let mut lists = [0u16; 4096];
    let n = cases::fill_cells(rt, &mut actions, n);
    let m = cases::fill_cells(rt, &mut lists, m);
    let mut buffers = SubmissionBuffers {
        blases: cases::first(blases, lent.blases),
        tlases: cases::first(tlases, lent.tlases),
        dependency_counts: cases::first(counts, lent.counts),
        dependencies: cases::first(cells, lent.cells),
    };
    run(rt, lent.counter, &mut buffers, &actions[..n], &lists[..m])
}

// The library has no `From` for this one.
fn wide(n: u32) -> usize {
    n as usize
}

// A case's own tables, or with 1 what the case before left.
fn lent_of(head: &[u32; 7], counter: u64, before: Lent) -> Lent {
    if head[0] == 1 {
        return before;
    }
    Lent {
        counter,
        blases: wide(head[1]),
        tlases: wide(head[2]),
        counts: wide(head[3]),
        cells: wide(head[4]),
    }
}

// With 1 the head tells of no tables, so that none are read.
fn fill_tables(
    rt: &impl Input,
    head: &[u32; 7],
    blases: &mut [u8],
    tlases: &mut [u8],
    counts: &mut [u16],
    cells: &mut [u16],
) {
    cases::fill(rt, blases, wide(head[1]));
    cases::fill(rt, tlases, wide(head[2]));
    cases::fill_cells(rt, counts, wide(head[3]));
    cases::fill_cells(rt, cells, wide(head[4]));
}

// One case after its first seven numbers; what is lent for one that goes on with what it leaves.
fn next_case(
    rt: &(impl Input + Print),
    head: &[u32; 7],
    before: Lent,
    blases: &mut [u8],
    tlases: &mut [u8],
    counts: &mut [u16],
    cells: &mut [u16],
) -> io::Result<Lent> {
    let lent = lent_of(head, cases::next_u64(rt), before);
    fill_tables(rt, head, blases, tlases, counts, cells);
    let n = wide(head[5]);
    let m = wide(head[6]);
    let counter = act(rt, lent, blases, tlases, counts, cells, n, m)?;
    Ok(Lent { counter, ..lent })
}

// At most so many submissions, so that the program ends whatever it is fed.
fn main(rt: HostRuntime) -> io::Result<()> {
    let mut blases = [0u8; 4096];
    let mut tlases = [0u8; 1024];
    let mut counts = [0u16; 64];
    let mut cells = [0u16; 17408];
    let mut lent = Lent {
        counter: 0,
        blases: 0,
        tlases: 0,
        counts: 0,
        cells: 0,
    };
    for _ in 0..100000 {
        let mut head = [0u32; 7];
        if cases::fill_cells(&rt, &mut head, 7) < 7 {
            return Ok(());
        }
        lent = next_case(
            &rt,
            &head,
            lent,
            &mut blases,
            &mut tlases,
            &mut counts,
            &mut cells,
        )?;
    }
    Ok(())
}
