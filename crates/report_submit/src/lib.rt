// The lines `submit` and `next`: a sheet's actions, submitted.
#![tactic(auto)]

ghost use Rattle.std.specs.Prelude.{◌≡◌, [], ◌∷◌, ◌++◌, ◌+◌, ◌*◌, ◌≤◌, ◌<◌, length, get_or};
ghost use Rattle.std.proofs.lemmas.List.Edits.{sets};
ghost use Rattle.ray_tracing.specs.Layout.{layout};
ghost use Rattle.ray_tracing.specs.Report.{line, word_submit, word_next, kept, outcome_lines};
ghost use Rattle.ray_tracing.specs.Sizes.{longest_line};
ghost use Rattle.ray_tracing.specs.Explain.{outcome_refusal};
ghost use Rattle.ray_tracing.specs.Submission.{counter_of, outcome_of};
ghost use Rattle.ray_tracing.specs.Parts.{packages_in, entries_in, listing};
ghost use Rattle.ray_tracing.specs.Plan.{lent_tables};
ghost use Rattle.report_text.specs.Put.{Put};
ghost use Rattle.report_words.specs.Refused.{Refuses};
ghost use Rattle.report_submit.specs.Parts.{actions_in, kind_of, kept_cells, all_cells, places};
ghost use Rattle.report_submit.specs.Parts.{parts_of, submission_outcome, LendableTables};

use ray_tracing::{
    ACTION_SIZE, BuildTables, ENTRY_SIZE, PACKAGE_SIZE, SubmissionBuffers, SubmissionRefusal,
    TLAS_ROOM, TLAS_SIZE,
};
use report_text::{put, put_line};
use report_words::{Refusal, action_refusal, no_refusal};
use submit::submit;
use wire::{u8_at, u16_at};

// Where the text ends, and what it refuses.
#[derive(Clone, Copy)]
pub struct Printed {
    pub end: usize,
    pub refusal: Refusal,
}

// With nothing recorded kind 1, the recorded build, is passed over.
fn is_kept(recorded: bool, kind: u8) -> bool
    ensures { result ≡ kept recorded kind }
{
    recorded || kind != 1
}

fn put_cells(cells: &mut [u32], at: usize, kind: u32, operand: u32, blases: u32, tlases: u32)
    requires { at + 4 ≤ length cells.old }
    ensures { cells.new ≡ sets cells.old at (kind ∷ operand ∷ blases ∷ tlases ∷ []) }
{
    cells[at] = kind;
    cells[at + 1] = operand;
    cells[at + 2] = blases;
    cells[at + 3] = tlases;
}

// What action i adds to the cells: four, or none where it is passed over.
fn put_action(
    recorded: bool,
    actions: &[u8],
    i: usize,
    tables: &BuildTables<'_>,
    cells: &mut [u32],
    at: usize,
) -> usize
    requires i_bound { (i < actions_in actions.now) × (at + 4 ≤ length cells.old) }
    requires entries_bound { (entries_in tables.now.entries.now ≤ (layout 5).most)
        × (packages_in tables.now.packages.now ≤ (layout 7).most) }
    ensures { Put cells.old at
        (kept_cells (listing tables.now.entries.now tables.now.packages.now) recorded actions.now i)
        result cells.new }
{
    let kind = u8_at(actions, i * ACTION_SIZE);
    if !is_kept(recorded, kind) {
        return at;
    }
    if kind == 1 {
        put_cells(
            cells,
            at,
            1,
            0,
            (tables.entries.len() / ENTRY_SIZE) as u32,
            (tables.packages.len() / PACKAGE_SIZE) as u32,
        );
        return at + 4;
    }
    put_cells(
        cells,
        at,
        kind as u32,
        u16_at(actions, i * ACTION_SIZE + 1) as u32,
        0,
        0,
    );
    at + 4
}

#[tactic(auto, using(crate::proofs::Laws::cells_walk))]
fn put_actions(recorded: bool, actions: &[u8], tables: &BuildTables<'_>, cells: &mut [u32]) -> usize
    requires actions_in_bounds { actions_in actions.now * 4 ≤ length cells.old }
    requires entries_bound { (entries_in tables.now.entries.now ≤ (layout 5).most)
        × (packages_in tables.now.packages.now ≤ (layout 7).most) }
    ensures { Put cells.old 0
        (all_cells (listing tables.now.entries.now tables.now.packages.now) recorded actions.now)
        result cells.new }
{
    let n = actions.len() / ACTION_SIZE;
    let mut end: usize = 0;
    for i in 0..n {
        end = put_action(recorded, actions, i, tables, cells, end);
    }
    end
}

// The position of the k-th action that is kept; 0 where there is none, as `get_or` says: no refusal names such an action.
#[tactic(auto, using(crate::proofs::Laws::places_walk))]
fn position_of(recorded: bool, actions: &[u8], k: usize) -> usize
    ensures { result ≡ get_or (places recorded actions.now) k 0 }
{
    let n = actions.len() / ACTION_SIZE;
    let mut left = k;
    for i in 0..n {
        if is_kept(recorded, u8_at(actions, i * ACTION_SIZE)) {
            if left == 0 {
                return i;
            }
            left -= 1;
        }
    }
    0
}

// The kind of action i, of which the first byte may be all there is; 0, which is no kind, where there is none, as C passes it.
fn kind_at(actions: &[u8], i: usize) -> u8
    ensures { result ≡ kind_of actions.now i }
{
    if i < (actions.len() + 2) / ACTION_SIZE {
        return u8_at(actions, i * ACTION_SIZE);
    }
    0
}

// What a refusal tells, at the position of the sheet's action.
fn told(recorded: bool, actions: &[u8], submitted: Result<u64, SubmissionRefusal>) -> Refusal
    ensures { Refuses result
        (outcome_refusal actions.now (places recorded actions.now) (outcome_of submitted [] [] [] [])) }
{
    match submitted {
        Ok(_) => no_refusal(),
        Err(refusal) => {
            let action = position_of(recorded, actions, refusal.action);
            action_refusal(refusal.error, action, kind_at(actions, action))
        }
    }
}

fn counter_in(submitted: Result<u64, SubmissionRefusal>) -> u64
    ensures { result ≡ counter_of submitted }
{
    match submitted {
        Ok(counter) => counter,
        Err(refusal) => refusal.counter,
    }
}

#[tactic(auto, using(crate::proofs::Laws::lines))]
fn put_outcome(out: &mut [u8], at: usize, v: Refusal, counter: u64) -> usize
    requires { at + longest_line word_submit 4 + longest_line word_next 1 ≤ length out.old }
    ensures { Put out.old at
        (line word_submit (v.number ∷ v.e ∷ v.x ∷ v.y ∷ []) ++ line word_next (counter ∷ []))
        result out.new }
{
    let numbers = [v.number, v.e, v.x, v.y];
    let end = put_line(out, at, b"submit", &numbers);
    let next = [counter];
    put_line(out, end, b"next", &next)
}

fn put_submitted(
    recorded: bool,
    actions: &[u8],
    submitted: Result<u64, SubmissionRefusal>,
    out: &mut [u8],
    at: usize,
) -> Printed
    requires { at + longest_line word_submit 4 + longest_line word_next 1 ≤ length out.old }
    ensures put { Put out.old at
        (outcome_lines (places recorded actions.now) (outcome_of submitted [] [] [] []))
        result.end out.new }
    ensures refuses { Refuses result.refusal
        (outcome_refusal actions.now (places recorded actions.now) (outcome_of submitted [] [] [] [])) }
{
    let refusal = told(recorded, actions, submitted);
    let end = put_outcome(out, at, refusal, counter_in(submitted));
    Printed { end, refusal }
}

// Submits the actions on copies of the two tables, with empty starting lists.
pub fn put_submission(
    counter: u64,
    tables: &BuildTables<'_>,
    recorded: bool,
    actions: &[u8],
    lists: &[u16],
    out: &mut [u8],
    at: usize,
) -> Printed
    requires lendable { LendableTables (lent_tables tables.now) actions.now }
    requires word_next_in_bounds { at + longest_line word_submit 4 + longest_line word_next 1 ≤ length out.old }
    ensures put { Put out.old at
        (outcome_lines (places recorded actions.now)
        (submission_outcome counter (parts_of (lent_tables tables.now)) recorded actions.now lists.now))
        result.end out.new }
    ensures refuses { Refuses result.refusal
        (outcome_refusal actions.now (places recorded actions.now)
        (submission_outcome counter (parts_of (lent_tables tables.now)) recorded actions.now lists.now)) }
{
    let mut lent_blases = [0u8; 3584];
    let mut lent_tlases = [0u8; 704];
    let mut counts = [0u16; 32];
    let mut dependencies = [0u16; 16384];
    let mut cells = [0u32; 256];
    let b = put(&mut lent_blases, 0, tables.blases);
    let t = put(&mut lent_tlases, 0, tables.tlases);
    let used = put_actions(recorded, actions, tables, &mut cells);
    let n = tables.tlases.len() / TLAS_SIZE;
    let mut buffers = SubmissionBuffers {
        blases: &mut lent_blases[..b],
        tlases: &mut lent_tlases[..t],
        dependency_counts: &mut counts[..n],
        dependencies: &mut dependencies[..n * TLAS_ROOM],
    };
    let submitted = submit(counter, &mut buffers, &cells[..used], lists);
    put_submitted(recorded, actions, submitted, out, at)
}
