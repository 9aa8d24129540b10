// What is judged before a Build acts: 5 of its lists, then 4, 6, 40, 41.
#![tactic(auto)]

ghost use Rattle.std.specs.Prelude.{◌≡◌, true, [], ◌+◌, ◌^◌, ◌≤◌, ◌<◌, length};
ghost use Rattle.ray_tracing.specs.Submission.{first, ◌or_else◌, mention_blas, mention_package, too_many, compacted, before, lent_of};
ghost use Rattle.ray_tracing.specs.Submission.{package_from, past_package, packages_at, packages_lent, build};
ghost use Rattle.submit_checks.specs.Outcome.{tables_only, blases_of, checked_cause, build_of};
ghost use Rattle.submit_checks.specs.Known.{blases_in, Inside};

use ray_tracing::{BlasId, TLAS_ROOM, TlasId, ValidateAsActionsError};
use submit_checks::{BuildLists, blas_of, judge_ids, judge_tlas};

// The most that a Build lists.
const MOST_BLASES: usize = 64;

const MOST_TLASES: usize = 32;

// Whether the lists of a Build's Tlases, from a cell on, are lent whole.
#[tactic(auto, using(crate::proofs::Packages::walking))]
fn packages_lent(lists: &[u16], start: usize, tlas_count: usize) -> bool
    requires { start ≤ length lists.now }
    ensures { result ≡ packages_lent lists.now start tlas_count }
{
    let mut at = start;
    for _ in 0..tlas_count {
        if lists.len() - at < 2 {
            return false;
        }
        let end = at + 2 + lists[at + 1] as usize;
        if lists.len() < end {
            return false;
        }
        at = end;
    }
    true
}

// 4, but for the Blases.
#[tactic(auto, using(crate::proofs::Packages::walking))]
fn judge_counts(
    lists: &[u16],
    start: usize,
    tlas_count: usize,
) -> Result<(), ValidateAsActionsError>
    requires { packages_lent lists.now start tlas_count ≡ true }
    ensures { checked_cause result ≡ too_many [] (packages_at lists.now start tlas_count) }
{
    if MOST_TLASES < tlas_count {
        return Err(ValidateAsActionsError::TooMany);
    }
    let mut at = start;
    for _ in 0..tlas_count {
        let count = lists[at + 1] as usize;
        if TLAS_ROOM < count {
            return Err(ValidateAsActionsError::TooMany);
        }
        at = at + 2 + count;
    }
    Ok(())
}

// 6 of one Tlas and its list.
fn judge_package(
    blases: &[u8],
    tlases: &[u8],
    lists: &[u16],
    at: usize,
) -> Result<(), ValidateAsActionsError>
    requires { past_package lists.now at ≤ length lists.now }
    ensures { checked_cause result
        ≡ mention_package (tables_only blases.now tlases.now) (package_from lists.now at) }
{
    judge_tlas(tlases, TlasId(lists[at]))?;
    let start = at + 2;
    let end = start + lists[at + 1] as usize;
    judge_ids(blases, &lists[start..end])
}

#[tactic(auto, using(crate::proofs::Packages::walking))]
fn judge_packages(
    blases: &[u8],
    tlases: &[u8],
    lists: &[u16],
    start: usize,
    tlas_count: usize,
) -> Result<(), ValidateAsActionsError>
    requires { packages_lent lists.now start tlas_count ≡ true }
    ensures { checked_cause result
        ≡ first (mention_package (tables_only blases.now tlases.now))
        (packages_at lists.now start tlas_count) }
{
    let mut at = start;
    for _ in 0..tlas_count {
        judge_package(blases, tlases, lists, at)?;
        at = at + 2 + lists[at + 1] as usize;
    }
    Ok(())
}

// 41.
fn judge_compacted(blases: &[u8], ids: &[u16]) -> Result<(), ValidateAsActionsError>
    requires { Inside ids.now (blases_in blases.now) }
    ensures { checked_cause result ≡ first (compacted (blases_of blases.now)) ids.now }
{
    for &id in ids {
        let id = BlasId(id);
        if blas_of(blases, id).compacted_state == 3 {
            return Err(ValidateAsActionsError::CompactedBlas(id));
        }
    }
    Ok(())
}

// 6: Blases, then each Tlas and its list.
fn judge_mentions(
    blases: &[u8],
    tlases: &[u8],
    ids: &[u16],
    lists: &[u16],
    at: usize,
    tlas_count: usize,
) -> Result<(), ValidateAsActionsError>
    requires { packages_lent lists.now at tlas_count ≡ true }
    ensures { checked_cause result
        ≡ (first (mention_blas (blases_of blases.now)) ids.now
        or_else first (mention_package (tables_only blases.now tlases.now))
        (packages_at lists.now at tlas_count)) }
{
    judge_ids(blases, ids)?;
    judge_packages(blases, tlases, lists, at, tlas_count)
}

// A Build whose lists are lent whole: 4, 6, 40, 41.
#[tactic(auto, using(crate::proofs::Judging::or_assoc), unfolding(ray_tracing::specs::Submission::before))]
fn judge_whole_build(
    counter: u64,
    blases: &[u8],
    tlases: &[u8],
    ids: &[u16],
    lists: &[u16],
    at: usize,
    tlas_count: usize,
) -> Result<(), ValidateAsActionsError>
    requires { packages_lent lists.now at tlas_count ≡ true }
    ensures { checked_cause result
        ≡ before (lent_of counter blases.now tlases.now [] [])
        (build ids.now (packages_at lists.now at tlas_count)) }
{
    if MOST_BLASES < ids.len() {
        return Err(ValidateAsActionsError::TooMany);
    }
    judge_counts(lists, at, tlas_count)?;
    judge_mentions(blases, tlases, ids, lists, at, tlas_count)?;
    if counter == 0 {
        return Err(ValidateAsActionsError::CounterExhausted);
    }
    judge_compacted(blases, ids)
}

// What is judged before a Build acts.
#[tactic(auto, using(crate::proofs::Judging::lending))]
pub fn judge_build_action(
    counter: u64,
    blases: &[u8],
    tlases: &[u8],
    lists: &BuildLists<'_>,
) -> Result<(), ValidateAsActionsError>
    requires { lists.now.start + lists.now.blas_count < 2 ^ 64 }
    ensures { checked_cause result ≡ before (lent_of counter blases.now tlases.now [] []) (build_of lists.now) }
{
    let cells = lists.cells;
    let mid = lists.start + lists.blas_count;
    if cells.len() < mid || !packages_lent(cells, mid, lists.tlas_count) {
        return Err(ValidateAsActionsError::InvalidValue);
    }
    judge_whole_build(
        counter,
        blases,
        tlases,
        &cells[lists.start..mid],
        cells,
        mid,
        lists.tlas_count,
    )
}
