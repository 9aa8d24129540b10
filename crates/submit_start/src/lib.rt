// The start of a submission, judged before all actions: sections 2 and 4, room, then the starting lists.
#![tactic(auto)]

ghost use Rattle.std.specs.Prelude.{◌≡◌, [], ℕ, ◌+◌, ◌-◌, ◌*◌, ◌≤◌, ◌<◌, length};
ghost use Rattle.ray_tracing.specs.Layout.{layout, size};
ghost use Rattle.ray_tracing.specs.Reading.{judge_lent};
ghost use Rattle.ray_tracing.specs.Causes.{bare, sheet_number, submission_cause};
ghost use Rattle.ray_tracing.specs.Submission.{table_cause, judge_room, judge_list, judge_lists, judge, most_dependencies, lent_of};
ghost use Rattle.submit_checks.specs.Outcome.{checked_cause};
ghost use Rattle.submit_checks.specs.Known.{tlases_in, ListRoom};

use ray_tracing::{SheetError, TLAS_ROOM, TLAS_SIZE, TlasId, ValidateAsActionsError, Version};
use sheet_sections::judge_lent;
use submit_checks::judge_ids;

// The starting list of one Tlas: 4 goes by the count itself.
#[tactic(auto, unfolding(ray_tracing::specs::Submission::list_in))]
fn judge_list(
    blases: &[u8],
    dependency_counts: &[u16],
    dependencies: &[u16],
    tlas: TlasId,
) -> Result<(), ValidateAsActionsError>
    requires { (tlas.0 < length dependency_counts.now)
        × (tlas.0 * most_dependencies + most_dependencies ≤ length dependencies.now) }
    ensures { checked_cause result
        ≡ judge_list (lent_of 0 blases.now [] dependency_counts.now dependencies.now) tlas.0 }
{
    let t = tlas.0 as usize;
    let count = dependency_counts[t] as usize;
    if TLAS_ROOM < count {
        return Err(ValidateAsActionsError::TooMany);
    }
    let start = t * TLAS_ROOM;
    judge_ids(blases, &dependencies[start..start + count])
}

#[tactic(auto, using(crate::proofs::Lists::lists_more, crate::proofs::Lists::lists_done))]
fn judge_lists(
    blases: &[u8],
    tlas_count: u16,
    dependency_counts: &[u16],
    dependencies: &[u16],
) -> Result<(), ValidateAsActionsError>
    requires { ListRoom tlas_count dependency_counts.now dependencies.now }
    ensures { checked_cause result
        ≡ judge_lists (lent_of 0 blases.now [] dependency_counts.now dependencies.now) 0 tlas_count }
{
    for t in 0..tlas_count {
        judge_list(blases, dependency_counts, dependencies, TlasId(t))?;
    }
    Ok(())
}

// Why a lent table is refused, as why a submission is: `build_tables::table_error` answers another type, a build's.
fn table_error(e: SheetError) -> ValidateAsActionsError
    requires { 4 ≤ sheet_number e }
    ensures { submission_cause result ≡ bare (sheet_number e) }
{
    match e {
        SheetError::TooMany => ValidateAsActionsError::TooMany,
        _ => ValidateAsActionsError::InvalidValue,
    }
}

// A table of the start, judged as in a build: it is one of those that are the same in either version.
fn judge_table(table: &[u8], section: usize) -> Result<(), ValidateAsActionsError>
    requires { (0 < section) × (section < 6) }
    ensures { checked_cause result
        ≡ table_cause (judge_lent section (layout section) (size (section - 1)) [] table.now) }
{
    // No `map_err`: `table_error` requires what is known of this refusal only.
    match judge_lent(Version::One, table, section, &table[..0]) {
        Ok(()) => Ok(()),
        Err(refusal) => Err(table_error(refusal.error)),
    }
}

// 39 unless each Tlas's list has room for 512.
fn judge_room(
    tlases: &[u8],
    dependency_counts: &[u16],
    dependencies: &[u16],
) -> Result<(), ValidateAsActionsError>
    requires { tlases_in tlases.now ≤ (layout 4).most }
    ensures { checked_cause result
        ≡ judge_room (lent_of 0 [] tlases.now dependency_counts.now dependencies.now) }
{
    let tlas_count = tlases.len() / TLAS_SIZE;
    if dependency_counts.len() < tlas_count || dependencies.len() < tlas_count * TLAS_ROOM {
        return Err(ValidateAsActionsError::OutputTooShort);
    }
    Ok(())
}

// The start, judged before all actions.
#[tactic(auto, unfolding(ray_tracing::specs::Submission::judge))]
pub fn judge_start(
    blases: &[u8],
    tlases: &[u8],
    dependency_counts: &[u16],
    dependencies: &[u16],
) -> Result<(), ValidateAsActionsError>
    ensures { (n : ℕ) → checked_cause result
        ≡ judge (lent_of n blases.now tlases.now dependency_counts.now dependencies.now) }
{
    judge_table(blases, 2)?;
    judge_table(tlases, 4)?;
    judge_room(tlases, dependency_counts, dependencies)?;
    let tlas_count = (tlases.len() / TLAS_SIZE) as u16;
    judge_lists(blases, tlas_count, dependency_counts, dependencies)
}
