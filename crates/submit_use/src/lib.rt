// A use of a Tlas as an action: 6, then 43, then its list, 42, 44, 21.
#![tactic(auto)]

ghost use Rattle.std.specs.Prelude.{◌≡◌, ℕ, ◌≤◌, ◌<◌, get_or};
ghost use Rattle.std.proofs.Math.Option.{none};
ghost use Rattle.ray_tracing.specs.Submission as Submission;
ghost use Rattle.ray_tracing.specs.Submission.{Lent, list_in, most_dependencies, first, judge, lent_of, buffers_of};
ghost use Rattle.ray_tracing.specs.Submission.{unusable_blas, unusable, use_tlas};
ghost use Rattle.submit_checks.specs.Outcome.{checked_cause, Acts};
ghost use Rattle.submit_checks.specs.Known.{blases_in, tlases_in, Inside, ListRoom};

use ray_tracing::{Blas, BlasId, TLAS_ROOM, TLAS_SIZE, TlasId, ValidateAsActionsError};
use records::tlas_at;
use submit_checks::{blas_of, judge_tlas};

// One listed Blas of a use: 42, 44, 21.
fn use_blas(blas: Blas, id: BlasId, own: u64, tlas: TlasId) -> Result<(), ValidateAsActionsError>
    ensures { (l : Lent) → Submission.blas l id.0 ≡ blas → (Submission.tlas l tlas.0).built_index ≡ own
        → checked_cause result ≡ unusable_blas l tlas.0 id.0 }
{
    if blas.built_index == 0 {
        return Err(ValidateAsActionsError::UsedTlasOfUnbuiltBlas(tlas, id));
    }
    if own < blas.built_index {
        return Err(ValidateAsActionsError::BlasNewerThenTlas(id, tlas));
    }
    if blas.destroyed == 1 {
        return Err(ValidateAsActionsError::DestroyedResource(id));
    }
    Ok(())
}

fn use_list(
    blases: &[u8],
    own: u64,
    tlas: TlasId,
    ids: &[u16],
) -> Result<(), ValidateAsActionsError>
    requires { Inside ids.now (blases_in blases.now) }
    ensures { (l : Lent) → l.blases ≡ blases.now → (Submission.tlas l tlas.0).built_index ≡ own
        → checked_cause result ≡ first (unusable_blas l tlas.0) ids.now }
{
    for &id in ids {
        let id = BlasId(id);
        use_blas(blas_of(blases, id), id, own, tlas)?;
    }
    Ok(())
}

// A use: 43, then its list.
#[tactic(auto, unfolding(ray_tracing::specs::Submission::tlas_in, ray_tracing::specs::Submission::list_in))]
fn use_tlas(
    blases: &[u8],
    tlases: &[u8],
    dependency_counts: &[u16],
    dependencies: &[u16],
    tlas: TlasId,
) -> Result<(), ValidateAsActionsError>
    requires inside { tlas.0 < tlases_in tlases.now }
    requires list_room { ListRoom (tlases_in tlases.now) dependency_counts.now dependencies.now }
    requires listed { (get_or dependency_counts.now tlas.0 0 ≤ most_dependencies)
        × Inside (list_in dependency_counts.now dependencies.now tlas.0) (blases_in blases.now) }
    ensures { checked_cause result
        ≡ unusable (lent_of 0 blases.now tlases.now dependency_counts.now dependencies.now) tlas.0 }
{
    let t = tlas.0 as usize;
    let own = tlas_at(tlases, t * TLAS_SIZE).built_index;
    if own == 0 {
        return Err(ValidateAsActionsError::UsedUnbuiltTlas(tlas));
    }
    let start = t * TLAS_ROOM;
    let end = start + dependency_counts[t] as usize;
    use_list(blases, own, tlas, &dependencies[start..end])
}

// A use leaves what is lent.
#[tactic(auto, using(crate::proofs::Laws::use_steps))]
pub fn use_action(
    blases: &[u8],
    tlases: &[u8],
    dependency_counts: &[u16],
    dependencies: &[u16],
    tlas: TlasId,
) -> Result<(), ValidateAsActionsError>
    requires { judge (lent_of 0 blases.now tlases.now dependency_counts.now dependencies.now) ≡ none }
    ensures { let x = buffers_of blases.now tlases.now dependency_counts.now dependencies.now in
        (n : ℕ) → Acts n x (use_tlas tlas.0) result n x }
{
    judge_tlas(tlases, tlas)?;
    use_tlas(blases, tlases, dependency_counts, dependencies, tlas)
}
