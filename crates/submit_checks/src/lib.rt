// What the actions of a submission are judged by over lent tables.
#![tactic(auto)]

ghost use Rattle.std.specs.Prelude.{◌≡◌, [], ◌<◌};
ghost use Rattle.ray_tracing.specs.Submission.{blas, first, mention_blas, mention_tlas};
ghost use Rattle.submit_checks.specs.Outcome.{tables_only, blases_of, checked_cause};
ghost use Rattle.submit_checks.specs.Known.{blases_in};

use ray_tracing::{BLAS_SIZE, Blas, BlasId, TlasId, ValidateAsActionsError};
use records::{blas_at, blas_mention, tlas_mention};

// A Build's lists, from a cell on: its Blases, then its Tlases with theirs.
#[derive(Clone, Copy)]
pub struct BuildLists<'a> {
    pub cells: &'a [u16],
    pub start: usize,
    pub blas_count: usize,
    pub tlas_count: usize,
}

// What one action came to, and the counter that it leaves.
#[derive(Clone, Copy)]
pub struct Acted {
    pub came_to: Result<(), ValidateAsActionsError>,
    pub counter: u64,
}

// A mention of an id, judged.
pub fn judge_blas(blases: &[u8], id: BlasId) -> Result<(), ValidateAsActionsError>
    ensures { checked_cause result ≡ mention_blas (blases_of blases.now) id.0 }
{
    blas_mention(blases, id)?;
    Ok(())
}

pub fn judge_tlas(tlases: &[u8], id: TlasId) -> Result<(), ValidateAsActionsError>
    ensures { checked_cause result ≡ mention_tlas (tables_only [] tlases.now) id.0 }
{
    tlas_mention(tlases, id)?;
    Ok(())
}

pub fn judge_ids(blases: &[u8], ids: &[u16]) -> Result<(), ValidateAsActionsError>
    ensures { checked_cause result ≡ first (mention_blas (blases_of blases.now)) ids.now }
{
    for &id in ids {
        judge_blas(blases, BlasId(id))?;
    }
    Ok(())
}

// The record of an id that was judged.
pub fn blas_of(blases: &[u8], id: BlasId) -> Blas
    requires { id.0 < blases_in blases.now }
    ensures { result ≡ blas (blases_of blases.now) id.0 }
{
    blas_at(blases, id.0 as usize * BLAS_SIZE)
}
