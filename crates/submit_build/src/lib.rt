// A Build as an action: judged, then all its Blases, then its Tlases in turn.
#![tactic(auto)]

ghost use Rattle.std.specs.Prelude.{◌≡◌, ◌+◌, ◌^◌, ◌<◌, ◌≤◌, true, [], ◌∷◌, length};
ghost use Rattle.std.proofs.Math.Option.{none};
ghost use Rattle.std.proofs.lemmas.List.Edits.{sets};
ghost use Rattle.ray_tracing.specs.Submission.{first, judge, packages_at, packages_lent, unnumbered, before};
ghost use Rattle.ray_tracing.specs.Submission.{built_blas, built_blases, built_tlas};
ghost use Rattle.ray_tracing.specs.Submission.{lent_of, lent_with, buffers_of, lent_buffers, SameBuffers};
ghost use Rattle.submit_checks.specs.Outcome.{blases_of, package_with, build_of, stepped, checked_cause};
ghost use Rattle.submit_checks.specs.Outcome.{BuildsTlases, Acts};
ghost use Rattle.submit_checks.specs.Known.{blases_in, tlases_in, Inside, ListRoom, Listed, AllListed};

use ray_tracing::{
    BLAS_SIZE, BlasId, SubmissionBuffers, TLAS_ROOM, TLAS_SIZE, TlasId, ValidateAsActionsError,
};
use submit_build_checks::judge_build_action;
use submit_checks::{Acted, BuildLists, blas_of};
use wire::{put_u8, put_u64};

// A Blas that a Build built.
#[tactic(auto, unfolding(ray_tracing::specs::Submission::built_blas))]
fn mark_blas(blases: &mut [u8], id: BlasId, number: u64)
    requires { id.0 < blases_in blases.old }
    ensures { blases.new ≡ built_blas number id.0 blases.old }
{
    let at = id.0 as usize * BLAS_SIZE;
    put_u8(blases, at + 2, 0);
    put_u64(blases, at + 20, number);
}

#[tactic(auto, unfolding(ray_tracing::specs::Submission::built_blases))]
fn mark_blases(blases: &mut [u8], ids: &[u16], number: u64)
    requires { Inside ids.now (blases_in blases.old) }
    ensures { blases.new ≡ built_blases number ids.now blases.old }
{
    for &id in ids {
        mark_blas(blases, BlasId(id), number);
    }
}

#[tactic(auto, unfolding(ray_tracing::specs::Submission::built_tlas))]
fn mark_tlas(tlases: &mut [u8], id: TlasId, number: u64)
    requires { id.0 < tlases_in tlases.old }
    ensures { tlases.new ≡ built_tlas number id.0 tlases.old }
{
    let at = id.0 as usize * TLAS_SIZE;
    put_u64(tlases, at + 14, number);
}

// A list's cells from a place on, as `wire::put_bytes` has bytes: one over a type parameter would be no plainer. No `copy_from_slice`, which
// is a call of memmove for each list.
#[tactic(auto, using(crate::proofs::Acting::copying))]
fn put_list(cells: &mut [u16], at: usize, list: &[u16])
    requires { at + length list.now ≤ length cells.old }
    ensures { cells.new ≡ sets cells.old at list.now }
{
    for k in 0..list.len() {
        cells[at + k] = list[k];
    }
}

// 42 of a Build.
fn judge_numbers(blases: &[u8], tlas: TlasId, ids: &[u16]) -> Result<(), ValidateAsActionsError>
    requires { Inside ids.now (blases_in blases.now) }
    ensures { checked_cause result ≡ first (unnumbered (blases_of blases.now) tlas.0) ids.now }
{
    for &id in ids {
        let id = BlasId(id);
        if blas_of(blases, id).built_index == 0 {
            return Err(ValidateAsActionsError::UsedUnbuiltBlas(id, tlas));
        }
    }
    Ok(())
}

// One Tlas of a Build: 42, or its number and its list.
#[tactic(auto, using(crate::proofs::Acting::building), unfolding(ray_tracing::specs::Submission::build_tlases))]
fn build_tlas(
    number: u64,
    blases: &[u8],
    tlases: &mut [u8],
    dependency_counts: &mut [u16],
    dependencies: &mut [u16],
    tlas: TlasId,
    ids: &[u16],
) -> Result<(), ValidateAsActionsError>
    requires listed { Listed (blases_in blases.now) (tlases_in tlases.old) (package_with tlas.0 ids.now) }
    requires list_room { ListRoom (tlases_in tlases.old) dependency_counts.old dependencies.old }
    ensures { BuildsTlases number (buffers_of blases.now tlases.old dependency_counts.old dependencies.old)
        (package_with tlas.0 ids.now ∷ []) result (buffers_of blases.now tlases.new dependency_counts.new dependencies.new) }
{
    judge_numbers(blases, tlas, ids)?;
    mark_tlas(tlases, tlas, number);
    let t = tlas.0 as usize;
    dependency_counts[t] = ids.len() as u16;
    put_list(dependencies, t * TLAS_ROOM, ids);
    Ok(())
}

// The Tlases of a Build in turn.
#[tactic(auto, using(crate::proofs::Acting::walking))]
fn build_tlases(
    number: u64,
    blases: &[u8],
    tlases: &mut [u8],
    dependency_counts: &mut [u16],
    dependencies: &mut [u16],
    lists: &[u16],
    start: usize,
    tlas_count: usize,
) -> Result<(), ValidateAsActionsError>
    requires lent { packages_lent lists.now start tlas_count ≡ true }
    requires all_listed { AllListed (blases_in blases.now) (tlases_in tlases.old) (packages_at lists.now start tlas_count) }
    requires list_room { ListRoom (tlases_in tlases.old) dependency_counts.old dependencies.old }
    ensures { BuildsTlases number (buffers_of blases.now tlases.old dependency_counts.old dependencies.old)
        (packages_at lists.now start tlas_count) result
        (buffers_of blases.now tlases.new dependency_counts.new dependencies.new) }
{
    let mut at = start;
    for _ in 0..tlas_count {
        let tlas = TlasId(lists[at]);
        let from = at + 2;
        let end = from + lists[at + 1] as usize;
        build_tlas(
            number,
            blases,
            tlases,
            dependency_counts,
            dependencies,
            tlas,
            &lists[from..end],
        )?;
        at = end;
    }
    Ok(())
}

// A Build that nothing was judged against: all its Blases get the number and turn Idle, then its Tlases in turn.
fn build(
    number: u64,
    blases: &mut [u8],
    tlases: &mut [u8],
    dependency_counts: &mut [u16],
    dependencies: &mut [u16],
    lists: &BuildLists<'_>,
) -> Result<(), ValidateAsActionsError>
    requires unrefused { before (lent_of number blases.old tlases.old dependency_counts.old dependencies.old) (build_of lists.now)
        ≡ none }
    requires list_room { ListRoom (tlases_in tlases.old) dependency_counts.old dependencies.old }
    ensures { Acts number (buffers_of blases.old tlases.old dependency_counts.old dependencies.old) (build_of lists.now) result
        (stepped number) (buffers_of blases.new tlases.new dependency_counts.new dependencies.new) }
{
    let BuildLists {
        cells,
        start,
        blas_count,
        tlas_count,
    } = *lists;
    let mid = start + blas_count;
    mark_blases(blases, &cells[start..mid], number);
    build_tlases(
        number,
        &blases[..],
        tlases,
        dependency_counts,
        dependencies,
        cells,
        mid,
        tlas_count,
    )
}

// What is judged before a Build acts. A proof has no value for a part lent from behind `&mut`, but has it from behind `&`.
#[tactic(auto, using(submit_checks::proofs::Steps::before_tables))]
fn judge_build(
    counter: u64,
    buffers: &SubmissionBuffers<'_>,
    lists: &BuildLists<'_>,
) -> Result<(), ValidateAsActionsError>
    requires { lists.now.start + lists.now.blas_count < 2 ^ 64 }
    ensures { checked_cause result ≡ before (lent_with counter (lent_buffers buffers.now)) (build_of lists.now) }
{
    judge_build_action(counter, buffers.blases, buffers.tlases, lists)
}

// A Build: refused before it acts it leaves the counter, and else steps it, also where one of its Tlases is refused.
pub fn build_action(
    counter: u64,
    buffers: &mut SubmissionBuffers<'_>,
    lists: &BuildLists<'_>,
) -> Acted
    requires fits { lists.now.start + lists.now.blas_count < 2 ^ 64 }
    requires judged { judge (lent_with counter (lent_buffers buffers.old)) ≡ none }
    ensures acts { Acts counter (lent_buffers buffers.old) (build_of lists.now) result.came_to result.counter
        (lent_buffers buffers.new) }
    ensures same { SameBuffers buffers.old buffers.new }
{
    if let Err(error) = judge_build(counter, buffers, lists) {
        return Acted {
            came_to: Err(error),
            counter,
        };
    }
    Acted {
        came_to: build(
            counter,
            buffers.blases,
            buffers.tlases,
            buffers.dependency_counts,
            buffers.dependencies,
            lists,
        ),
        counter: counter.wrapping_add(1),
    }
}
