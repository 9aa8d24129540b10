// The scratch that entries and packages share, or where 37 stands; and what is judged last, before room: 21 of Tlases, then 21 and
// 38 of Blases.
#![tactic(auto)]

ghost use Rattle.std.specs.Prelude.{◌≡◌, ◌+◌, ◌*◌, ◌≤◌, ◌<◌, length, eqb};
ghost use Rattle.ray_tracing.specs.Layout.{size};
ghost use Rattle.ray_tracing.specs.Causes.{cause, bare};
ghost use Rattle.scratch.specs.Scratch.{add_rounded};
ghost use Rattle.ray_tracing.specs.Plan.{records_in, package_of, entry_of, lent_tables};
ghost use Rattle.ray_tracing.specs.Plan.{blas_total, tlas_total, blas_reached, tlas_reached};
ghost use Rattle.ray_tracing.specs.Plan.{refused, on, ◌or◌, first_of, tlas_destroyed, blas_buildable, judge_states};
ghost use Rattle.ray_tracing.specs.Code.{verdict_of};
ghost use Rattle.build_final.specs.Sized.{below_top, sized_of, sized_unless, scratch_of};
ghost use Rattle.ray_tracing.specs.Parts.{PackagesNamed, EntriesNamed};

use ray_tracing::{
    Blas, BlasId, BuildAccelerationStructureError, BuildRefusal, BuildTables, ENTRY_SIZE,
    PACKAGE_SIZE, Resource, RunningTotal,
};
use records::{blas_of_entry, entry_at, package_at, tlas_of_package};
use scratch::add_rounded;

// A running total with one more size, as long as it stays below 2^64 - 1.
fn add_below(total: u64, size: u64, alignment: u32) -> Option<u64>
    requires { 1 ≤ alignment }
    ensures { result ≡ below_top (add_rounded total size alignment) }
{
    let sum = add_rounded(total, size, u64::from(alignment))?;
    if sum == u64::MAX {
        return None;
    }
    Some(sum)
}

// 37, at the entry or the package whose running total does not stay below.
fn out_of_memory(total: RunningTotal, e0: usize) -> BuildRefusal
    ensures { result ≡ record { error = BuildAccelerationStructureError.OutOfMemory total; e0 = e0; e1 = 0 } }
{
    BuildRefusal {
        error: BuildAccelerationStructureError::OutOfMemory(total),
        e0,
        e1: 0,
    }
}

// Blas scratch runs from 0. Two functions for the two totals: an edit turns each of them (`entry_past_the_last`, `packages_not_from_0`).
#[tactic(auto, using(crate::proofs::Totals::totals))]
fn blas_total(tables: &BuildTables<'_>) -> Result<u64, BuildRefusal>
    requires { (1 ≤ tables.now.alignment) × EntriesNamed tables.now.blases.now tables.now.entries.now }
    ensures { sized_of result ≡ sized_unless (blas_reached (lent_tables tables.now)) (blas_total (lent_tables tables.now)) }
{
    let n = tables.entries.len() / ENTRY_SIZE;
    let mut total: u64 = 0;
    for i in 0..n {
        let blas = blas_of_entry(tables.blases, tables.entries, i);
        let sum = add_below(total, blas.build_scratch_size, tables.alignment);
        total = sum.ok_or(out_of_memory(RunningTotal::Entries, i))?;
    }
    Ok(total)
}

// Packages run their own total from 0.
#[tactic(auto, using(crate::proofs::Totals::totals))]
fn tlas_total(tables: &BuildTables<'_>) -> Result<u64, BuildRefusal>
    requires { (1 ≤ tables.now.alignment) × PackagesNamed tables.now.tlases.now tables.now.packages.now }
    ensures { sized_of result ≡ sized_unless (tlas_reached (lent_tables tables.now)) (tlas_total (lent_tables tables.now)) }
{
    let n = tables.packages.len() / PACKAGE_SIZE;
    let mut total = 0u64;
    for p in 0..n {
        let tlas = tlas_of_package(tables.tlases, tables.packages, p);
        let sum = add_below(total, tlas.build_scratch_size, tables.alignment);
        total = sum.ok_or(out_of_memory(RunningTotal::Packages, p))?;
    }
    Ok(total)
}

// They share the scratch; a package is named only if the entries' total stays below.
#[tactic(auto, unfolding(ray_tracing::specs::Plan::judge_scratch, ray_tracing::specs::Plan::scratch_size))]
pub fn scratch_size(tables: &BuildTables<'_>) -> Result<u64, BuildRefusal>
    requires { (1 ≤ tables.now.alignment)
        × EntriesNamed tables.now.blases.now tables.now.entries.now
        × PackagesNamed tables.now.tlases.now tables.now.packages.now }
    ensures { sized_of result ≡ scratch_of (lent_tables tables.now) }
{
    let of_entries = blas_total(tables)?;
    let of_packages = tlas_total(tables)?;
    Ok(of_entries.max(of_packages))
}

// The Tlas of package p is not destroyed.
fn tlas_destroyed(tables: &BuildTables<'_>, p: usize) -> Result<(), BuildRefusal>
    requires size_in_bounds { p * size 7 + size 7 ≤ length tables.now.packages.now }
    requires p_in_bounds { (package_of (lent_tables tables.now) p).tlas.0 < records_in (lent_tables tables.now) 4 }
    ensures { verdict_of result ≡ tlas_destroyed (lent_tables tables.now) p }
{
    let package = package_at(tables.packages, p * PACKAGE_SIZE);
    let tlas = tlas_of_package(tables.tlases, tables.packages, p);
    if tlas.destroyed == 1 {
        return Err(BuildRefusal {
            error: BuildAccelerationStructureError::DestroyedResource(Resource::Tlas(package.tlas)),
            e0: p,
            e1: 0,
        });
    }
    Ok(())
}

// Of each package, as `blases_buildable` of each entry: two walks of three lines, as in `build_ids`.
#[tactic(auto, using(ray_tracing::proofs::Verdicts::each))]
fn tlases_destroyed(tables: &BuildTables<'_>) -> Result<(), BuildRefusal>
    requires { PackagesNamed tables.now.tlases.now tables.now.packages.now }
    ensures { let x = lent_tables tables.now in verdict_of result ≡ first_of (tlas_destroyed x) 0 (records_in x 7) }
{
    let n = tables.packages.len() / PACKAGE_SIZE;
    for p in 0..n {
        tlas_destroyed(tables, p)?;
    }
    Ok(())
}

// A Blas to build is not destroyed, and not compacted.
fn buildable(blas: Blas, id: BlasId, i: usize) -> Result<(), BuildRefusal>
    ensures { verdict_of result
        ≡ (on (eqb blas.destroyed 1) (refused i 0 (cause 21 2 id.0 0))
        or on (eqb blas.compacted_state 3) (refused i 0 (bare 38))) }
{
    if blas.destroyed == 1 {
        return Err(BuildRefusal {
            error: BuildAccelerationStructureError::DestroyedResource(Resource::Blas(id)),
            e0: i,
            e1: 0,
        });
    }
    if blas.compacted_state == 3 {
        return Err(BuildRefusal {
            error: BuildAccelerationStructureError::CompactedBlas,
            e0: i,
            e1: 0,
        });
    }
    Ok(())
}

fn blas_buildable(tables: &BuildTables<'_>, i: usize) -> Result<(), BuildRefusal>
    requires size_in_bounds { i * size 5 + size 5 ≤ length tables.now.entries.now }
    requires i_in_bounds { (entry_of (lent_tables tables.now) i).blas.0 < records_in (lent_tables tables.now) 2 }
    ensures { verdict_of result ≡ blas_buildable (lent_tables tables.now) i }
{
    let entry = entry_at(tables.entries, i * ENTRY_SIZE);
    let blas = blas_of_entry(tables.blases, tables.entries, i);
    buildable(blas, entry.blas, i)
}

#[tactic(auto, using(ray_tracing::proofs::Verdicts::each))]
fn blases_buildable(tables: &BuildTables<'_>) -> Result<(), BuildRefusal>
    requires { EntriesNamed tables.now.blases.now tables.now.entries.now }
    ensures { let x = lent_tables tables.now in verdict_of result ≡ first_of (blas_buildable x) 0 (records_in x 5) }
{
    let n = tables.entries.len() / ENTRY_SIZE;
    for i in 0..n {
        blas_buildable(tables, i)?;
    }
    Ok(())
}

// Tlases destroyed, 21; per entry 21, 38.
pub fn judge_states(tables: &BuildTables<'_>) -> Result<(), BuildRefusal>
    requires { EntriesNamed tables.now.blases.now tables.now.entries.now
        × PackagesNamed tables.now.tlases.now tables.now.packages.now }
    ensures { verdict_of result ≡ judge_states (lent_tables tables.now) }
{
    tlases_destroyed(tables)?;
    blases_buildable(tables)
}
