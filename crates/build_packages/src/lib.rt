// Packages in turn: 34 and 35 of their present slots, then 36.
#![tactic(auto, using(ray_tracing::proofs::Verdicts::each))]

ghost use Rattle.std.specs.Prelude.{◌≡◌, ℕ, ◌+◌, ◌*◌, ◌≤◌, ◌<◌, length, ltb};
ghost use Rattle.ray_tracing.specs.Layout.{size};
ghost use Rattle.ray_tracing.specs.Causes.{cause};
ghost use Rattle.ray_tracing.specs.Instances.{slot_mention, slot_rule};
ghost use Rattle.ray_tracing.specs.Code.{verdict_of};
ghost use Rattle.ray_tracing.specs.Plan.{refused, on, at_e, first_of, records_in, package_of, slot_count};
ghost use Rattle.ray_tracing.specs.Plan.{judge_package, judge_packages, lent_tables};
ghost use Rattle.build_packages.specs.Within.{PackagesInside};

use instance::{check_slot, present_of};
use ray_tracing::{
    BuildAccelerationStructureError, BuildRefusal, BuildTables, PACKAGE_SIZE, SLOT_SIZE, Tlas,
};
use records::{slot_count, tlas_of_package};

// The j-th slot of package p, which is slot s: 34, 35.
fn judge_slot(
    tlas: Tlas,
    blases: &[u8],
    slots: &[u8],
    p: usize,
    j: usize,
    s: usize,
) -> Result<(), BuildRefusal>
    requires { (s * size 8 + size 8 ≤ length slots.now) × (slot_mention blases.now slots.now (s * size 8) ≡ 0) }
    ensures { verdict_of result ≡ at_e p j (slot_rule tlas blases.now slots.now (s * size 8)) }
{
    check_slot(tlas, blases, slots, s * SLOT_SIZE).map_err(|error| BuildRefusal {
        error,
        e0: p,
        e1: j,
    })
}

// The slots of package p, from slot s on.
fn judge_slots(
    tlas: Tlas,
    blases: &[u8],
    slots: &[u8],
    p: usize,
    s: usize,
    count: usize,
) -> Result<(), BuildRefusal>
    requires size_in_bounds { (s + count) * size 8 ≤ length slots.now }
    requires by_index { (j : ℕ) → j < count → slot_mention blases.now slots.now ((s + j) * size 8) ≡ 0 }
    ensures { verdict_of result
        ≡ first_of (λ j. at_e p j (slot_rule tlas blases.now slots.now ((s + j) * size 8))) 0 count }
{
    for j in 0..count {
        judge_slot(tlas, blases, slots, p, j, s + j)?;
    }
    Ok(())
}

// After the slots, 36: so many are present, and no more than the most may be.
fn judge_present(present: usize, most: u32, p: usize) -> Result<(), BuildRefusal>
    requires { present < 65536 }
    ensures { verdict_of result ≡ on (ltb most present) (refused p 0 (cause 36 present most 0)) }
{
    if (most as usize) < present {
        return Err(BuildRefusal {
            error: BuildAccelerationStructureError::TlasInstanceCountExceeded(present as u32, most),
            e0: p,
            e1: 0,
        });
    }
    Ok(())
}

// Package p, whose slots stand from slot s on: they, then how many are present.
fn judge_package(
    tables: &BuildTables<'_>,
    p: usize,
    s: usize,
    count: usize,
) -> Result<(), BuildRefusal>
    requires size_in_bounds { p * size 7 + size 7 ≤ length tables.now.packages.now }
    requires p_in_bounds { (package_of (lent_tables tables.now) p).tlas.0 < records_in (lent_tables tables.now) 4 }
    requires size_in_bounds_2 { (s + count) * size 8 ≤ length tables.now.slots.now }
    requires by_index { (j : ℕ) → j < count → slot_mention tables.now.blases.now tables.now.slots.now ((s + j) * size 8) ≡ 0 }
    requires count_value { (count ≡ slot_count (lent_tables tables.now) p) × (count < 65536) }
    ensures { verdict_of result ≡ judge_package (lent_tables tables.now) p s }
{
    let tlas = tlas_of_package(tables.tlases, tables.packages, p);
    judge_slots(tlas, tables.blases, tables.slots, p, s, count)?;
    let present = present_of(tables.slots, s, count);
    judge_present(present, tlas.max_instance_count, p)
}

// Packages in turn.
#[tactic(auto, using(ray_tracing::proofs::Inside::drawing), unfolding(ray_tracing::specs::Plan::judge_packages))]
pub fn judge_packages(tables: &BuildTables<'_>) -> Result<(), BuildRefusal>
    requires { PackagesInside (lent_tables tables.now) }
    ensures { verdict_of result ≡ judge_packages (lent_tables tables.now) }
{
    let n = tables.packages.len() / PACKAGE_SIZE;
    let mut s = 0;
    for p in 0..n {
        let count = slot_count(tables.packages, p);
        judge_package(tables, p, s, count)?;
        s += count;
    }
    Ok(())
}
