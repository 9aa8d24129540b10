// Ids first: per entry each geometry's buffers, then the Blas; per package each present slot's Blas, then the Tlas.
#![tactic(auto, using(ray_tracing::proofs::Verdicts::each), unfolding(ray_tracing::specs::Plan::judge_ids))]

ghost use Rattle.std.specs.Prelude.{◌≡◌, cond, ◌+◌, ◌*◌, ◌≤◌, ◌<◌, length, eqb};
ghost use Rattle.ray_tracing.specs.Layout.{size};
ghost use Rattle.ray_tracing.specs.Mentions.{buffer_mention};
ghost use Rattle.ray_tracing.specs.Code.{mention_of, verdict_of};
ghost use Rattle.ray_tracing.specs.Plan.{at_e, first_of, first_drawing, records_in, geometry_count, slot_count, lent_tables};
ghost use Rattle.ray_tracing.specs.Plan.{geometry_ids, entry_ids, slot_ids, package_ids, judge_ids};
ghost use Rattle.ray_tracing.proofs.Inside.{drawn_before, slots_before};

use instance::slot_mention;
use ray_tracing::{
    BufferId, BuildRefusal, BuildTables, ENTRY_SIZE, NO_BUFFER, OutsideTable, PACKAGE_SIZE,
    SLOT_SIZE,
};
use records::{
    blas_mention, buffer_mention, entry_at, geometry_count, geometry_of, package_at, slot_count,
    tlas_mention,
};

// What a mention finds, at E.
fn mention_at(m: Result<(), OutsideTable>, e0: usize, e1: usize) -> Result<(), BuildRefusal>
    ensures { verdict_of result ≡ at_e e0 e1 (mention_of m) }
{
    m.map_err(|e| BuildRefusal {
        error: e.into(),
        e0,
        e1,
    })
}

// An index or a transform buffer, unless it is none.
fn optional_mention(buffers: &[u8], id: BufferId) -> Result<(), OutsideTable>
    ensures { mention_of result ≡ cond (eqb id.0 65535) 0 (buffer_mention buffers.now id.0) }
{
    if id.0 == NO_BUFFER {
        return Ok(());
    }
    buffer_mention(buffers, id)
}

// The j-th geometry of entry i, which is geometry g: its data buffer, and for triangles its index and transform buffers.
fn geometry_ids(tables: &BuildTables<'_>, i: usize, j: usize, g: usize) -> Result<(), BuildRefusal>
    requires { (i * size 5 + size 5 ≤ length tables.now.entries.now) × (g < records_in (lent_tables tables.now) 6) }
    ensures { verdict_of result ≡ geometry_ids (lent_tables tables.now) i j g }
{
    let entry = entry_at(tables.entries, i * ENTRY_SIZE);
    let geometry = geometry_of(tables.version, tables.geometries, g);
    mention_at(buffer_mention(tables.buffers, geometry.buffer), i, j)?;
    if entry.kind != 0 {
        return Ok(());
    }
    let index = optional_mention(tables.buffers, geometry.index_buffer);
    mention_at(index, i, j)?;
    let transform = optional_mention(tables.buffers, geometry.transform_buffer);
    mention_at(transform, i, j)
}

// The geometries of entry i, from geometry g on.
fn geometries_ids(
    tables: &BuildTables<'_>,
    i: usize,
    g: usize,
    count: usize,
) -> Result<(), BuildRefusal>
    requires { (i * size 5 + size 5 ≤ length tables.now.entries.now) × (g + count ≤ records_in (lent_tables tables.now) 6) }
    ensures { verdict_of result ≡ first_of (λ j. geometry_ids (lent_tables tables.now) i j (g + j)) 0 count }
{
    for j in 0..count {
        geometry_ids(tables, i, j, g + j)?;
    }
    Ok(())
}

// Entry i, whose geometries stand from geometry g on: they, then its Blas.
fn entry_ids(tables: &BuildTables<'_>, i: usize, g: usize, count: usize) -> Result<(), BuildRefusal>
    requires size_in_bounds { (i * size 5 + size 5 ≤ length tables.now.entries.now)
        × (g + count ≤ records_in (lent_tables tables.now) 6) }
    requires count_value { count ≡ geometry_count (lent_tables tables.now) i }
    ensures { verdict_of result ≡ entry_ids (lent_tables tables.now) i g }
{
    let entry = entry_at(tables.entries, i * ENTRY_SIZE);
    geometries_ids(tables, i, g, count)?;
    mention_at(blas_mention(tables.blases, entry.blas), i, 0)
}

// Entries and packages have a walk each, three lines over other checks: one that takes the check would have its contract said of a closure.
#[tactic(auto, using(ray_tracing::proofs::Inside::drawing))]
fn entries_ids(tables: &BuildTables<'_>) -> Result<(), BuildRefusal>
    requires { let x = lent_tables tables.now in drawn_before x (records_in x 5) ≡ records_in x 6 }
    ensures { let x = lent_tables tables.now in
        verdict_of result ≡ first_drawing (entry_ids x) (geometry_count x) 0 0 (records_in x 5) }
{
    let n = tables.entries.len() / ENTRY_SIZE;
    let mut g = 0;
    for i in 0..n {
        let count = geometry_count(tables.entries, i);
        entry_ids(tables, i, g, count)?;
        g += count;
    }
    Ok(())
}

// The slots of package p, from slot s on: each one's Blas, if it is present.
fn slots_ids(tables: &BuildTables<'_>, p: usize, s: usize, count: usize) -> Result<(), BuildRefusal>
    requires { (s + count) * size 8 ≤ length tables.now.slots.now }
    ensures { verdict_of result ≡ first_of (λ j. slot_ids (lent_tables tables.now) p j (s + j)) 0 count }
{
    for j in 0..count {
        let mentioned = slot_mention(tables.blases, tables.slots, (s + j) * SLOT_SIZE);
        mention_at(mentioned, p, j)?;
    }
    Ok(())
}

// Package p, whose slots stand from slot s on: they, then its Tlas.
fn package_ids(
    tables: &BuildTables<'_>,
    p: usize,
    s: usize,
    count: usize,
) -> Result<(), BuildRefusal>
    requires size_in_bounds { (p * size 7 + size 7 ≤ length tables.now.packages.now)
        × ((s + count) * size 8 ≤ length tables.now.slots.now) }
    requires count_value { count ≡ slot_count (lent_tables tables.now) p }
    ensures { verdict_of result ≡ package_ids (lent_tables tables.now) p s }
{
    let package = package_at(tables.packages, p * PACKAGE_SIZE);
    slots_ids(tables, p, s, count)?;
    mention_at(tlas_mention(tables.tlases, package.tlas), p, 0)
}

#[tactic(auto, using(ray_tracing::proofs::Inside::drawing))]
fn packages_ids(tables: &BuildTables<'_>) -> Result<(), BuildRefusal>
    requires { let x = lent_tables tables.now in slots_before x (records_in x 7) ≡ records_in x 8 }
    ensures { let x = lent_tables tables.now in
        verdict_of result ≡ first_drawing (package_ids x) (slot_count x) 0 0 (records_in x 7) }
{
    let n = tables.packages.len() / PACKAGE_SIZE;
    let mut s = 0;
    for p in 0..n {
        let count = slot_count(tables.packages, p);
        package_ids(tables, p, s, count)?;
        s += count;
    }
    Ok(())
}

// Entries, then packages; what they draw adds up.
pub fn judge_ids(tables: &BuildTables<'_>) -> Result<(), BuildRefusal>
    requires entries_value { let x = lent_tables tables.now in drawn_before x (records_in x 5) ≡ records_in x 6 }
    requires packages_value { let x = lent_tables tables.now in slots_before x (records_in x 7) ≡ records_in x 8 }
    ensures { verdict_of result ≡ judge_ids (lent_tables tables.now) }
{
    entries_ids(tables)?;
    packages_ids(tables)
}
