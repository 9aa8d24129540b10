// What a recorded build writes, one function for each lent output, and how many elements each output takes. Its initialisation
// ranges are written by `build_ranges`, its recorded action by `build_lists`.
#![tactic(auto)]

ghost use Rattle.std.specs.Prelude.{◌≡◌, ◌+◌, ◌≤◌, ◌<◌, length};
ghost use Rattle.std.proofs.lemmas.List.Edits.{sets};
ghost use Rattle.ray_tracing.specs.Plan.{SameOutputs, counts_of, lent_outputs, lent_tables, written};
ghost use Rattle.ray_tracing.specs.Parts.{entries_in, of_entries, EntriesNamed};
ghost use Rattle.build_ranges.specs.Ranges.{DrawnFit};
ghost use Rattle.build_lists.specs.Lists.{Drawn};
ghost use Rattle.build_plan.specs.Parts.{structures_in, structure_sizes, StructuresNamed, TotalBelow, structure_offsets, staging_in};
ghost use Rattle.build_plan.specs.Parts.{instances_in, AllWritable, compactable_of, compactable_in};
ghost use Rattle.build_plan.specs.Planned.{planned, Plannable, PlanRoom};

use build_lists::write_lists;
use build_ranges::{count_ranges, write_init_ranges};
use instance::{present_of, put_slots};
use ray_tracing::{
    BuildOutputs, BuildTables, ENTRY_SIZE, INSTANCE_SIZE, PACKAGE_SIZE, RunningTotal, SLOT_SIZE,
    Written,
};
use records::{blas_of_entry, entry_at, slot_count, tlas_of_package};
use scratch::add_rounded;

// How many entries there are, or packages.
fn structures(of: RunningTotal, tables: &BuildTables<'_>) -> usize
    ensures { result ≡ structures_in of (lent_tables tables.now) }
{
    match of {
        RunningTotal::Entries => tables.entries.len() / ENTRY_SIZE,
        RunningTotal::Packages => tables.packages.len() / PACKAGE_SIZE,
    }
}

// The scratch of an entry's Blas, or of a package's Tlas.
fn build_scratch_size(of: RunningTotal, tables: &BuildTables<'_>, i: usize) -> u64
    requires { (i < structures_in of (lent_tables tables.now)) × StructuresNamed of (lent_tables tables.now) }
    ensures { result ≡ structure_sizes of (lent_tables tables.now) i }
{
    match of {
        RunningTotal::Entries => {
            blas_of_entry(tables.blases, tables.entries, i).build_scratch_size
        }
        RunningTotal::Packages => {
            tlas_of_package(tables.tlases, tables.packages, i).build_scratch_size
        }
    }
}

// One offset per entry, or one per package: the total before it. Blases and Tlases share the scratch, so that both totals run from
// 0. No sum passes 2^64 - 1: the scratch was judged.
#[tactic(auto, using(crate::proofs::Laws::offsets))]
fn write_offsets(of: RunningTotal, tables: &BuildTables<'_>, out: &mut [u64])
    requires alignment { 1 ≤ tables.now.alignment }
    requires room { length (structure_offsets of (lent_tables tables.now)) ≤ length out.old }
    requires named { StructuresNamed of (lent_tables tables.now) }
    requires below { TotalBelow of (lent_tables tables.now) }
    ensures { out.new ≡ sets out.old 0 (structure_offsets of (lent_tables tables.now)) }
{
    let alignment = u64::from(tables.alignment);
    let mut total = 0;
    for i in 0..structures(of, tables) {
        out[i] = total;
        let Some(sum) = add_rounded(total, build_scratch_size(of, tables, i), alignment) else {
            return;
        };
        total = sum;
    }
}

// An entry's Blas, if it is compactable, from index at on; the index past it.
fn put_compactable(blases: &[u8], entries: &[u8], i: usize, out: &mut [u16], at: usize) -> usize
    requires i_bound { (i < entries_in entries.now) × EntriesNamed blases.now entries.now }
    requires i_in_bounds { at + length (compactable_of (of_entries blases.now entries.now) i) ≤ length out.old }
    ensures value { result ≡ at + length (compactable_of (of_entries blases.now entries.now) i) }
    ensures out_after { out.new ≡ sets out.old at (compactable_of (of_entries blases.now entries.now) i) }
{
    let blas = blas_of_entry(blases, entries, i);
    if blas.flags / 4 % 2 == 1 {
        out[at] = entry_at(entries, i * ENTRY_SIZE).blas.0;
        return at + 1;
    }
    at
}

#[tactic(auto, using(crate::proofs::Laws::listing))]
fn write_compactable(blases: &[u8], entries: &[u8], out: &mut [u16])
    requires entries_named { EntriesNamed blases.now entries.now }
    requires entries_in_bounds { length (compactable_in blases.now entries.now) ≤ length out.old }
    ensures { out.new ≡ sets out.old 0 (compactable_in blases.now entries.now) }
{
    let mut at = 0;
    for i in 0..entries.len() / ENTRY_SIZE {
        at = put_compactable(blases, entries, i, out, at);
    }
}

// Start and end of each package's bytes: 64 for each present slot, without gap.
#[tactic(auto, using(crate::proofs::Laws::staging))]
fn write_staging_ranges(packages: &[u8], slots: &[u8], out: &mut [u64])
    requires { Drawn packages.now slots.now × (length (staging_in packages.now slots.now) ≤ length out.old) }
    ensures { out.new ≡ sets out.old 0 (staging_in packages.now slots.now) }
{
    let mut start = 0;
    let mut s = 0;
    for p in 0..packages.len() / PACKAGE_SIZE {
        let count = slot_count(packages, p);
        let bytes = INSTANCE_SIZE * present_of(slots, s, count);
        let end = start + bytes as u64;
        out[2 * p] = start;
        out[2 * p + 1] = end;
        start = end;
        s += count;
    }
}

fn write_instances(blases: &[u8], slots: &[u8], out: &mut [u8])
    requires { AllWritable blases.now slots.now × (length (instances_in blases.now slots.now) ≤ length out.old) }
    ensures { out.new ≡ sets out.old 0 (instances_in blases.now slots.now) }
{
    put_slots(blases, slots, 0, slots.len() / SLOT_SIZE, out, 0);
}

fn compactable_cells(blases: &[u8], entries: &[u8], i: usize) -> usize
    requires { (i < entries_in entries.now) × EntriesNamed blases.now entries.now }
    ensures { (result ≡ length (compactable_of (of_entries blases.now entries.now) i)) × (result ≤ 1) }
{
    let blas = blas_of_entry(blases, entries, i);
    if blas.flags / 4 % 2 == 1 { 1 } else { 0 }
}

#[tactic(auto, using(crate::proofs::Laws::listing))]
fn count_compactable(blases: &[u8], entries: &[u8]) -> usize
    requires { EntriesNamed blases.now entries.now }
    ensures { result ≡ length (compactable_in blases.now entries.now) }
{
    let mut n = 0;
    for i in 0..entries.len() / ENTRY_SIZE {
        n += compactable_cells(blases, entries, i);
    }
    n
}

// How many elements of each output a recorded build writes: no alignment and no Tlas changes that.
pub fn counts(tables: &BuildTables<'_>) -> Written
    requires { EntriesNamed tables.now.blases.now tables.now.entries.now
        × DrawnFit tables.now.version tables.now.entries.now tables.now.geometries.now
        × Drawn tables.now.packages.now tables.now.slots.now }
    ensures { result ≡ counts_of (planned (lent_tables tables.now)) }
{
    let blas_offsets = tables.entries.len() / ENTRY_SIZE;
    let tlas_offsets = tables.packages.len() / PACKAGE_SIZE;
    let present = present_of(tables.slots, 0, tables.slots.len() / SLOT_SIZE);
    let init_ranges = count_ranges(tables.version, tables.entries, tables.geometries);
    let compactable = count_compactable(tables.blases, tables.entries);
    Written {
        blas_offsets,
        tlas_offsets,
        staging_ranges: 2 * tlas_offsets,
        instances: INSTANCE_SIZE * present,
        init_ranges,
        compactable,
        lists: blas_offsets + 2 * tlas_offsets + present,
    }
}

// All seven outputs.
pub fn write_plan(tables: &BuildTables<'_>, outputs: &mut BuildOutputs<'_>)
    requires plannable { Plannable (lent_tables tables.now) }
    requires plan_room { PlanRoom (planned (lent_tables tables.now)) (lent_outputs outputs.old) }
    ensures plan { lent_outputs outputs.new ≡ written (planned (lent_tables tables.now)) (lent_outputs outputs.old) }
    ensures names { SameOutputs outputs.old outputs.new }
{
    write_offsets(RunningTotal::Entries, tables, outputs.blas_offsets);
    write_offsets(RunningTotal::Packages, tables, outputs.tlas_offsets);
    write_staging_ranges(tables.packages, tables.slots, outputs.staging_ranges);
    write_instances(tables.blases, tables.slots, outputs.instances);
    write_init_ranges(
        tables.version,
        tables.entries,
        tables.geometries,
        outputs.init_ranges,
    );
    write_compactable(tables.blases, tables.entries, outputs.compactable);
    write_lists(tables.entries, tables.packages, tables.slots, outputs.lists);
}
