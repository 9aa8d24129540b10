// A build: all is judged before anything is written, so that a refusal changes no lent byte.
#![tactic(auto)]

ghost use Rattle.std.specs.Prelude.{◌≡◌, ℕ, ◌<◌, get_or};
ghost use Rattle.ray_tracing.specs.Plan.{SameOutputs, counts_of, build, building_of, leaves, lent_outputs, lent_tables, Builds};
ghost use Rattle.build_plan.specs.Planned.{planned};
ghost use Rattle.build.specs.Room.{short_of, recorded_if, nothing_if, Writes};

use build_judge::judge_build;
use build_plan::{counts, write_plan};
use build_ranges::{count_ranges, write_init_ranges};
use ray_tracing::{
    BuildAccelerationStructureError, BuildOutputs, BuildRefusal, BuildTables, Built, Written,
};

// An output is too short: 39, which has no E.
const TOO_SHORT: BuildRefusal = BuildRefusal {
    error: BuildAccelerationStructureError::OutputTooShort,
    e0: 0,
    e1: 0,
};

// Whether an output is too short: what would be written, and what is lent.
fn too_short(w: Written, lent: Written) -> bool
    ensures { result ≡ short_of w lent }
{
    lent.blas_offsets < w.blas_offsets
        || lent.tlas_offsets < w.tlas_offsets
        || lent.staging_ranges < w.staging_ranges
        || lent.instances < w.instances
        || lent.init_ranges < w.init_ranges
        || lent.compactable < w.compactable
        || lent.lists < w.lists
}

// Recorded, 39 if an output does not fit.
fn recorded_if(size: u64, w: Written, lent: Written) -> Result<Built, BuildRefusal>
    ensures { building_of result ≡ recorded_if size w lent }
{
    if too_short(w, lent) {
        return Err(TOO_SHORT);
    }
    Ok(Built::Recorded(size, w))
}

// Nothing recorded, 39 if the initialisation ranges do not fit.
fn nothing_if(cells: usize, lent: usize) -> Result<Built, BuildRefusal>
    ensures { building_of result ≡ nothing_if cells lent }
{
    if lent < cells {
        return Err(TOO_SHORT);
    }
    Ok(Built::NothingRecorded(cells))
}

// How many elements of each output are lent.
fn lengths(outputs: &BuildOutputs<'_>) -> Written
    ensures { result ≡ counts_of (lent_outputs outputs.now) }
{
    Written {
        blas_offsets: outputs.blas_offsets.len(),
        tlas_offsets: outputs.tlas_offsets.len(),
        staging_ranges: outputs.staging_ranges.len(),
        instances: outputs.instances.len(),
        init_ranges: outputs.init_ranges.len(),
        compactable: outputs.compactable.len(),
        lists: outputs.lists.len(),
    }
}

// A table's cells are below 256: a proof has that of a slice that is a parameter, and not of one in a struct.
fn are_bytes(table: &[u8])
    ensures { (k : ℕ) → get_or table.now k 0 < 256 }
{}

// The answer, for these outputs; what it says is written was judged, and has room.
#[tactic(auto, using(crate::proofs::Judged::refused_build))]
fn judge(tables: &BuildTables<'_>, outputs: &BuildOutputs<'_>) -> Result<Built, BuildRefusal>
    ensures answer { building_of result ≡ build (lent_tables tables.now) (lent_outputs outputs.now) }
    ensures writes { Writes (building_of result) (lent_tables tables.now) (lent_outputs outputs.now) }
{
    are_bytes(tables.buffers);
    let lent = lengths(outputs);
    match judge_build(tables)? {
        Some(size) => recorded_if(size, counts(tables), lent),
        None => nothing_if(
            count_ranges(tables.version, tables.entries, tables.geometries),
            lent.init_ranges,
        ),
    }
}

// What a build that is accepted writes.
fn write(built: Built, tables: &BuildTables<'_>, outputs: &mut BuildOutputs<'_>)
    requires { Writes (building_of (Ok built)) (lent_tables tables.now) (lent_outputs outputs.old) }
    ensures left { lent_outputs outputs.new
        ≡ leaves (building_of (Ok built)) (planned (lent_tables tables.now)) (lent_outputs outputs.old) }
    ensures names { SameOutputs outputs.old outputs.new }
{
    match built {
        Built::Recorded(_, _) => write_plan(tables, outputs),
        Built::NothingRecorded(_) => write_init_ranges(
            tables.version,
            tables.entries,
            tables.geometries,
            outputs.init_ranges,
        ),
    }
}

pub fn build_acceleration_structures(
    tables: &BuildTables<'_>,
    outputs: &mut BuildOutputs<'_>,
) -> Result<Built, BuildRefusal>
    ensures built { Builds (lent_tables tables.now) (lent_outputs outputs.old) (building_of result) (lent_outputs outputs.new) }
    ensures names { SameOutputs outputs.old outputs.new }
{
    let built = judge(tables, outputs)?;
    write(built, tables, outputs);
    Ok(built)
}
