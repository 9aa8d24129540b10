// The tables that a build is lent, judged first: the scratch alignment, then sections 1 to 8 in turn.
#![tactic(auto)]

ghost use Rattle.std.specs.Prelude.{◌≡◌, ◌-◌, ◌≤◌, ◌<◌, eqb};
ghost use Rattle.ray_tracing.specs.Layout.{layout_in, size_in};
ghost use Rattle.ray_tracing.specs.Reading.{judge_lent};
ghost use Rattle.ray_tracing.specs.Causes.{bare, build_cause, sheet_number};
ghost use Rattle.ray_tracing.specs.Code.{verdict_of};
ghost use Rattle.ray_tracing.specs.Plan.{refused, on, by_section, judge_tables, lent_tables};

use ray_tracing::{
    BuildAccelerationStructureError, BuildRefusal, BuildTables, SheetError, SheetRefusal, Version,
};
use sheet_sections::judge_lent;

// A lent table is refused with 4 or 5 only. `submit_start::table_error` answers another type, a submission's.
fn table_error(e: SheetError) -> BuildAccelerationStructureError
    requires { 4 ≤ sheet_number e }
    ensures { build_cause result ≡ bare (sheet_number e) }
{
    match e {
        SheetError::TooMany => BuildAccelerationStructureError::TooMany,
        SheetError::InvalidValue => BuildAccelerationStructureError::InvalidValue,
        SheetError::UnknownVersion | SheetError::Truncated | SheetError::TrailingBytes => {
            unreachable!()
        }
    }
}

// The table of a section, after that of the section before.
fn judge_section(
    version: Version,
    section: usize,
    before: &[u8],
    table: &[u8],
) -> Result<(), BuildRefusal>
    requires { (0 < section) × (section < 10) }
    ensures { verdict_of result
        ≡ by_section
        section
        (judge_lent
        section
        (layout_in version section)
        (size_in version (section - 1))
        before.now
        table.now) }
{
    let Err(SheetRefusal { error, place }) = judge_lent(version, table, section, before) else {
        return Ok(());
    };
    Err(BuildRefusal {
        error: table_error(error),
        e0: section,
        e1: place,
    })
}

fn judge_alignment(alignment: u32) -> Result<(), BuildRefusal>
    ensures { verdict_of result ≡ on (eqb alignment 0) (refused 0 0 (bare 5)) }
{
    if alignment == 0 {
        return Err(BuildRefusal {
            error: BuildAccelerationStructureError::InvalidValue,
            e0: 0,
            e1: 0,
        });
    }
    Ok(())
}

// Sections 1 to 8, in turn; the scratch alignment before them.
#[tactic(auto, unfolding(ray_tracing::specs::Plan::judge_tables, ray_tracing::specs::Plan::first_of))]
pub fn judge_tables(tables: &BuildTables<'_>) -> Result<(), BuildRefusal>
    ensures { verdict_of result ≡ judge_tables (lent_tables tables.now) }
{
    let version = tables.version;
    judge_alignment(tables.alignment)?;
    judge_section(version, 1, &[], tables.buffers)?;
    judge_section(version, 2, tables.buffers, tables.blases)?;
    judge_section(version, 3, tables.blases, tables.declared)?;
    judge_section(version, 4, tables.declared, tables.tlases)?;
    judge_section(version, 5, tables.tlases, tables.entries)?;
    judge_section(version, 6, tables.entries, tables.geometries)?;
    judge_section(version, 7, tables.geometries, tables.packages)?;
    judge_section(version, 8, tables.packages, tables.slots)
}
