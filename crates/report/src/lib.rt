// The sheet program's text: a sheet's bytes in, the lines that are printed for it out.
#![tactic(auto)]

ghost use Rattle.std.specs.Prelude.{◌≡◌, [], ◌∷◌, ◌+◌, ◌*◌, ◌≤◌, length, take, drop};
ghost use Rattle.ray_tracing.specs.Causes.{sheet_number};
ghost use Rattle.ray_tracing.specs.Reading.{accepted, read_sheet};
ghost use Rattle.ray_tracing.specs.Plan.{building_of, lent_tables, lent_outputs};
ghost use Rattle.ray_tracing.specs.Report as Report;
ghost use Rattle.ray_tracing.specs.Report.{line, word-sheet, built_lines, reported_of, Puts};
ghost use Rattle.ray_tracing.specs.Sizes.{longest_line, longest_report};
ghost use Rattle.ray_tracing.specs.Explain.{of_sheet, built_refusal, refusal_in};
ghost use Rattle.report_text.specs.Put.{Put};
ghost use Rattle.report_words.specs.Refused.{Refuses};
ghost use Rattle.report_submit.specs.Parts.{LendableTables};
ghost use Rattle.report.specs.Parts.{accepted_lines, accepted_refusal, answer_lines_of, answer_refusal_of, lists_of};
ghost use Rattle.report.specs.Parts.{table_lines, table_refusal};

use build::build_acceleration_structures;
use ray_tracing::{
    ACTION_SIZE, BLAS_SIZE, BUFFER_SIZE, BuildOutputs, BuildRefusal, BuildTables, Built,
    DECLARED_SIZE, ENTRY_SIZE, OutputTooShort, PACKAGE_SIZE, SLOT_SIZE, Section, Sheet,
    SheetRefusal, TLAS_SIZE, geometry_size,
};
use report_plan::{put_build_line, put_plan};
use report_submit::{Printed, put_submission};
use report_text::{put_line, put_text};
use report_words::{Refusal, no_refusal};
use sheet::read_sheet;

// The lines of an accepted build, by its scratch size, if it is recorded, and of the actions on what it left.
fn put_lines(
    scratch: Option<u64>,
    lists: &[u16],
    counter: u64,
    tables: &BuildTables<'_>,
    actions: &[u8],
    outputs: &BuildOutputs<'_>,
    out: &mut [u8],
) -> Printed
    requires lendable { LendableTables (lent_tables tables.now) actions.now }
    requires longest_report_in_bounds { longest_report ≤ length out.old }
    requires in_bounds { (64 ≤ length outputs.now.blas_offsets.now) × (32 ≤ length outputs.now.tlas_offsets.now) }
    requires in_bounds_2 { 64 ≤ length outputs.now.staging_ranges.now }
    ensures put { Put out.old 0
        (accepted_lines scratch counter (lent_tables tables.now) actions.now (lent_outputs outputs.now) lists.now)
        result.end out.new }
    ensures refuses { Refuses result.refusal (accepted_refusal scratch counter (lent_tables tables.now) actions.now lists.now) }
{
    let built = put_build_line(out, no_refusal());
    let end = put_plan(
        scratch,
        tables.entries,
        tables.packages,
        &*outputs.blas_offsets,
        &*outputs.tlas_offsets,
        &*outputs.staging_ranges,
        out,
        built,
    );
    put_submission(counter, tables, scratch.is_some(), actions, lists, out, end)
}

// The lines of what a build came to, with what it left of its outputs.
fn put_answer(
    built: Result<Built, BuildRefusal>,
    counter: u64,
    tables: &BuildTables<'_>,
    actions: &[u8],
    outputs: &BuildOutputs<'_>,
    out: &mut [u8],
) -> Printed
    requires lendable { LendableTables (lent_tables tables.now) actions.now }
    requires longest_report_in_bounds { longest_report ≤ length out.old }
    requires in_bounds { (64 ≤ length outputs.now.blas_offsets.now) × (32 ≤ length outputs.now.tlas_offsets.now) }
    requires in_bounds_2 { (64 ≤ length outputs.now.staging_ranges.now)
        × (lists_of (building_of built) ≤ length outputs.now.lists.now) }
    ensures put { Put out.old 0
        (answer_lines_of (building_of built) counter (lent_tables tables.now) actions.now (lent_outputs outputs.now))
        result.end out.new }
    ensures refuses { Refuses result.refusal
        (answer_refusal_of (building_of built) counter (lent_tables tables.now) actions.now (lent_outputs outputs.now)) }
{
    match built {
        Ok(Built::Recorded(size, w)) => put_lines(
            Some(size),
            &outputs.lists[..w.lists],
            counter,
            tables,
            actions,
            outputs,
            out,
        ),
        Ok(Built::NothingRecorded(_)) => {
            put_lines(None, &[], counter, tables, actions, outputs, out)
        }
        Err(r) => {
            let refusal = Refusal::from(r);
            let end = put_build_line(out, refusal);
            Printed { end, refusal }
        }
    }
}

// Builds the tables, with as much room as any sheet can need.
fn put_built(counter: u64, tables: &BuildTables<'_>, actions: &[u8], out: &mut [u8]) -> Printed
    requires lendable { LendableTables (lent_tables tables.now) actions.now }
    requires longest_report_in_bounds { longest_report ≤ length out.old }
    ensures put { Put out.old 0 (table_lines counter (lent_tables tables.now) actions.now) result.end out.new }
    ensures refuses { Refuses result.refusal (table_refusal counter (lent_tables tables.now) actions.now) }
{
    let mut blas_offsets = [0u64; 64];
    let mut tlas_offsets = [0u64; 32];
    let mut staging_ranges = [0u64; 64];
    let mut instances = [0u8; 32768];
    let mut init_ranges = [0u64; 2304];
    let mut compactable = [0u16; 64];
    let mut lists = [0u16; 640];
    let mut outputs = BuildOutputs {
        blas_offsets: &mut blas_offsets,
        tlas_offsets: &mut tlas_offsets,
        staging_ranges: &mut staging_ranges,
        instances: &mut instances,
        init_ranges: &mut init_ranges,
        compactable: &mut compactable,
        lists: &mut lists,
    };
    let built = build_acceleration_structures(tables, &mut outputs);
    put_answer(built, counter, tables, actions, &outputs, out)
}

// The records of one section.
fn part(sheet: &[u8], s: Section, size: usize) -> &[u8]
    requires { (size ≤ 64) × (s.start + s.count * size ≤ length sheet.now) }
    ensures { result.now ≡ take (s.count * size) (drop s.start sheet.now) }
{
    let start = s.start;
    let end = start + s.count * size;
    &sheet[start..end]
}

fn put_accepted(sheet: &[u8], x: Sheet, out: &mut [u8]) -> Printed
    requires { (read_sheet sheet.now ≡ accepted x) × (longest_report ≤ length out.old) }
    ensures put { Put out.old 0 (built_lines sheet.now x) result.end out.new }
    ensures refuses { Refuses result.refusal (built_refusal sheet.now x) }
{
    let buffers = part(sheet, x.buffers, BUFFER_SIZE);
    let blases = part(sheet, x.blases, BLAS_SIZE);
    let declared = part(sheet, x.declared, DECLARED_SIZE);
    let tlases = part(sheet, x.tlases, TLAS_SIZE);
    let entries = part(sheet, x.entries, ENTRY_SIZE);
    let geometries = part(sheet, x.geometries, geometry_size(x.version));
    let packages = part(sheet, x.packages, PACKAGE_SIZE);
    let slots = part(sheet, x.slots, SLOT_SIZE);
    let actions = part(sheet, x.actions, ACTION_SIZE);
    let tables = BuildTables {
        version: x.version,
        alignment: x.alignment,
        buffers,
        blases,
        declared,
        tlases,
        entries,
        geometries,
        packages,
        slots,
    };
    put_built(x.counter, &tables, actions, out)
}

fn put_refused(r: SheetRefusal, out: &mut [u8]) -> Printed
    requires { longest_line word-sheet 2 ≤ length out.old }
    ensures put { Put out.old 0 (line word-sheet (sheet_number r.error ∷ r.place ∷ [])) result.end out.new }
    ensures refuses { Refuses result.refusal (of_sheet (sheet_number r.error) r.place) }
{
    let refusal: Refusal = r.into();
    let end = put_line(out, 0, b"sheet", &[refusal.number, refusal.e]);
    Printed { end, refusal }
}

// The lines of a sheet, into bytes that any of them fits, and what they refuse.
pub fn put_report(sheet: &[u8], out: &mut [u8]) -> Printed
    requires { longest_report ≤ length out.old }
    ensures put { Put out.old 0 (Report.report sheet.now) result.end out.new }
    ensures refuses { Refuses result.refusal (refusal_in sheet.now) }
{
    match read_sheet(sheet) {
        Ok(x) => put_accepted(sheet, x, out),
        Err(r) => put_refused(r, out),
    }
}

// The lines of a sheet, if they fit into what is lent: no more than 6,134 bytes are ever needed.
pub fn report(sheet: &[u8], out: &mut [u8]) -> Result<usize, OutputTooShort>
    ensures { Puts (Report.report sheet.now) out.old (reported_of result) out.new }
{
    let mut text = [0u8; 6134];
    let n = put_report(sheet, &mut text).end;
    put_text(out, &text[..n])
}
