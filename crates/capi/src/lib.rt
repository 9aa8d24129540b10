// The entry points as C functions of a static library: each forwards, and says its answer in numbers.
#![tactic(auto)]

ghost use Rattle.std.specs.Prelude.{◌≡◌};
ghost use Rattle.ray_tracing.specs.declared.Version.TheVariants as version;
ghost use Rattle.ray_tracing.specs.Reading.{read_sheet};
ghost use Rattle.ray_tracing.specs.Canonical.{WritesSheetAs};
ghost use Rattle.ray_tracing.specs.Conversion.{ConvertsAs};
ghost use Rattle.ray_tracing.specs.Groups.{OpensGroupsAs};
ghost use Rattle.ray_tracing.specs.Plan.{tables_of, outputs_of, BuildsAs};
ghost use Rattle.ray_tracing.specs.Instances.{instance_from, AppendsAs};
ghost use Rattle.ray_tracing.specs.AppendMany.{AppendsManyAs};
ghost use Rattle.ray_tracing.specs.ReadInstances.{ReadsInstancesAs};
ghost use Rattle.ray_tracing.specs.Submission.{buffers_of, piece_of, Validates};
ghost use Rattle.ray_tracing.specs.Report as Report;
ghost use Rattle.ray_tracing.specs.Report.{PutsAs};
ghost use Rattle.ray_tracing.specs.Explain.{explained, words_of};
ghost use Rattle.ray_tracing.specs.Answers.{sheet_answer, write_answer, open_answer, built_answer, append_answer, append_many_answer};
ghost use Rattle.ray_tracing.specs.Answers.{instances_answer, report_answer};

use build::build_acceleration_structures;
use capi_answers::{
    append_answer, append_many_answer, build_answer, convert_answer, instances_answer, open_answer,
    report_answer, sheet_answer, write_answer,
};
use explain::explain;
use groups::open_groups;
use instance::append_instance;
use instance_bytes::instance_from;
use instance_many::append_instances;
use instance_read::read_instances;
use ray_tracing::{
    AppendAnswer, BuildAnswer, BuildOutputs, BuildTables, CommandIndices, InstancesAnswer,
    LENT_SIZE, OpenAnswer, ReportAnswer, SheetAnswer, SubmissionBuffers, TlasId, Validated,
    Version, WriteAnswer,
};
use report::report;
use report_words::{Refusal, words};
use sheet::read_sheet;
use sheet_convert::{to_version_1, to_version_2};
use sheet_write::write_sheet;
use submit::validate_acceleration_structure_actions;

#[unsafe(no_mangle)]
pub extern "C" fn zakvind_read_sheet(sheet: &[u8]) -> SheetAnswer
    ensures { result ≡ sheet_answer (read_sheet sheet.now) }
{
    sheet_answer(read_sheet(sheet))
}

#[unsafe(no_mangle)]
pub extern "C" fn zakvind_write_sheet(sheet: &[u8], out: &mut [u8]) -> WriteAnswer
    ensures { WritesSheetAs write_answer sheet.now out.old result out.new }
{
    write_answer(write_sheet(sheet, out))
}

#[unsafe(no_mangle)]
pub extern "C" fn zakvind_to_version_2(sheet: &[u8], out: &mut [u8]) -> WriteAnswer
    ensures { ConvertsAs write_answer version.Two sheet.now out.old result out.new }
{
    convert_answer(to_version_2(sheet, out))
}

#[unsafe(no_mangle)]
pub extern "C" fn zakvind_to_version_1(sheet: &[u8], out: &mut [u8]) -> WriteAnswer
    ensures { ConvertsAs write_answer version.One sheet.now out.old result out.new }
{
    convert_answer(to_version_1(sheet, out))
}

#[unsafe(no_mangle)]
pub extern "C" fn zakvind_open_groups(groups: &[u8], slots: &mut [u8]) -> OpenAnswer
    ensures { OpensGroupsAs open_answer groups.now slots.old result slots.new }
{
    open_answer(open_groups(groups, slots))
}

#[unsafe(no_mangle)]
pub extern "C" fn zakvind_build(
    alignment: u32,
    buffers: &[u8],
    blases: &[u8],
    declared: &[u8],
    tlases: &[u8],
    entries: &[u8],
    geometries: &[u8],
    packages: &[u8],
    slots: &[u8],
    blas_offsets: &mut [u64],
    tlas_offsets: &mut [u64],
    staging_ranges: &mut [u64],
    instances: &mut [u8],
    init_ranges: &mut [u64],
    compactable: &mut [u16],
    lists: &mut [u16],
) -> BuildAnswer
    ensures { BuildsAs built_answer
        (tables_of version.One alignment buffers.now blases.now declared.now tlases.now
        entries.now geometries.now packages.now slots.now)
        (outputs_of blas_offsets.old tlas_offsets.old staging_ranges.old
        instances.old init_ranges.old compactable.old lists.old)
        result
        (outputs_of blas_offsets.new tlas_offsets.new staging_ranges.new
        instances.new init_ranges.new compactable.new lists.new) }
{
    build_answer(build_acceleration_structures(
        &BuildTables {
            version: Version::One,
            alignment,
            buffers,
            blases,
            declared,
            tlases,
            entries,
            geometries,
            packages,
            slots,
        },
        &mut BuildOutputs {
            blas_offsets,
            tlas_offsets,
            staging_ranges,
            instances,
            init_ranges,
            compactable,
            lists,
        },
    ))
}

// The same for geometries of version 2, 48 bytes each.
#[unsafe(no_mangle)]
pub extern "C" fn zakvind_build_wide(
    alignment: u32,
    buffers: &[u8],
    blases: &[u8],
    declared: &[u8],
    tlases: &[u8],
    entries: &[u8],
    geometries: &[u8],
    packages: &[u8],
    slots: &[u8],
    blas_offsets: &mut [u64],
    tlas_offsets: &mut [u64],
    staging_ranges: &mut [u64],
    instances: &mut [u8],
    init_ranges: &mut [u64],
    compactable: &mut [u16],
    lists: &mut [u16],
) -> BuildAnswer
    ensures { BuildsAs built_answer
        (tables_of version.Two alignment buffers.now blases.now declared.now tlases.now
        entries.now geometries.now packages.now slots.now)
        (outputs_of blas_offsets.old tlas_offsets.old staging_ranges.old
        instances.old init_ranges.old compactable.old lists.old)
        result
        (outputs_of blas_offsets.new tlas_offsets.new staging_ranges.new
        instances.new init_ranges.new compactable.new lists.new) }
{
    build_answer(build_acceleration_structures(
        &BuildTables {
            version: Version::Two,
            alignment,
            buffers,
            blases,
            declared,
            tlases,
            entries,
            geometries,
            packages,
            slots,
        },
        &mut BuildOutputs {
            blas_offsets,
            tlas_offsets,
            staging_ranges,
            instances,
            init_ranges,
            compactable,
            lists,
        },
    ))
}

#[unsafe(no_mangle)]
pub extern "C" fn zakvind_submit(
    indices: &mut CommandIndices,
    blases: &mut [u8],
    tlases: &mut [u8],
    dependency_counts: &mut [u16],
    dependencies: &mut [u16],
    actions: &[u32],
    lists: &[u16],
) -> Validated
    ensures { Validates
        indices.old
        (buffers_of blases.old tlases.old dependency_counts.old dependencies.old)
        (piece_of actions.now lists.now)
        result
        indices.new
        (buffers_of blases.new tlases.new dependency_counts.new dependencies.new) }
{
    validate_acceleration_structure_actions(
        indices,
        &mut SubmissionBuffers {
            blases,
            tlases,
            dependency_counts,
            dependencies,
        },
        actions,
        lists,
    )
}

#[unsafe(no_mangle)]
pub extern "C" fn zakvind_append_instance(
    tlases: &[u8],
    blases: &[u8],
    tlas: u16,
    instance: &[u8; LENT_SIZE],
    instances: &mut [u8],
    used: u64,
) -> AppendAnswer
    ensures { AppendsAs (append_answer used)
        tlases.now blases.now (record { 0 = tlas }) (instance_from instance.now 0)
        instances.old used result instances.new }
{
    let read = instance_from(instance, 0);
    let used = used as usize;
    append_answer(
        used,
        append_instance(tlases, blases, TlasId(tlas), read, instances, used),
    )
}

// `items` are 55 bytes each, end to end, each as zakvind_append_instance takes one.
#[unsafe(no_mangle)]
pub extern "C" fn zakvind_append_instances(
    tlases: &[u8],
    blases: &[u8],
    tlas: u16,
    items: &[u8],
    instances: &mut [u8],
    used: u64,
) -> AppendAnswer
    ensures { AppendsManyAs (append_many_answer used)
        tlases.now blases.now (record { 0 = tlas }) items.now
        instances.old used result instances.new }
{
    let used = used as usize;
    append_many_answer(
        used,
        append_instances(tlases, blases, TlasId(tlas), items, instances, used),
    )
}

// `records` are 64 bytes each, as appending writes them; `items` are written 55 bytes each, as appending takes them.
#[unsafe(no_mangle)]
pub extern "C" fn zakvind_read_instances(
    records: &[u8],
    blases: &[u8],
    items: &mut [u8],
) -> InstancesAnswer
    ensures { ReadsInstancesAs instances_answer
        records.now blases.now items.old result items.new }
{
    instances_answer(read_instances(records, blases, items))
}

#[unsafe(no_mangle)]
pub extern "C" fn zakvind_report(sheet: &[u8], out: &mut [u8]) -> ReportAnswer
    ensures { PutsAs report_answer (Report.report sheet.now) out.old result out.new }
{
    report_answer(report(sheet, out))
}

#[unsafe(no_mangle)]
pub extern "C" fn zakvind_explain(sheet: &[u8], out: &mut [u8]) -> ReportAnswer
    ensures { PutsAs report_answer (explained sheet.now) out.old result out.new }
{
    report_answer(explain(sheet, out))
}

// The words of a call's refusal: the call is 1 of zakvind_read_sheet (e0 its place), 2 of zakvind_build, 3 of zakvind_submit (e0 its
// action, e1 the action's kind, 0 where it is not known), 4 of zakvind_append_instance, 5 of zakvind_write_sheet (e0 its place), 6 of
// zakvind_open_groups (e0 its place, of 45 and 46 e0 its group and e1 its item), 7 of zakvind_append_instances (e1 its position), 8
// of zakvind_to_version_2 or 9 of zakvind_to_version_1 (e0 its place), 10 of zakvind_read_instances (e0 its record).
#[unsafe(no_mangle)]
pub extern "C" fn zakvind_words(
    call: u64,
    number: u64,
    e0: u64,
    e1: u64,
    f0: u64,
    f1: u64,
    f2: u64,
    out: &mut [u8],
) -> ReportAnswer
    ensures { PutsAs report_answer (words_of call number e0 e1 f0 f1 f2) out.old result out.new }
{
    let refusal = Refusal {
        call,
        number,
        e: e0,
        f: e1,
        x: f0,
        y: f1,
        z: f2,
    };
    report_answer(words(refusal, out))
}
