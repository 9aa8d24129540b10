// The entry points' answers as the numbers of C structs, unused ones 0.
#![tactic(auto)]

ghost use Rattle.std.specs.Prelude.{◌≡◌};
ghost use Rattle.ray_tracing.specs.Causes.{reading_of};
ghost use Rattle.ray_tracing.specs.Reading.{accepted};
ghost use Rattle.ray_tracing.specs.Canonical.{wrote, unwritten, writing_of};
ghost use Rattle.ray_tracing.specs.Conversion.{converting_of};
ghost use Rattle.ray_tracing.specs.Groups.{opening_of};
ghost use Rattle.ray_tracing.specs.Plan.{recorded, not_built, building_of};
ghost use Rattle.ray_tracing.specs.Instances.{appended_of};
ghost use Rattle.ray_tracing.specs.AppendMany.{all_in_use, none_appended, appended_many_of};
ghost use Rattle.ray_tracing.specs.ReadInstances.{instances_read_of};
ghost use Rattle.ray_tracing.specs.Report.{reported_of};
ghost use Rattle.causes.specs.Figures.{cause_of};
ghost use Rattle.ray_tracing.specs.Answers.{sheet_answer, write_answer, open_answer, built_answer, append_answer, append_many_answer};
ghost use Rattle.ray_tracing.specs.Answers.{instances_answer, report_answer};

use causes::{Figures, build_figures, instances_number, sheet_number};
use ray_tracing::{
    AppendAnswer, BuildAccelerationStructureError, BuildAnswer, BuildRefusal, Built,
    ConvertSheetError, GroupsError, InstancesAnswer, OpenAnswer, OpenGroupsError, OutputTooShort,
    ReadInstancesRefusal, ReportAnswer, Sheet, SheetAnswer, SheetRefusal, WriteAnswer,
    WriteSheetError, Written,
};

fn sheet_accepted(x: Sheet) -> SheetAnswer
    ensures { result ≡ sheet_answer (accepted x) }
{
    SheetAnswer {
        number: 0,
        place: 0,
        version: u64::from(u8::from(x.version)),
        alignment: u64::from(x.alignment),
        counter: x.counter,
        buffers_start: x.buffers.start as u64,
        buffers_count: x.buffers.count as u64,
        blases_start: x.blases.start as u64,
        blases_count: x.blases.count as u64,
        declared_start: x.declared.start as u64,
        declared_count: x.declared.count as u64,
        tlases_start: x.tlases.start as u64,
        tlases_count: x.tlases.count as u64,
        entries_start: x.entries.start as u64,
        entries_count: x.entries.count as u64,
        geometries_start: x.geometries.start as u64,
        geometries_count: x.geometries.count as u64,
        packages_start: x.packages.start as u64,
        packages_count: x.packages.count as u64,
        slots_start: x.slots.start as u64,
        slots_count: x.slots.count as u64,
        actions_start: x.actions.start as u64,
        actions_count: x.actions.count as u64,
    }
}

pub fn sheet_answer(read: Result<Sheet, SheetRefusal>) -> SheetAnswer
    ensures { result ≡ sheet_answer (reading_of read) }
{
    match read {
        Ok(sheet) => sheet_accepted(sheet),
        Err(r) => SheetAnswer {
            number: sheet_number(r.error),
            place: r.place as u64,
            ..SheetAnswer::default()
        },
    }
}

fn write_done(n: usize) -> WriteAnswer
    ensures { result ≡ write_answer (wrote n) }
{
    WriteAnswer {
        written: n as u64,
        ..WriteAnswer::default()
    }
}

fn write_refused(number: u64, place: usize) -> WriteAnswer
    ensures { result ≡ write_answer (unwritten number place) }
{
    WriteAnswer {
        number,
        place: place as u64,
        ..WriteAnswer::default()
    }
}

pub fn write_answer(written: Result<usize, WriteSheetError>) -> WriteAnswer
    ensures { result ≡ write_answer (writing_of written) }
{
    match written {
        Ok(n) => write_done(n),
        Err(WriteSheetError::Malformed(r)) => write_refused(sheet_number(r.error), r.place),
        Err(WriteSheetError::OutputTooShort) => write_refused(39, 0),
    }
}

pub fn convert_answer(converted: Result<usize, ConvertSheetError>) -> WriteAnswer
    ensures { result ≡ write_answer (converting_of converted) }
{
    match converted {
        Ok(n) => write_done(n),
        Err(ConvertSheetError::Malformed(r)) => write_refused(sheet_number(r.error), r.place),
        Err(ConvertSheetError::OffsetTooFar(place)) => write_refused(47, place),
        Err(ConvertSheetError::OutputTooShort) => write_refused(39, 0),
    }
}

fn groups_refused(e: GroupsError) -> OpenAnswer
    ensures { result ≡ open_answer (opening_of (Err (OpenGroupsError.Invalid e))) }
{
    match e {
        GroupsError::Malformed(r) => OpenAnswer {
            number: sheet_number(r.error),
            place: r.place as u64,
            ..OpenAnswer::default()
        },
        GroupsError::InvalidGroup(group, item) => OpenAnswer {
            number: 45,
            group: group as u64,
            item: item as u64,
            ..OpenAnswer::default()
        },
    }
}

pub fn open_answer(opened: Result<usize, OpenGroupsError>) -> OpenAnswer
    ensures { result ≡ open_answer (opening_of opened) }
{
    match opened {
        Ok(n) => OpenAnswer {
            written: n as u64,
            ..OpenAnswer::default()
        },
        Err(OpenGroupsError::Invalid(e)) => groups_refused(e),
        Err(OpenGroupsError::TooManySlots(group, item)) => OpenAnswer {
            number: 46,
            group: group as u64,
            item: item as u64,
            ..OpenAnswer::default()
        },
        Err(OpenGroupsError::OutputTooShort) => OpenAnswer {
            number: 39,
            ..OpenAnswer::default()
        },
    }
}

fn build_recorded(size: u64, w: Written) -> BuildAnswer
    ensures { result ≡ built_answer (recorded size w) }
{
    BuildAnswer {
        recorded: 1,
        scratch_size: size,
        blas_offsets: w.blas_offsets as u64,
        tlas_offsets: w.tlas_offsets as u64,
        staging_ranges: w.staging_ranges as u64,
        instances: w.instances as u64,
        init_ranges: w.init_ranges as u64,
        compactable: w.compactable as u64,
        lists: w.lists as u64,
        ..BuildAnswer::default()
    }
}

fn build_refused(figures: Figures, e0: usize, e1: usize) -> BuildAnswer
    ensures { result ≡ built_answer (not_built e0 e1 (cause_of figures)) }
{
    BuildAnswer {
        number: figures.number,
        e0: e0 as u64,
        e1: e1 as u64,
        f0: figures.first,
        f1: figures.second,
        f2: figures.third,
        ..BuildAnswer::default()
    }
}

pub fn build_answer(built: Result<Built, BuildRefusal>) -> BuildAnswer
    ensures { result ≡ built_answer (building_of built) }
{
    match built {
        Ok(Built::Recorded(size, w)) => build_recorded(size, w),
        Ok(Built::NothingRecorded(n)) => BuildAnswer {
            init_ranges: n as u64,
            ..BuildAnswer::default()
        },
        Err(r) => build_refused(build_figures(r.error), r.e0, r.e1),
    }
}

// As `write_done`, of another struct.
fn append_done(n: usize) -> AppendAnswer
    ensures { result ≡ append_many_answer 0 (all_in_use n) }
{
    AppendAnswer {
        used: n as u64,
        ..AppendAnswer::default()
    }
}

// `used` bytes were in use before, and still are.
fn append_refused(figures: Figures, e0: usize, e1: usize, used: usize) -> AppendAnswer
    ensures { result ≡ append_many_answer used (none_appended e0 e1 (cause_of figures)) }
{
    AppendAnswer {
        number: figures.number,
        e0: e0 as u64,
        e1: e1 as u64,
        f0: figures.first,
        f1: figures.second,
        f2: figures.third,
        used: used as u64,
    }
}

pub fn append_answer(
    used: usize,
    appended: Result<usize, BuildAccelerationStructureError>,
) -> AppendAnswer
    ensures { result ≡ append_answer used (appended_of appended) }
{
    match appended {
        Ok(n) => append_done(n),
        Err(e) => append_refused(build_figures(e), 0, 0, used),
    }
}

pub fn append_many_answer(used: usize, appended: Result<usize, BuildRefusal>) -> AppendAnswer
    ensures { result ≡ append_many_answer used (appended_many_of appended) }
{
    match appended {
        Ok(n) => append_done(n),
        Err(r) => append_refused(build_figures(r.error), r.e0, r.e1, used),
    }
}

pub fn instances_answer(read: Result<usize, ReadInstancesRefusal>) -> InstancesAnswer
    ensures { result ≡ instances_answer (instances_read_of read) }
{
    match read {
        Ok(n) => InstancesAnswer {
            written: n as u64,
            ..InstancesAnswer::default()
        },
        Err(r) => InstancesAnswer {
            number: instances_number(r.error),
            e0: r.index as u64,
            ..InstancesAnswer::default()
        },
    }
}

pub fn report_answer(reported: Result<usize, OutputTooShort>) -> ReportAnswer
    ensures { result ≡ report_answer (reported_of reported) }
{
    let (number, written) = match reported {
        Ok(n) => (0, n as u64),
        Err(_) => (39, 0),
    };
    ReportAnswer { number, written }
}
