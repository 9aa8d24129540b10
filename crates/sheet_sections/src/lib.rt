// A section judged: its count, and its records one after the other. The same judging for a lent table that stands for a section.
#![tactic(auto)]

ghost use Rattle.std.specs.Prelude.{◌≡◌, ◌+◌, ◌-◌, ◌/◌, ◌≤◌, ◌<◌, length};
ghost use Rattle.ray_tracing.specs.Layout.{layout_in, size, size_in};
ghost use Rattle.ray_tracing.specs.Reading.{judge_drawn, judge_table, judge_lent, judge_section};
ghost use Rattle.ray_tracing.specs.Code.{judged_of};

use ray_tracing::{ENTRY_SIZE, SheetError, SheetRefusal, Version, geometry_size};
use sheet_fields::judge_records;
use sheet_layout::{adds_up, most_of, records_in, size_of, version_in};
use wire::{u8_at, u16_at};

// The geometries that the entries draw in turn, each by its entry's kind.
fn judge_drawn(version: Version, s: &[u8], at: usize, entries: &[u8]) -> Result<(), SheetRefusal>
    requires { at ≤ length s.now }
    ensures { judged_of result ≡
        judge_drawn
        (layout_in version 6).fields
        entries.now
        0
        s.now
        at
        (length entries.now / size 5) }
{
    let size = geometry_size(version);
    let mut p = at;
    let mut q = 0;
    for _ in 0..entries.len() / ENTRY_SIZE {
        let boxes = u8_at(entries, q + 2) == 1;
        let n = usize::from(u16_at(entries, q + 3));
        judge_records(version, s, p, n, 6, entries, ENTRY_SIZE, boxes)?;
        p += n * size;
        q += ENTRY_SIZE;
    }
    Ok(())
}

// The records of a section: the judge of the sheet's sections and of lent tables.
fn judge_table(
    version: Version,
    s: &[u8],
    at: usize,
    n: usize,
    section: usize,
    before: &[u8],
    each: usize,
) -> Result<(), SheetRefusal>
    requires { (at ≤ length s.now) × (section < 10) }
    ensures { judged_of result ≡ judge_table section (layout_in version section).fields each before.now s.now at n }
{
    if section == 6 {
        return judge_drawn(version, s, at, before);
    }
    judge_records(version, s, at, n, section, before, each, false)
}

// A lent table that stands for a section: refused as its section is, with the record's number for the place, and for a part record
// at its end.
pub fn judge_lent(
    version: Version,
    table: &[u8],
    section: usize,
    before: &[u8],
) -> Result<(), SheetRefusal>
    requires { (0 < section) × (section < 10) }
    ensures { judged_of result
        ≡ judge_lent
        section
        (layout_in version section)
        (size_in version (section - 1))
        before.now
        table.now }
{
    let size = size_of(version, section);
    let n = records_in(table.len(), size);
    if most_of(section) < n {
        return Err(SheetRefusal {
            error: SheetError::TooMany,
            place: 0,
        });
    }
    if !adds_up(section, before, n) {
        return Err(SheetRefusal {
            error: SheetError::InvalidValue,
            place: 0,
        });
    }
    let each = size_of(version, section - 1);
    judge_table(version, table, 0, n, section, before, each).map_err(|r| SheetRefusal {
        error: r.error,
        place: r.place / size,
    })?;
    if n * size != table.len() {
        return Err(SheetRefusal {
            error: SheetError::InvalidValue,
            place: n,
        });
    }
    Ok(())
}

// The section after section k: its count stands at `at`, the records of section k from a on.
pub fn judge_section(sheet: &[u8], at: usize, k: usize, a: usize) -> Result<(), SheetRefusal>
    requires { (k < 9) × ((a ≤ at) × (at + 2 ≤ length sheet.now)) }
    ensures { judged_of result ≡ judge_section sheet.now k a at }
{
    let n = usize::from(u16_at(sheet, at));
    if most_of(k + 1) < n {
        return Err(SheetRefusal {
            error: SheetError::TooMany,
            place: at,
        });
    }
    let before = &sheet[a..at];
    if !adds_up(k + 1, before, n) {
        return Err(SheetRefusal {
            error: SheetError::InvalidValue,
            place: at,
        });
    }
    let version = version_in(sheet);
    judge_table(
        version,
        sheet,
        at + 2,
        n,
        k + 1,
        before,
        size_of(version, k),
    )
}
