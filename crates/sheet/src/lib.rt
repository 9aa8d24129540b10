// The sheet's reader: the header, then section after section from the start on.
#![tactic(auto)]

ghost use Rattle.std.specs.Prelude.{◌≡◌, ◌+◌, ◌≤◌, ◌<◌, length};
ghost use Rattle.ray_tracing.specs.Reading.{judge_section, read_sheet};
ghost use Rattle.ray_tracing.specs.Causes.{reading_of};
ghost use Rattle.ray_tracing.specs.Code.{judged_of};
ghost use Rattle.sheet.specs.Count.{count_at};
ghost use Rattle.sheet.specs.Found.{judge_header, sheet_from};

use ray_tracing::{Section, Sheet, SheetError, SheetRefusal};
use sheet_fields::judge_records;
use sheet_layout::{size_of, version_in};
use sheet_sections::judge_section;
use wire::{u8_at, u16_at, u32_at, u64_at};

// A section's count, where the sheet does not end before it does.
fn count_at(sheet: &[u8], at: usize) -> Option<u16>
    ensures { result ≡ count_at sheet.now at }
{
    if sheet.len() < 2 || sheet.len() - 2 < at {
        return None;
    }
    Some(u16_at(sheet, at))
}

// A sheet and the place of a section's count in it. Its functions only take it apart: the work is done by functions on the slice and
// the number.
#[derive(Clone, Copy)]
pub struct SectionReader<'a> {
    pub sheet: &'a [u8],
    pub at: usize,
}

impl<'a> SectionReader<'a> {
    pub fn new(sheet: &'a [u8], at: usize) -> SectionReader<'a>
        ensures { (result.sheet ≡ sheet.entry) × (result.at ≡ at) }
    {
        SectionReader { sheet, at }
    }

    pub fn count(self) -> Option<u16>
        ensures { result ≡ count_at self.entry.sheet.now self.entry.at }
    {
        count_at(self.sheet, self.at)
    }

    // The section after section k, whose records begin at a.
    pub fn section(self, k: usize, a: usize) -> Result<(), SheetRefusal>
        requires { (k < 9) × ((a ≤ self.at) × (self.at + 2 ≤ length self.sheet.now)) }
        ensures { judged_of result ≡ judge_section self.entry.sheet.now k a self.entry.at }
    {
        judge_section(self.sheet, self.at, k, a)
    }
}

// The version, then the header's fields.
fn judge_header(sheet: &[u8]) -> Result<(), SheetRefusal>
    ensures { judged_of result ≡ judge_header sheet.now }
{
    if sheet.is_empty() {
        return Err(SheetRefusal {
            error: SheetError::Truncated,
            place: 0,
        });
    }
    let version = u8_at(sheet, 0);
    if version != 1 && version != 2 {
        return Err(SheetRefusal {
            error: SheetError::UnknownVersion,
            place: 0,
        });
    }
    judge_records(version_in(sheet), sheet, 1, 1, 0, &sheet[0..0], 0, false)
}

// An accepted sheet, by its sections.
fn sheet_from(sheet: &[u8], sections: [Section; 9]) -> Sheet
    requires { 13 ≤ length sheet.now }
    ensures { result ≡ sheet_from sheet.now sections }
{
    let [
        buffers,
        blases,
        declared,
        tlases,
        entries,
        geometries,
        packages,
        slots,
        actions,
    ] = sections;
    Sheet {
        version: version_in(sheet),
        alignment: u32_at(sheet, 1),
        counter: u64_at(sheet, 5),
        buffers,
        blases,
        declared,
        tlases,
        entries,
        geometries,
        packages,
        slots,
        actions,
    }
}

pub fn read_sheet(sheet: &[u8]) -> Result<Sheet, SheetRefusal>
    ensures { reading_of result ≡ read_sheet sheet.now }
{
    judge_header(sheet)?;
    let mut sections = [Section { start: 0, count: 0 }; 9];
    let version = version_in(sheet);
    let mut p = 1 + size_of(version, 0);
    let mut a = p;
    for k in 0..9 {
        let reader = SectionReader::new(sheet, p);
        let Some(n) = reader.count() else {
            return Err(SheetRefusal {
                error: SheetError::Truncated,
                place: p,
            });
        };
        reader.section(k, a)?;
        let count = usize::from(n);
        a = p + 2;
        sections[k] = Section { start: a, count };
        p = a + count * size_of(version, k + 1);
    }
    if p < sheet.len() {
        return Err(SheetRefusal {
            error: SheetError::TrailingBytes,
            place: p,
        });
    }
    Ok(sheet_from(sheet, sections))
}
