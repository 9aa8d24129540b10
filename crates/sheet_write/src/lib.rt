// The canonical writer: what the reader accepted, section after section.
#![tactic(auto)]

ghost use Rattle.std.specs.Prelude.{◌≡◌, ◌+◌, ◌-◌, ◌/◌, ◌≤◌, ◌<◌, length};
ghost use Rattle.std.proofs.lemmas.List.Edits.{sets};
ghost use Rattle.ray_tracing.specs.Layout.{layout, layout_in, size, size_in};
ghost use Rattle.ray_tracing.specs.Reading.{fine, past, from, judge_lent, judge_sheet};
ghost use Rattle.ray_tracing.specs.Canonical.{canonical_table, canonical, writing_of, WritesSheet};
ghost use Rattle.sheet_write.specs.Sections.{section_written};

use ray_tracing::{BLAS_SIZE, DECLARED_SIZE, Version, WriteSheetError};
use sheet::read_sheet;
use sheet_by_blas::put_by_blas;
use sheet_clear::{Section, clear_drawn, clear_records};
use sheet_layout::{records_in, size_of, version_in};
use wire::{put_bytes, put_u8, u8_at, u16_at};

// Each of these writes a table that is judged fine, from a place on.

// Declared geometries: put by Blas, then made canonical where they stand.
fn write_declared(version: Version, out: &mut [u8], at: usize, table: &[u8], blases: &[u8])
    requires { ((at + length table.now ≤ length out.old) × (length blases.now / size 2 ≤ 128))
        × (judge_lent 3 (layout 3) (size 2) blases.now table.now ≡ fine) }
    ensures { out.new ≡ sets out.old at (canonical_table version 3 blases.now table.now) }
{
    put_by_blas(out, at, table, blases.len() / BLAS_SIZE);
    let section = Section {
        version,
        number: 3,
        before: blases,
    };
    clear_records(&section, out, at, table.len() / DECLARED_SIZE, false);
}

fn write_geometries(version: Version, out: &mut [u8], at: usize, table: &[u8], entries: &[u8])
    requires { (at + length table.now ≤ length out.old)
        × (judge_lent 6 (layout_in version 6) (size 5) entries.now table.now ≡ fine) }
    ensures { out.new ≡ sets out.old at (canonical_table version 6 entries.now table.now) }
{
    put_bytes(out, at, table);
    clear_drawn(version, out, at, entries);
}

// Slots or actions.
fn write_records(section: &Section<'_>, out: &mut [u8], at: usize, table: &[u8])
    requires { ((7 < section.now.number) × (section.now.number < 10))
        × ((at + length table.now ≤ length out.old)
        × (judge_lent section.now.number (layout_in section.now.version section.now.number)
        (size_in section.now.version (section.now.number - 1)) section.now.before.now table.now ≡ fine)) }
    ensures { out.new ≡ sets out.old at (canonical_table section.now.version section.now.number section.now.before.now table.now) }
{
    let n = records_in(table.len(), size_of(section.version, section.number));
    put_bytes(out, at, table);
    clear_records(section, out, at, n, false);
}

// A table of any section. Where fields are all used the bytes are canonical.
fn write_table(section: &Section<'_>, out: &mut [u8], at: usize, table: &[u8])
    requires { ((section.now.number < 10) × (section.now.number ≡ 3 → length section.now.before.now / size 2 ≤ 128))
        × ((at + length table.now ≤ length out.old)
        × (judge_lent section.now.number (layout_in section.now.version section.now.number)
        (size_in section.now.version (section.now.number - 1)) section.now.before.now table.now ≡ fine)) }
    ensures { out.new ≡ sets out.old at (canonical_table section.now.version section.now.number section.now.before.now table.now) }
{
    match section.number {
        3 => write_declared(section.version, out, at, table, section.before),
        6 => write_geometries(section.version, out, at, table, section.before),
        8 | 9 => write_records(section, out, at, table),
        _ => put_bytes(out, at, table),
    }
}

// The section after section k of an accepted sheet, its count and its table: it stands at p, and the table of section k from b on.
// What follows it stands at what is returned.
#[tactic(auto, using(crate::proofs::Sections::sections_stand))]
fn write_section(out: &mut [u8], sheet: &[u8], k: usize, b: usize, p: usize) -> usize
    requires { ((judge_sheet sheet.now ≡ fine) × (length sheet.now ≤ length out.old))
        × ((k < 9) × ((b ≡ from sheet.now k) × (p ≡ past sheet.now k))) }
    ensures { (result ≡ past sheet.now (k + 1))
        × (out.new ≡ sets out.old p (section_written sheet.now k)) }
{
    let version = version_in(sheet);
    let a = p + 2;
    let n = u16_at(sheet, p) as usize;
    let e = a + n * size_of(version, k + 1);
    put_bytes(out, p, &sheet[p..a]);
    let section = Section {
        version,
        number: k + 1,
        before: &sheet[b..p],
    };
    write_table(&section, out, a, &sheet[a..e]);
    e
}

#[tactic(auto, using(crate::proofs::Sections::sections_stand))]
fn write_accepted(out: &mut [u8], sheet: &[u8])
    requires { (judge_sheet sheet.now ≡ fine) × (length sheet.now ≤ length out.old) }
    ensures { out.new ≡ sets out.old 0 (canonical sheet.now) }
{
    let version = u8_at(sheet, 0);
    let mut p = 1 + size_of(version_in(sheet), 0);
    let mut b = p;
    put_u8(out, 0, version);
    put_bytes(out, 1, &sheet[1..p]);
    for k in 0..9 {
        let end = write_section(out, sheet, k, b, p);
        b = p + 2;
        p = end;
    }
}

pub fn write_sheet(sheet: &[u8], out: &mut [u8]) -> Result<usize, WriteSheetError>
    ensures { WritesSheet sheet.now out.old (writing_of result) out.new }
{
    read_sheet(sheet)?;
    if out.len() < sheet.len() {
        return Err(WriteSheetError::OutputTooShort);
    }
    write_accepted(out, sheet);
    Ok(sheet.len())
}
