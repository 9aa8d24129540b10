// Unused fields made zero where their records stand.
#![tactic(auto)]

ghost use Rattle.std.specs.Prelude.{◌≡◌, Bool, true, ◌+◌, ◌-◌, ◌*◌, ◌/◌, ◌≤◌, ◌<◌, length, drop, replicate};
ghost use mathlib.Core.List.{map, flatten};
ghost use Rattle.std.proofs.lemmas.List.Edits.{sets};
ghost use Rattle.wire.specs.Wire.{le_at};
ghost use Rattle.ray_tracing.specs.declared.Version.{Version};
ghost use Rattle.ray_tracing.specs.Layout.{Seen, kind_known, size, size_in};
ghost use Rattle.ray_tracing.specs.Reading.{begin, sum_of_counts};
ghost use Rattle.ray_tracing.specs.Meaning.{records_from, drawn_from};
ghost use Rattle.ray_tracing.specs.Canonical.{held_canonical};
ghost use Rattle.sheet_clear.specs.Cleared.{cleared_unless, has_unused, record_cleared, BlasesInside};

use ray_tracing::{BLAS_SIZE, ENTRY_SIZE, GEOMETRY_SIZE, NO_BUFFER, Version, geometry_size};
use sheet_layout::size_of;
use wire::{u8_at, u16_at};

// A section of a sheet of a version, by its number in the sheet's order, and the records of the section before.
#[derive(Clone, Copy)]
pub struct Section<'a> {
    pub version: Version,
    pub number: usize,
    pub before: &'a [u8],
}

fn clear_unless(out: &mut [u8], at: usize, n: usize, used: bool)
    requires { at + n ≤ length out.old }
    ensures { out.new ≡ cleared_unless used out.old at n }
{
    if !used {
        out[at..at + n].fill(0);
    }
}

// A declared geometry whose Blas's kind is known.
fn clear_declared_of(out: &mut [u8], at: usize, boxes: bool)
    requires { at + size 3 ≤ length out.old }
    ensures { (v : Version) (c : Seen) → (kind_known c (le_at 2 out.old at)).boxes ≡ boxes →
        out.new ≡ sets out.old at (record_cleared v 3 c out.old at) }
{
    let triangles = !boxes;
    let counted = triangles && u8_at(out, at + 13) != 0;
    clear_unless(out, at + 7, 7, triangles);
    clear_unless(out, at + 14, 4, counted);
}

fn clear_declared(out: &mut [u8], at: usize, blases: &[u8])
    requires { (at + size 3 ≤ length out.old) × (le_at 2 out.old at < length blases.now / size 2) }
    ensures { (v : Version) (boxes : Bool) → out.new ≡
        sets out.old at (record_cleared v 3 (begin (size 2) blases.now boxes) out.old at) }
{
    let blas = u16_at(out, at) as usize;
    clear_declared_of(out, at, blases[blas * BLAS_SIZE] == 1);
}

// What may be unused stands after the offset: as many bytes further as that is wider.
fn clear_geometry(version: Version, out: &mut [u8], at: usize, boxes: bool)
    requires { at + size_in version 6 ≤ length out.old }
    ensures { (c : Seen) → c.boxes ≡ boxes →
        out.new ≡ sets out.old at (record_cleared version 6 c out.old at) }
{
    let at = at + (geometry_size(version) - GEOMETRY_SIZE);
    let triangles = !boxes;
    let counted = triangles && u8_at(out, at + 23) != 0;
    let indexed = triangles && u16_at(out, at + 21) != NO_BUFFER;
    let first = indexed && u8_at(out, at + 28) != 0;
    let transformed = triangles && u16_at(out, at + 33) != NO_BUFFER;
    let offset = transformed && u8_at(out, at + 35) != 0;
    clear_unless(out, at + 19, 5, triangles);
    clear_unless(out, at + 24, 4, counted);
    clear_unless(out, at + 28, 1, indexed);
    clear_unless(out, at + 29, 4, first);
    clear_unless(out, at + 33, 2, triangles);
    clear_unless(out, at + 35, 1, transformed);
    clear_unless(out, at + 36, 8, offset);
}

fn clear_slot(out: &mut [u8], at: usize)
    requires { at + size 8 ≤ length out.old }
    ensures { (v : Version) (c : Seen)
        → out.new ≡ sets out.old at (record_cleared v 8 c out.old at) }
{
    let present = u8_at(out, at) != 0;
    clear_unless(out, at + 1, 55, present);
}

fn clear_action(out: &mut [u8], at: usize)
    requires { at + size 9 ≤ length out.old }
    ensures { (v : Version) (c : Seen)
        → out.new ≡ sets out.old at (record_cleared v 9 c out.old at) }
{
    let operand = u8_at(out, at) != 1;
    clear_unless(out, at + 1, 2, operand);
}

// A record of a section that has fields which may be unused; `boxes` is whether the record's kind is boxes.
fn clear_record(section: &Section<'_>, out: &mut [u8], at: usize, boxes: bool)
    requires { ((section.now.number < 10) × (has_unused section.now.number ≡ true))
        × ((at + size_in section.now.version section.now.number ≤ length out.old)
        × BlasesInside section.now.number section.now.before.now out.old at 1) }
    ensures { out.new ≡
        sets out.old at
        (record_cleared section.now.version section.now.number
        (begin (size_in section.now.version (section.now.number - 1)) section.now.before.now boxes) out.old at) }
{
    match section.number {
        3 => clear_declared(out, at, section.before),
        6 => clear_geometry(section.version, out, at, boxes),
        8 => clear_slot(out, at),
        _ => clear_action(out, at),
    }
}

// n records, from a place on.
pub fn clear_records(section: &Section<'_>, out: &mut [u8], at: usize, n: usize, boxes: bool)
    requires { ((section.now.number < 10) × (has_unused section.now.number ≡ true))
        × ((at + n * size_in section.now.version section.now.number ≤ length out.old)
        × BlasesInside section.now.number section.now.before.now out.old at n) }
    ensures { out.new ≡
        sets out.old at
        (flatten
        (map (held_canonical section.now.version section.now.number)
        (records_from
        (begin (size_in section.now.version (section.now.number - 1)) section.now.before.now boxes)
        (size_in section.now.version section.now.number)
        (drop at out.old)
        n))) }
{
    let size = size_of(section.version, section.number);
    let mut p = at;
    for _ in 0..n {
        clear_record(section, out, p, boxes);
        p += size;
    }
}

// The geometries that the entries draw in turn, each by its entry's kind.
pub fn clear_drawn(version: Version, out: &mut [u8], at: usize, entries: &[u8])
    requires { at + sum_of_counts entries.now (size 5) 3 (length entries.now / size 5) * size_in version 6 ≤ length out.old }
    ensures { out.new ≡
        sets out.old at
        (flatten
        (map (held_canonical version 6)
        (drawn_from version entries.now 0 (drop at out.old) (length entries.now / size 5)))) }
{
    let section = Section {
        version,
        number: 6,
        before: entries,
    };
    let size = size_of(version, 6);
    let mut p = at;
    let mut q = 0;
    for _ in 0..entries.len() / ENTRY_SIZE {
        let boxes = u8_at(entries, q + 2) == 1;
        let n = u16_at(entries, q + 3) as usize;
        clear_records(&section, out, p, n, boxes);
        p += n * size;
        q += ENTRY_SIZE;
    }
}
