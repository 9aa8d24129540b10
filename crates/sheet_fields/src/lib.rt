// Records judged field by field, by a table of fields for each section.
#![tactic(auto)]

ghost use Rattle.std.specs.Prelude.{◌≡◌, IsTrue, Bool, ℕ, List, ◌+◌, ◌≤◌, ◌<◌, length, map};
ghost use Rattle.wire.specs.Wire.{le_at};
ghost use Rattle.ray_tracing.specs.declared.Version.{Version};
ghost use Rattle.ray_tracing.specs.Layout.{layout_in, size_in};
ghost use Rattle.ray_tracing.specs.Reading.{fine, begin, judge_fields, judge_records};
ghost use Rattle.ray_tracing.specs.Code.{judged_of};
ghost use Rattle.sheet_fields.specs.Table.{seen, view, view_of, judge_views, bytes_of, contain, fits_of};

use Rule::{Always, Any, Blas, OrNone, Triangles, WithBuffer};
use Values::{NotNone, OneTo, Positive, UpTo, ZeroOr};
use Width::{Offset, U8, U16, U32, U64};
use ray_tracing::{NO_BUFFER, SheetError, SheetRefusal, Version};
use sheet_fits::record_fits;
use sheet_layout::{Before, size_of};
use wire::{u8_at, u16_at, u32_at, u64_at};

// How wide a field is; the geometries' offset as the version has it.
#[derive(Clone, Copy)]
enum Width {
    U8,
    U16,
    U32,
    U64,
    Offset,
}

// The values that a field may have.
#[derive(Clone, Copy)]
enum Values {
    UpTo(u8),
    ZeroOr(u8),
    OneTo(u8),
    Positive,
    NotNone,
}

// What is judged of a field: its values always, of triangles, or of triangles with the buffer before it; that it is a Blas of
// section 2, whose kind goes for the record. An id that may be none is any. No field behind a present byte is judged.
#[derive(Clone, Copy)]
enum Rule {
    Any,
    Always(Values),
    Triangles(Values),
    WithBuffer(Values),
    Blas,
    OrNone,
}

#[derive(Clone, Copy)]
struct Field(Width, Rule);

// After the version.
const HEADER: [Field; 2] = [
    Field(U32, Always(Positive)), // scratch alignment
    Field(U64, Any), // counter
];

const BUFFERS: [Field; 2] = [
    Field(U64, Any), // size
    Field(U8, Always(UpTo(3))), // marks
];

const BLASES: [Field; 7] = [
    Field(U8, Always(UpTo(1))), // kind
    Field(U8, Always(UpTo(7))), // flags
    Field(U8, Always(UpTo(3))), // state
    Field(U8, Always(UpTo(1))), // destroyed
    Field(U64, Any), // scratch
    Field(U64, Any), // address
    Field(U64, Any), // number
];

const DECLARED: [Field; 9] = [
    Field(U16, Blas),
    Field(U8, Any), // flags
    Field(U32, Any), // vertex or box count
    Field(U8, Any), // vertex format
    Field(U16, Any), // least stride
    Field(U16, Triangles(Positive)), // stride alignment
    Field(U8, Triangles(UpTo(2))), // declared index format
    Field(U8, Triangles(UpTo(1))), // present
    Field(U32, Any), // index count
];

const TLASES: [Field; 5] = [
    Field(U8, Always(ZeroOr(2))), // flags
    Field(U8, Always(UpTo(1))), // destroyed
    Field(U64, Any), // scratch
    Field(U32, Any), // most instances
    Field(U64, Any), // number
];

const ENTRIES: [Field; 3] = [
    Field(U16, Any), // Blas
    Field(U8, Always(UpTo(1))), // kind
    Field(U16, Any), // geometry count
];

const GEOMETRIES: [Field; 15] = [
    Field(U8, Any), // flags
    Field(U32, Any), // count
    Field(Offset, Any), // first vertex or primitive offset
    Field(U64, Any), // stride
    Field(U16, Always(NotNone)), // buffer
    Field(U8, Any), // vertex format
    Field(U8, Triangles(UpTo(2))), // index format
    Field(U16, OrNone), // index buffer
    Field(U8, Triangles(UpTo(1))), // present
    Field(U32, Any), // index count
    Field(U8, WithBuffer(UpTo(1))), // present
    Field(U32, Any), // first index
    Field(U16, OrNone), // transform buffer
    Field(U8, WithBuffer(UpTo(1))), // present
    Field(U64, Any), // transform offset
];

const PACKAGES: [Field; 2] = [
    Field(U16, Any), // Tlas
    Field(U16, Any), // slot count
];

const SLOTS: [Field; 16] = [
    Field(U8, Always(UpTo(1))), // present
    Field(U16, Any), // Blas
    Field(U32, Any), // custom data
    Field(U8, Any), // mask
    Field(U32, Any), // transform
    Field(U32, Any),
    Field(U32, Any),
    Field(U32, Any),
    Field(U32, Any),
    Field(U32, Any),
    Field(U32, Any),
    Field(U32, Any),
    Field(U32, Any),
    Field(U32, Any),
    Field(U32, Any),
    Field(U32, Any),
];

const ACTIONS: [Field; 2] = [
    Field(U8, Always(OneTo(4))), // kind
    Field(U16, Any), // operand
];

// The fields of a section; the header stands as section 0.
fn fields_of(section: usize) -> &'static [Field]
    requires { section < 10 }
    ensures { (v : Version) → map (view_of v) result.now ≡ map view (layout_in v section).fields }
{
    match section {
        0 => &HEADER,
        1 => &BUFFERS,
        2 => &BLASES,
        3 => &DECLARED,
        4 => &TLASES,
        5 => &ENTRIES,
        6 => &GEOMETRIES,
        7 => &PACKAGES,
        8 => &SLOTS,
        _ => &ACTIONS,
    }
}

impl Width {
    fn bytes(self, version: Version) -> usize
        ensures { result ≡ bytes_of version self }
    {
        match (self, version) {
            (U8, _) => 1,
            (U16, _) => 2,
            (U32, _) | (Offset, Version::One) => 4,
            (U64, _) | (Offset, Version::Two) => 8,
        }
    }
}

impl Values {
    fn contain(self, v: u64) -> bool
        ensures { result ≡ contain self v }
    {
        match self {
            UpTo(n) => v <= u64::from(n),
            ZeroOr(n) => v == 0 || v == u64::from(n),
            OneTo(n) => 0 < v && v <= u64::from(n),
            Positive => 0 < v,
            NotNone => v != u64::from(NO_BUFFER),
        }
    }
}

impl Rule {
    fn fits(self, before: &Before<'_>, boxes: bool, none: bool, v: u64) -> bool
        ensures { result ≡ fits_of self (seen before.now.records.now before.now.each boxes none) v }
    {
        match self {
            Any | OrNone => true,
            Always(values) => values.contain(v),
            Triangles(values) => boxes || values.contain(v),
            WithBuffer(values) => boxes || none || values.contain(v),
            Blas => (v as usize) < before.count,
        }
    }
}

fn number_at(s: &[u8], at: usize, width: Width, version: Version) -> u64
    requires { at + bytes_of version width ≤ length s.now }
    ensures { result ≡ le_at (bytes_of version width) s.now at }
{
    match (width, version) {
        (U8, _) => u64::from(u8_at(s, at)),
        (U16, _) => u64::from(u16_at(s, at)),
        (U32, _) | (Offset, Version::One) => u64::from(u32_at(s, at)),
        (U64, _) | (Offset, Version::Two) => u64_at(s, at),
    }
}

// A record's fields, from a place on. `boxes` is whether the record's kind is boxes.
fn judge_fields(
    version: Version,
    s: &[u8],
    at: usize,
    fields: &[Field],
    before: &Before<'_>,
    boxes: bool,
) -> Result<(), SheetRefusal>
    requires { at ≤ length s.now }
    ensures { judged_of result
        ≡ judge_views (begin before.now.each before.now.records.now boxes) s.now at (map (view_of version) fields.now) }
{
    let mut p = at;
    let mut boxes = boxes;
    let mut none = false;
    for field in fields {
        let here = p;
        let bytes = field.0.bytes(version);
        if s.len() - here < bytes {
            return Err(SheetRefusal {
                error: SheetError::Truncated,
                place: p,
            });
        }
        p += bytes;
        let v = number_at(s, here, field.0, version);
        if !field.1.fits(before, boxes, none, v) {
            return Err(SheetRefusal {
                error: SheetError::InvalidValue,
                place: here,
            });
        }
        match field.1 {
            Blas => boxes = before.records[v as usize * before.each] == 1,
            OrNone => none = v == u64::from(NO_BUFFER),
            _ => {}
        }
    }
    Ok(())
}

// Whether a record of `size` bytes is whole and its values fit, as of nearly every one.
fn whole_fits(
    version: Version,
    s: &[u8],
    at: usize,
    section: usize,
    size: usize,
    before: &Before<'_>,
    boxes: bool,
) -> bool
    requires { ((at ≤ length s.now) × (section < 10)) × (size ≡ size_in version section) }
    ensures { IsTrue result
        → judge_fields (begin before.now.each before.now.records.now boxes) s.now at (layout_in version section).fields ≡ fine }
{
    size <= s.len() - at && record_fits(version, s, at, section, before, boxes)
}

// Any other record. A call of its own, so that the loop over records keeps its numbers in registers.
#[cold]
#[inline(never)]
fn judge_record(
    version: Version,
    s: &[u8],
    at: usize,
    section: usize,
    before: &Before<'_>,
    boxes: bool,
) -> Result<(), SheetRefusal>
    requires { (at ≤ length s.now) × (section < 10) }
    ensures { judged_of result
        ≡ judge_fields (begin before.now.each before.now.records.now boxes) s.now at (layout_in version section).fields }
{
    judge_fields(version, s, at, fields_of(section), before, boxes)
}

// n records of a section, from a place on.
pub fn judge_records(
    version: Version,
    s: &[u8],
    at: usize,
    n: usize,
    section: usize,
    before: &[u8],
    each: usize,
    boxes: bool,
) -> Result<(), SheetRefusal>
    requires { (at ≤ length s.now) × (section < 10) }
    ensures { judged_of result ≡ judge_records (begin each before.now boxes) (layout_in version section).fields s.now at n }
{
    let size = size_of(version, section);
    let records = Before::new(before, each);
    let mut p = at;
    for _ in 0..n {
        if !whole_fits(version, s, p, section, size, &records, boxes) {
            judge_record(version, s, p, section, &records, boxes)?;
        }
        p += size;
    }
    Ok(())
}
