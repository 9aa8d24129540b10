// The converters: a sheet of one version as one of the other. All is judged before anything is written.
#![tactic(auto)]

ghost use Rattle.std.specs.Prelude.{◌≡◌, ◌+◌, ◌*◌, ◌^◌, ◌≤◌, ◌<◌, length, take, drop, ltb};
ghost use Rattle.std.proofs.lemmas.List.Edits.{sets};
ghost use Rattle.wire.specs.Wire.{le_at, le_bytes};
ghost use Rattle.ray_tracing.specs.declared.Version.TheVariants as version;
ghost use Rattle.ray_tracing.specs.Layout.{offset_width, size_in};
ghost use Rattle.ray_tracing.specs.Reading.{fine};
ghost use Rattle.ray_tracing.specs.Conversion as conversion;
ghost use Rattle.ray_tracing.specs.Conversion.{converted_record, converted_records, converted};
ghost use Rattle.ray_tracing.specs.Conversion.{judge_offsets, converting_of, Converts};
ghost use Rattle.sheet_convert.specs.Judged.{offsets_of, Taken, Fitting};

use ray_tracing::{ConvertSheetError, SheetError, SheetRefusal, Version, geometry_size};
use records::{offset_at, offset_width};
use sheet::read_sheet;
use wire::{put_bytes, put_u8, put_u32, put_u64, u8_at};

// The bytes of a geometry before its offset, and after it.
const OFFSET_PLACE: usize = 5;

const AFTER_OFFSET: usize = 35;

// A sheet of one version that becomes one of another. Its geometries stand at `start`, `count` of them.
#[derive(Clone, Copy)]
struct Conversion<'a> {
    from: Version,
    to: Version,
    sheet: &'a [u8],
    start: usize,
    count: usize,
}

// A sheet becomes one of a version from the other one.
fn other(version: Version) -> Version
    ensures { result ≡ conversion.other version }
{
    match version {
        Version::One => Version::Two,
        Version::Two => Version::One,
    }
}

// Whether an offset fits into a version's field.
fn offset_fits(version: Version, offset: u64) -> bool
    ensures { result ≡ ltb offset (256 ^ offset_width version) }
{
    match version {
        Version::One => u32::try_from(offset).is_ok(),
        Version::Two => true,
    }
}

fn put_offset(version: Version, out: &mut [u8], at: usize, offset: u64)
    requires { (at + offset_width version ≤ length out.old) × (offset < 256 ^ offset_width version) }
    ensures { out.new ≡ sets out.old at (le_bytes (offset_width version) offset) }
{
    match version {
        // Proved to fit.
        Version::One => put_u32(out, at, offset as u32),
        Version::Two => put_u64(out, at, offset),
    }
}

impl Conversion<'_> {
    // Refused at the first of their offsets that does not fit.
    fn judge_offsets(&self) -> Result<(), ConvertSheetError>
        requires { self.now.start + self.now.count * size_in self.now.from 6 ≤ length self.now.sheet.now }
        ensures { offsets_of result
            ≡ judge_offsets self.now.from self.now.to self.now.sheet.now self.now.start self.now.count }
    {
        let size = geometry_size(self.from);
        let mut p = self.start;
        for _ in 0..self.count {
            let place = p + OFFSET_PLACE;
            let offset = offset_at(self.from, self.sheet, place);
            if !offset_fits(self.to, offset) {
                return Err(ConvertSheetError::OffsetTooFar(place));
            }
            p += size;
        }
        Ok(())
    }

    // The geometry at p, converted, from q on.
    fn convert_record(&self, p: usize, out: &mut [u8], q: usize)
        requires from_in_bounds { (p + size_in self.now.from 6 ≤ length self.now.sheet.now)
            × (q + size_in self.now.to 6 ≤ length out.old) }
        requires p_bound { le_at (offset_width self.now.from) self.now.sheet.now (p + 5) < 256 ^ offset_width self.now.to }
        ensures { out.new ≡ sets out.old q
            (converted_record self.now.from self.now.to (take (size_in self.now.from 6) (drop p self.now.sheet.now))) }
    {
        let place = p + OFFSET_PLACE;
        let past = place + offset_width(self.from);
        let offset = offset_at(self.from, self.sheet, place);
        put_bytes(out, q, &self.sheet[p..place]);
        put_offset(self.to, out, q + OFFSET_PLACE, offset);
        put_bytes(
            out,
            q + OFFSET_PLACE + offset_width(self.to),
            &self.sheet[past..past + AFTER_OFFSET],
        );
    }

    // All of them, from `start` on there too.
    fn convert_records(&self, out: &mut [u8])
        requires from_in_bounds { (self.now.start + self.now.count * size_in self.now.from 6 ≤ length self.now.sheet.now)
            × (self.now.start + self.now.count * size_in self.now.to 6 ≤ length out.old) }
        requires fits { judge_offsets self.now.from self.now.to self.now.sheet.now self.now.start self.now.count ≡ fine }
        ensures { out.new ≡ sets out.old self.now.start
            (converted_records self.now.from self.now.to (drop self.now.start self.now.sheet.now) self.now.count) }
    {
        let size = geometry_size(self.from);
        let wanted = geometry_size(self.to);
        let mut p = self.start;
        let mut q = self.start;
        for _ in 0..self.count {
            self.convert_record(p, out, q);
            p += size;
            q += wanted;
        }
    }

    // The whole sheet, into bytes that it fits.
    fn write_converted(&self, out: &mut [u8])
        requires { Fitting self.now.from self.now.to self.now.sheet.now self.now.start self.now.count (length out.old) }
        ensures { out.new ≡ sets out.old 0 (converted self.now.to self.now.sheet.now) }
    {
        let end = self.start + self.count * geometry_size(self.from);
        put_u8(out, 0, u8::from(self.to));
        put_bytes(out, 1, &self.sheet[1..self.start]);
        self.convert_records(out);
        put_bytes(
            out,
            self.start + self.count * geometry_size(self.to),
            &self.sheet[end..],
        );
    }

    // A sheet that is read, and whose version is the one to convert from.
    fn convert_accepted(&self, out: &mut [u8]) -> Result<usize, ConvertSheetError>
        requires { Taken self.now.from self.now.to self.now.sheet.now self.now.start self.now.count }
        ensures { Converts self.now.to self.now.sheet.now out.old (converting_of result) out.new }
    {
        self.judge_offsets()?;
        let written = self.sheet.len() - self.count * geometry_size(self.from)
            + self.count * geometry_size(self.to);
        if out.len() < written {
            return Err(ConvertSheetError::OutputTooShort);
        }
        self.write_converted(out);
        Ok(written)
    }
}

fn convert(to: Version, sheet: &[u8], out: &mut [u8]) -> Result<usize, ConvertSheetError>
    ensures { Converts to sheet.now out.old (converting_of result) out.new }
{
    let from = other(to);
    if sheet.is_empty() {
        return Err(ConvertSheetError::Malformed(SheetRefusal {
            error: SheetError::Truncated,
            place: 0,
        }));
    }
    if u8_at(sheet, 0) != u8::from(from) {
        return Err(ConvertSheetError::Malformed(SheetRefusal {
            error: SheetError::UnknownVersion,
            place: 0,
        }));
    }
    let geometries = read_sheet(sheet)?.geometries;
    let conversion = Conversion {
        from,
        to,
        sheet,
        start: geometries.start,
        count: geometries.count,
    };
    conversion.convert_accepted(out)
}

pub fn to_version_2(sheet: &[u8], out: &mut [u8]) -> Result<usize, ConvertSheetError>
    ensures { Converts version.Two sheet.now out.old (converting_of result) out.new }
{
    convert(Version::Two, sheet, out)
}

pub fn to_version_1(sheet: &[u8], out: &mut [u8]) -> Result<usize, ConvertSheetError>
    ensures { Converts version.One sheet.now out.old (converting_of result) out.new }
{
    convert(Version::One, sheet, out)
}
