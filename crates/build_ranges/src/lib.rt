// The initialisation ranges that a build's geometries ask for: how many cells they take, and the cells.
#![tactic(auto)]

ghost use Rattle.std.specs.Prelude.{◌≡◌, cond, eqb, ◌+◌, ◌*◌, ◌≤◌, length};
ghost use Rattle.std.proofs.lemmas.List.Edits.{sets};
ghost use Rattle.ray_tracing.specs.Code.{asked_of, range_of};
ghost use Rattle.build_ranges.specs.Ranges.{data_range, index_range, transform_range, geometry_ranges, entry_ranges, ranges_in};
ghost use Rattle.build_ranges.specs.Ranges.{RangesFit, AllFit, geometries_in, DrawnFit};

use ray_tracing::{BlasGeometry, BufferId, ENTRY_SIZE, NO_BUFFER, Range, Version};
use records::{TRANSFORM_SIZE, entry_at, geometry_of, index_width};

// The cells of a range: buffer, start, end.
const RANGE_CELLS: usize = 3;

// Vertices, or boxes.
fn data_range(kind: u8, g: BlasGeometry) -> Range
    requires { RangesFit kind g }
    ensures { range_of result ≡ data_range kind g }
{
    let buffer = g.buffer;
    let region = u64::from(g.count) * g.stride;
    if kind == 0 {
        let start = g.first * g.stride;
        let end = start + region;
        return Range { buffer, start, end };
    }
    let start = g.first;
    let end = start + region;
    Range { buffer, start, end }
}

fn index_range(kind: u8, g: BlasGeometry) -> Option<Range>
    ensures { asked_of result ≡ index_range kind g }
{
    let buffer = g.index_buffer;
    if kind != 0 || buffer.0 == NO_BUFFER {
        return None;
    }
    let width = index_width(g.index_format);
    let start = u64::from(g.first_index) * width;
    let end = start + u64::from(g.index_count) * width;
    Some(Range { buffer, start, end })
}

fn transform_range(kind: u8, g: BlasGeometry) -> Option<Range>
    requires { RangesFit kind g }
    ensures { asked_of result ≡ transform_range kind g }
{
    let buffer = g.transform_buffer;
    if kind != 0 || buffer.0 == NO_BUFFER {
        return None;
    }
    let start = g.transform_buffer_offset;
    let end = start + TRANSFORM_SIZE;
    Some(Range { buffer, start, end })
}

// Buffer, start, end.
fn put_range(out: &mut [u64], at: usize, range: Range)
    requires { at + 3 ≤ length out.old }
    ensures { out.new ≡ sets out.old at (range_of range) }
{
    out[at] = u64::from(range.buffer.0);
    out[at + 1] = range.start;
    out[at + 2] = range.end;
}

fn put_asked(out: &mut [u64], at: usize, asked: Option<Range>) -> usize
    requires { at + length (asked_of asked) ≤ length out.old }
    ensures value { result ≡ at + length (asked_of asked) }
    ensures out_after { out.new ≡ sets out.old at (asked_of asked) }
{
    match asked {
        None => at,
        Some(range) => {
            put_range(out, at, range);
            at + RANGE_CELLS
        }
    }
}

// The ranges that a geometry asks for, from index at on; the index past them.
fn put_geometry(kind: u8, g: BlasGeometry, out: &mut [u64], at: usize) -> usize
    requires { RangesFit kind g × (at + length (geometry_ranges kind g) ≤ length out.old) }
    ensures value { result ≡ at + length (geometry_ranges kind g) }
    ensures out_after { out.new ≡ sets out.old at (geometry_ranges kind g) }
{
    let data = data_range(kind, g);
    let index = index_range(kind, g);
    let transform = transform_range(kind, g);
    put_range(out, at, data);
    let end = put_asked(out, at + RANGE_CELLS, index);
    put_asked(out, end, transform)
}

fn write_entry_ranges(
    version: Version,
    geometries: &[u8],
    kind: u8,
    first: usize,
    count: usize,
    out: &mut [u64],
    at: usize,
) -> usize
    requires count_bound { (first + count ≤ geometries_in version geometries.now) × AllFit version geometries.now kind first count }
    requires count_in_bounds { at + length (entry_ranges version geometries.now kind first count) ≤ length out.old }
    ensures value { result ≡ at + length (entry_ranges version geometries.now kind first count) }
    ensures out_after { out.new ≡ sets out.old at (entry_ranges version geometries.now kind first count) }
{
    let mut end = at;
    for g in first..first + count {
        let geometry = geometry_of(version, geometries, g);
        end = put_geometry(kind, geometry, out, end);
    }
    end
}

pub fn write_init_ranges(version: Version, entries: &[u8], geometries: &[u8], out: &mut [u64])
    requires drawn_fit { DrawnFit version entries.now geometries.now }
    requires geometries_in_bounds { length (ranges_in version entries.now geometries.now) ≤ length out.old }
    ensures { out.new ≡ sets out.old 0 (ranges_in version entries.now geometries.now) }
{
    let mut at: usize = 0;
    let mut g: usize = 0;
    for i in 0..entries.len() / ENTRY_SIZE {
        let entry = entry_at(entries, i * ENTRY_SIZE);
        let count = usize::from(entry.geometry_count);
        at = write_entry_ranges(version, geometries, entry.kind, g, count, out, at);
        g += count;
    }
}

fn buffer_cells(buffer: BufferId) -> usize
    ensures { (result ≡ cond (eqb buffer.0 65535) 0 3) × (result ≤ 3) }
{
    if buffer.0 == NO_BUFFER {
        0
    } else {
        RANGE_CELLS
    }
}

// How many cells a geometry's ranges take.
fn geometry_cells(kind: u8, g: BlasGeometry) -> usize
    ensures { (result ≡ length (geometry_ranges kind g)) × (result ≤ 9) }
{
    if kind != 0 {
        return RANGE_CELLS;
    }
    RANGE_CELLS + buffer_cells(g.index_buffer) + buffer_cells(g.transform_buffer)
}

fn count_entry_ranges(
    version: Version,
    geometries: &[u8],
    kind: u8,
    first: usize,
    count: usize,
) -> usize
    requires { first + count ≤ geometries_in version geometries.now }
    ensures { (result ≡ length (entry_ranges version geometries.now kind first count)) × (result ≤ 9 * count) }
{
    let mut n: usize = 0;
    for g in first..first + count {
        let geometry = geometry_of(version, geometries, g);
        n += geometry_cells(kind, geometry);
    }
    n
}

pub fn count_ranges(version: Version, entries: &[u8], geometries: &[u8]) -> usize
    requires { DrawnFit version entries.now geometries.now }
    ensures { result ≡ length (ranges_in version entries.now geometries.now) }
{
    let mut n: usize = 0;
    let mut g: usize = 0;
    for i in 0..entries.len() / ENTRY_SIZE {
        let entry = entry_at(entries, i * ENTRY_SIZE);
        let count = usize::from(entry.geometry_count);
        n += count_entry_ranges(version, geometries, entry.kind, g, count);
        g += count;
    }
    n
}
