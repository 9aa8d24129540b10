// A record of a lent table by value, a mention of one, and what an entry or a package names and draws: what the definitions in
// ray_tracing/specs/Records.antt and Mentions.antt say.
#![tactic(auto)]

ghost use Rattle.std.specs.Prelude.{◌≡◌, ◌+◌, ◌*◌, ◌/◌, ◌≤◌, ◌<◌, length};
ghost use Rattle.wire.specs.Wire.{le_at};
ghost use Rattle.ray_tracing.specs.Layout.{offset_width, size, size_in};
ghost use Rattle.ray_tracing.specs.Records.{buffer_at, blas_at, declared_at, tlas_at, entry_at, geometry_at, package_at};
ghost use Rattle.ray_tracing.specs.Mentions.{mention, buffer_mention, blas_mention, tlas_mention, blas_of, tlas_of};
ghost use Rattle.ray_tracing.specs.Triangles.{index_width};
ghost use Rattle.ray_tracing.specs.Code.{mention_of};

use ray_tracing::{
    BLAS_SIZE, BUFFER_SIZE, Blas, BlasBuildEntry, BlasGeometry, BlasGeometrySizeDescriptor, BlasId,
    Buffer, BufferId, ENTRY_SIZE, OutsideTable, PACKAGE_SIZE, TLAS_SIZE, Tlas, TlasId, TlasPackage,
    Version, geometry_size,
};
use wire::{u8_at, u16_at, u32_at, u64_at};

// Where a Blas's handle stands.
const HANDLE: usize = 12;

// The bytes of a geometry's transform.
pub const TRANSFORM_SIZE: u64 = 48;

// Whether the record of an id stands in its table; part of one at the table's end is none.
fn mention(table: &[u8], size: usize, id: u16) -> Result<(), OutsideTable>
    requires { 0 < size }
    ensures { mention_of result ≡ mention size table.now id }
{
    if table.len() / size <= id as usize {
        return Err(OutsideTable);
    }
    Ok(())
}

pub fn buffer_mention(table: &[u8], id: BufferId) -> Result<(), OutsideTable>
    ensures { mention_of result ≡ buffer_mention table.now id.0 }
{
    mention(table, BUFFER_SIZE, id.0)
}

pub fn blas_mention(table: &[u8], id: BlasId) -> Result<(), OutsideTable>
    ensures { mention_of result ≡ blas_mention table.now id.0 }
{
    mention(table, BLAS_SIZE, id.0)
}

pub fn tlas_mention(table: &[u8], id: TlasId) -> Result<(), OutsideTable>
    ensures { mention_of result ≡ tlas_mention table.now id.0 }
{
    mention(table, TLAS_SIZE, id.0)
}

// The record at a byte place of a table: its size is the caller's, its fields' offsets the layout's.
pub fn buffer_at(table: &[u8], at: usize) -> Buffer
    requires { at + size 1 ≤ length table.now }
    ensures { result ≡ buffer_at table.now at }
{
    let size = u64_at(table, at);
    let marks = u8_at(table, at + 8);
    Buffer {
        size,
        blas_input: marks % 2 == 1,
        destroyed: marks / 2 % 2 == 1,
    }
}

pub fn blas_at(table: &[u8], at: usize) -> Blas
    requires { at + size 2 ≤ length table.now }
    ensures { result ≡ blas_at table.now at }
{
    Blas {
        kind: u8_at(table, at),
        flags: u8_at(table, at + 1),
        compacted_state: u8_at(table, at + 2),
        destroyed: u8_at(table, at + 3),
        build_scratch_size: u64_at(table, at + 4),
        handle: u64_at(table, at + 12),
        built_index: u64_at(table, at + 20),
    }
}

// The address of the Blas at an index.
pub fn handle_of(table: &[u8], k: usize) -> u64
    requires { k < length table.now / size 2 }
    ensures { result ≡ (blas_of table.now k).handle }
{
    u64_at(table, k * BLAS_SIZE + HANDLE)
}

pub fn declared_at(table: &[u8], at: usize) -> BlasGeometrySizeDescriptor
    requires { at + size 3 ≤ length table.now }
    ensures { result ≡ declared_at table.now at }
{
    BlasGeometrySizeDescriptor {
        blas: BlasId(u16_at(table, at)),
        flags: u8_at(table, at + 2),
        count: u32_at(table, at + 3),
        vertex_format: u8_at(table, at + 7),
        min_vertex_stride: u16_at(table, at + 8),
        stride_alignment: u16_at(table, at + 10),
        index_format: u8_at(table, at + 12),
        index_count_present: u8_at(table, at + 13),
        index_count: u32_at(table, at + 14),
    }
}

pub fn tlas_at(table: &[u8], at: usize) -> Tlas
    requires { at + size 4 ≤ length table.now }
    ensures { result ≡ tlas_at table.now at }
{
    Tlas {
        flags: u8_at(table, at),
        destroyed: u8_at(table, at + 1),
        build_scratch_size: u64_at(table, at + 2),
        max_instance_count: u32_at(table, at + 10),
        built_index: u64_at(table, at + 14),
    }
}

pub fn entry_at(table: &[u8], at: usize) -> BlasBuildEntry
    requires { at + size 5 ≤ length table.now }
    ensures { result ≡ entry_at table.now at }
{
    BlasBuildEntry {
        blas: BlasId(u16_at(table, at)),
        kind: u8_at(table, at + 2),
        geometry_count: u16_at(table, at + 3),
    }
}

// The bytes of a geometry's offset.
pub fn offset_width(version: Version) -> usize
    ensures { result ≡ offset_width version }
{
    match version {
        Version::One => 4,
        Version::Two => 8,
    }
}

// A first vertex or primitive offset.
pub fn offset_at(version: Version, table: &[u8], at: usize) -> u64
    requires { at + offset_width version ≤ length table.now }
    ensures { result ≡ le_at (offset_width version) table.now at }
{
    match version {
        Version::One => u64::from(u32_at(table, at)),
        Version::Two => u64_at(table, at),
    }
}

// What follows the offset stands from `past` on.
pub fn geometry_at(version: Version, table: &[u8], at: usize) -> BlasGeometry
    requires { at + size_in version 6 ≤ length table.now }
    ensures { result ≡ geometry_at version table.now at }
{
    let past = at + 5 + offset_width(version);
    BlasGeometry {
        flags: u8_at(table, at),
        count: u32_at(table, at + 1),
        first: offset_at(version, table, at + 5),
        stride: u64_at(table, past),
        buffer: BufferId(u16_at(table, past + 8)),
        vertex_format: u8_at(table, past + 10),
        index_format: u8_at(table, past + 11),
        index_buffer: BufferId(u16_at(table, past + 12)),
        index_count_present: u8_at(table, past + 14),
        index_count: u32_at(table, past + 15),
        first_index_present: u8_at(table, past + 19),
        first_index: u32_at(table, past + 20),
        transform_buffer: BufferId(u16_at(table, past + 24)),
        transform_buffer_offset_present: u8_at(table, past + 26),
        transform_buffer_offset: u64_at(table, past + 27),
    }
}

pub fn package_at(table: &[u8], at: usize) -> TlasPackage
    requires { at + size 7 ≤ length table.now }
    ensures { result ≡ package_at table.now at }
{
    TlasPackage {
        tlas: TlasId(u16_at(table, at)),
        slot_count: u16_at(table, at + 2),
    }
}

// Geometry g.
pub fn geometry_of(version: Version, geometries: &[u8], g: usize) -> BlasGeometry
    requires { g < length geometries.now / size_in version 6 }
    ensures { result ≡ geometry_at version geometries.now (g * size_in version 6) }
{
    geometry_at(version, geometries, g * geometry_size(version))
}

// The Blas of entry i.
pub fn blas_of_entry(blases: &[u8], entries: &[u8], i: usize) -> Blas
    requires size_in_bounds { i * size 5 + size 5 ≤ length entries.now }
    requires size_in_bounds_2 { (entry_at entries.now (i * size 5)).blas.0 < length blases.now / size 2 }
    ensures { result ≡ blas_of blases.now (entry_at entries.now (i * size 5)).blas.0 }
{
    let id = entry_at(entries, i * ENTRY_SIZE).blas;
    blas_at(blases, usize::from(id.0) * BLAS_SIZE)
}

// The Tlas of package p.
pub fn tlas_of_package(tlases: &[u8], packages: &[u8], p: usize) -> Tlas
    requires size_in_bounds { p * size 7 + size 7 ≤ length packages.now }
    requires size_in_bounds_2 { (package_at packages.now (p * size 7)).tlas.0 < length tlases.now / size 4 }
    ensures { result ≡ tlas_of tlases.now (package_at packages.now (p * size 7)).tlas.0 }
{
    let id = package_at(packages, p * PACKAGE_SIZE).tlas;
    tlas_at(tlases, usize::from(id.0) * TLAS_SIZE)
}

// How many geometries entry i draws.
pub fn geometry_count(entries: &[u8], i: usize) -> usize
    requires { i * size 5 + size 5 ≤ length entries.now }
    ensures { result ≡ (entry_at entries.now (i * size 5)).geometry_count }
{
    usize::from(entry_at(entries, i * ENTRY_SIZE).geometry_count)
}

// How many slots package p draws.
pub fn slot_count(packages: &[u8], p: usize) -> usize
    requires { p * size 7 + size 7 ≤ length packages.now }
    ensures { result ≡ (package_at packages.now (p * size 7)).slot_count }
{
    usize::from(package_at(packages, p * PACKAGE_SIZE).slot_count)
}

// A two-byte index, or one of four.
pub fn index_width(format: u8) -> u64
    ensures { (result ≡ index_width format) × (result ≤ 4) }
{
    if format == 1 { 2 } else { 4 }
}
