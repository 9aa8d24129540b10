// The checks of the buffers that a geometry of triangles names, in wgpu-core's order.
#![tactic(auto, unfolding(ray_tracing::specs::Guard::refuse))]

ghost use Rattle.std.specs.Prelude.{◌≡◌, ◌+◌, ◌*◌, ltb};
ghost use Rattle.ray_tracing.specs.Checks.{Checked, ◌then◌, usable_buffer};
ghost use Rattle.ray_tracing.specs.Code.{checked_of, buffer_given};
ghost use Rattle.ray_tracing.specs.Triangles.{vertices_rule, index_region_rule, indices_rule, transform_rule};
ghost use Rattle.ray_tracing.specs.Triangles.{index_width, index_part, transform_part};
ghost use Rattle.build_buffers.specs.Parts.{usable_then, vertices_of, index_part_of, transform_part_of};

use ray_tracing::{
    BlasGeometry, Buffer, BufferId, BuildAccelerationStructureError as Error, GeometryRanges,
    Range, Resource,
};
use records::{TRANSFORM_SIZE, index_width};
use scratch::product_above;

const LIMIT: u64 = 4294967295;

// What a transform's offset is a multiple of.
const TRANSFORM_ALIGNMENT: u64 = 16;

// Whether first plus count, times stride, is above a size. Where the sum passes 2^64 - 1 it is above any, unless the stride is 0.
fn vertices_above(first: u64, count: u64, stride: u64, size: u64) -> bool
    ensures { result ≡ ltb size ((first + count) * stride) }
{
    if stride == 0 {
        return false;
    }
    match first.checked_add(count) {
        Some(end) => product_above(end, stride, size),
        None => true,
    }
}

// 21, 22.
fn check_usable(id: BufferId, buffer: Buffer) -> Result<(), Error>
    ensures { (rest : Checked) → usable_then result rest ≡ usable_buffer id.0 buffer rest }
{
    if buffer.destroyed {
        return Err(Error::DestroyedResource(Resource::Buffer(id)));
    }
    if !buffer.blas_input {
        return Err(Error::MissingBufferUsage(id));
    }
    Ok(())
}

// The vertices: 21, 22, 23.
fn check_vertices(g: BlasGeometry, vertices: Buffer) -> Result<Range, Error>
    ensures { vertices_of result ≡ vertices_rule g vertices }
{
    let buffer = g.buffer;
    check_usable(buffer, vertices)?;
    let count = u64::from(g.count);
    if vertices_above(g.first, count, g.stride, vertices.size) {
        return Err(Error::InsufficientBufferSize {
            offset: g.first.saturating_mul(g.stride),
            region_size: count.saturating_mul(g.stride),
            buffer_size: vertices.size,
        });
    }
    let start = g.first * g.stride;
    let end = start + count * g.stride;
    Ok(Range { buffer, start, end })
}

// The indices: 24, 21, 22, 25, then their region.
fn check_indices(g: BlasGeometry, index: Buffer) -> Result<Option<Range>, Error>
    ensures { index_part_of result ≡ indices_rule g (index_width g.index_format) index }
{
    if g.first_index_present == 0 || g.index_count_present == 0 {
        return Err(Error::MissingAssociatedData);
    }
    check_usable(g.index_buffer, index)?;
    if g.index_format == 0 {
        return Err(Error::MissingIndexFormat);
    }
    check_index_region(g, index)
}

// 26, 26, 27, 23.
fn check_index_region(g: BlasGeometry, index: Buffer) -> Result<Option<Range>, Error>
    ensures { index_part_of result ≡ index_region_rule g (index_width g.index_format) index }
{
    let width = index_width(g.index_format);
    let start = u64::from(g.first_index) * width;
    let region = u64::from(g.index_count) * width;
    let buffer = g.index_buffer;
    if LIMIT < start {
        return Err(Error::OffsetLimitedTo4GB {
            offset: start,
            count: u64::from(g.first_index),
            stride: width,
        });
    }
    if LIMIT < region {
        return Err(Error::OffsetLimitedTo4GB {
            offset: region,
            count: u64::from(g.index_count),
            stride: width,
        });
    }
    if g.index_count % 3 != 0 {
        return Err(Error::InvalidIndexCount(g.index_count));
    }
    let end = start + region;
    if index.size < end {
        return Err(Error::InsufficientBufferSize {
            offset: start,
            region_size: region,
            buffer_size: index.size,
        });
    }
    Ok(Some(Range { buffer, start, end }))
}

// The transform: 28, 24, 21, 22, 26, 29, 23.
fn check_transform(flags: u8, g: BlasGeometry, transform: Buffer) -> Result<Option<Range>, Error>
    ensures { transform_part_of result ≡ transform_rule flags g transform }
{
    let buffer = g.transform_buffer;
    let offset = g.transform_buffer_offset;
    if flags % 2 == 0 {
        return Err(Error::UseTransformMissing);
    }
    if g.transform_buffer_offset_present == 0 {
        return Err(Error::MissingAssociatedData);
    }
    check_usable(buffer, transform)?;
    if LIMIT < offset {
        return Err(Error::OffsetLimitedTo4GB {
            offset,
            count: offset,
            stride: 1,
        });
    }
    if offset % TRANSFORM_ALIGNMENT != 0 {
        return Err(Error::UnalignedTransformBufferOffset);
    }
    let end = offset + TRANSFORM_SIZE;
    if transform.size < end {
        return Err(Error::InsufficientBufferSize {
            offset,
            region_size: TRANSFORM_SIZE,
            buffer_size: transform.size,
        });
    }
    let start = offset;
    Ok(Some(Range { buffer, start, end }))
}

// With an index buffer, its checks.
fn index_part(g: BlasGeometry, index: Option<Buffer>) -> Result<Option<Range>, Error>
    ensures { index_part_of result ≡ index_part g (buffer_given index) }
{
    match index {
        None => Ok(None),
        Some(b) => check_indices(g, b),
    }
}

// With a transform buffer, its checks; without, 30.
fn transform_part(
    flags: u8,
    g: BlasGeometry,
    transform: Option<Buffer>,
) -> Result<Option<Range>, Error>
    ensures { transform_part_of result ≡ transform_part flags g (buffer_given transform) }
{
    match transform {
        None if flags % 2 != 0 => Err(Error::TransformMissing),
        None => Ok(None),
        Some(b) => check_transform(flags, g, b),
    }
}

// The first refusal of the three buffers in their order, or their ranges.
pub fn check_buffers(
    flags: u8,
    g: BlasGeometry,
    vertices: Buffer,
    index: Option<Buffer>,
    transform: Option<Buffer>,
) -> Result<GeometryRanges, Error>
    ensures { checked_of result
        ≡ (vertices_rule g vertices then index_part g (buffer_given index) then transform_part flags g (buffer_given transform)) }
{
    Ok(GeometryRanges {
        primitives: check_vertices(g, vertices)?,
        index: index_part(g, index)?,
        transform: transform_part(flags, g, transform)?,
    })
}
