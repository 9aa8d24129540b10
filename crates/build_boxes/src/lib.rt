// The checks of a geometry of boxes, in wgpu-core's order: against what its Blas declares, then the buffer that it names.
#![tactic(auto, unfolding(ray_tracing::specs::Guard::refuse))]

ghost use Rattle.std.specs.Prelude.{◌≡◌, ◌+◌, ltb};
ghost use Rattle.ray_tracing.specs.Code.{checked_of, declared_given};
ghost use Rattle.ray_tracing.specs.Boxes.{region_rule, given_rule, boxes_rule};

use ray_tracing::{
    Blas, BlasGeometry, BlasGeometrySizeDescriptor, Buffer,
    BuildAccelerationStructureError as Error, GeometryRanges, Range, Resource,
};

const LIMIT: u64 = 4294967295;

// The bytes of a box.
const BOX_SIZE: u64 = 24;

// Whether a region ends past a size: start plus region may pass 2^64 - 1.
fn ends_past(start: u64, region: u64, size: u64) -> bool
    ensures { result ≡ ltb size (start + region) }
{
    match start.checked_add(region) {
        Some(end) => size < end,
        None => true,
    }
}

// 21, 22, 26, 23.
fn check_region(g: BlasGeometry, boxes: Buffer) -> Result<GeometryRanges, Error>
    ensures { checked_of result ≡ region_rule g boxes }
{
    let buffer = g.buffer;
    if boxes.destroyed {
        return Err(Error::DestroyedResource(Resource::Buffer(buffer)));
    }
    if !boxes.blas_input {
        return Err(Error::MissingBufferUsage(buffer));
    }
    let start = g.first;
    let count = u64::from(g.count);
    if LIMIT < g.stride || LIMIT < count * g.stride {
        return Err(Error::OffsetLimitedTo4GB {
            offset: count.saturating_mul(g.stride),
            count,
            stride: g.stride,
        });
    }
    let region = count * g.stride;
    if ends_past(start, region, boxes.size) {
        return Err(Error::InsufficientBufferSize {
            offset: start,
            region_size: region,
            buffer_size: boxes.size,
        });
    }
    let end = start + region;
    Ok(GeometryRanges {
        primitives: Range { buffer, start, end },
        index: None,
        transform: None,
    })
}

// 12, 31, 32, 33, then the buffer.
fn check_given(
    d: BlasGeometrySizeDescriptor,
    g: BlasGeometry,
    boxes: Buffer,
) -> Result<GeometryRanges, Error>
    ensures { checked_of result ≡ given_rule d g boxes }
{
    if d.flags != g.flags {
        return Err(Error::IncompatibleBlasFlags(d.flags, g.flags));
    }
    if d.count < g.count {
        return Err(Error::IncompatibleBlasAabbPrimitiveCount(d.count, g.count));
    }
    if g.first % 8 != 0 {
        return Err(Error::UnalignedAabbPrimitiveOffset);
    }
    if g.stride < BOX_SIZE || g.stride % 8 != 0 {
        return Err(Error::InvalidAabbStride(g.stride));
    }
    check_region(g, boxes)
}

// 10, 11, and then what the declared sizes rule.
pub fn check_aabbs(
    blas: Blas,
    declared: Option<BlasGeometrySizeDescriptor>,
    g: BlasGeometry,
    boxes: Buffer,
) -> Result<GeometryRanges, Error>
    ensures { checked_of result ≡ boxes_rule blas (declared_given declared) g boxes }
{
    if blas.kind != 1 {
        return Err(Error::BlasGeometryKindMismatch);
    }
    let Some(d) = declared else {
        return Err(Error::IncompatibleBlasBuildSizes);
    };
    check_given(d, g, boxes)
}
