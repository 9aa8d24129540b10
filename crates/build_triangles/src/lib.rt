// The checks of a geometry of triangles, in wgpu-core's order: against what its Blas declares, then the buffers that it names.
#![tactic(auto, unfolding(ray_tracing::specs::Guard::refuse))]

ghost use Rattle.std.specs.Prelude.{◌≡◌};
ghost use Rattle.ray_tracing.specs.Checks.{◌then◌};
ghost use Rattle.ray_tracing.specs.Code.{checked_of, buffer_given, declared_given};
ghost use Rattle.ray_tracing.specs.Triangles.{descriptor_rule, index_sizes_rule, vertices_rule, triangles_rule};
ghost use Rattle.ray_tracing.specs.Triangles.{is_lent, index_part, transform_part};
ghost use Rattle.build_triangles.specs.Parts.{sizes_of};

use build_buffers::check_buffers;
use ray_tracing::{
    Blas, BlasGeometry, BlasGeometrySizeDescriptor, Buffer,
    BuildAccelerationStructureError as Error, GeometryRanges,
};

// 12 to 16.
fn check_descriptor(d: BlasGeometrySizeDescriptor, g: BlasGeometry) -> Result<(), Error>
    ensures { sizes_of result ≡ descriptor_rule d g }
{
    let least = u64::from(d.min_vertex_stride);
    let alignment = u64::from(d.stride_alignment);
    if d.flags != g.flags {
        return Err(Error::IncompatibleBlasFlags(d.flags, g.flags));
    }
    if d.count < g.count {
        return Err(Error::IncompatibleBlasVertexCount(d.count, g.count));
    }
    if d.vertex_format != g.vertex_format {
        return Err(Error::DifferentBlasVertexFormats(d.vertex_format, g.vertex_format));
    }
    if g.stride < least {
        return Err(Error::VertexStrideTooSmall(least, g.stride));
    }
    // Of alignment 0 only 0 is a multiple.
    if !g.stride.is_multiple_of(alignment) {
        return Err(Error::VertexStrideUnaligned(alignment, g.stride));
    }
    Ok(())
}

// 17 to 20.
fn check_index_sizes(
    d: BlasGeometrySizeDescriptor,
    g: BlasGeometry,
    has_buffer: bool,
) -> Result<(), Error>
    ensures { sizes_of result ≡ index_sizes_rule d g has_buffer }
{
    let declared = d.index_count_present != 0;
    if d.index_count_present != g.index_count_present {
        return Err(Error::BlasIndexCountProvidedMismatch);
    }
    if declared && d.index_count < g.index_count {
        return Err(Error::IncompatibleBlasIndexCount(d.index_count, g.index_count));
    }
    if d.index_format != g.index_format {
        return Err(Error::DifferentBlasIndexFormats(d.index_format, g.index_format));
    }
    if declared && !has_buffer {
        return Err(Error::MissingIndexBuffer);
    }
    Ok(())
}

// 12 on, against what is declared.
fn check_given(
    flags: u8,
    d: BlasGeometrySizeDescriptor,
    g: BlasGeometry,
    vertices: Buffer,
    index: Option<Buffer>,
    transform: Option<Buffer>,
) -> Result<GeometryRanges, Error>
    ensures { checked_of result
        ≡ (descriptor_rule d g
        then index_sizes_rule d g (is_lent (buffer_given index))
        then vertices_rule g vertices
        then index_part g (buffer_given index)
        then transform_part flags g (buffer_given transform)) }
{
    check_descriptor(d, g)?;
    check_index_sizes(d, g, index.is_some())?;
    check_buffers(flags, g, vertices, index, transform)
}

// 10, 11, and then what the declared sizes rule.
pub fn check_triangles(
    blas: Blas,
    declared: Option<BlasGeometrySizeDescriptor>,
    g: BlasGeometry,
    vertices: Buffer,
    index: Option<Buffer>,
    transform: Option<Buffer>,
) -> Result<GeometryRanges, Error>
    ensures { checked_of result
        ≡ triangles_rule blas (declared_given declared) g vertices (buffer_given index) (buffer_given transform) }
{
    if blas.kind != 0 {
        return Err(Error::BlasGeometryKindMismatch);
    }
    let Some(d) = declared else {
        return Err(Error::IncompatibleBlasBuildSizes);
    };
    check_given(blas.flags, d, g, vertices, index, transform)
}
