// The paper's number of each cause, with its figures: what the definitions in ray_tracing/specs/Causes.antt say, as code.
#![tactic(auto)]

ghost use Rattle.std.specs.Prelude.{◌≡◌};
ghost use Rattle.ray_tracing.specs.Causes.{sheet_number, instances_number, sorted, cause, running_total, build_cause, submission_cause};
ghost use Rattle.causes.specs.Figures.{cause_of, plainly};

use ray_tracing::{
    BuildAccelerationStructureError as Error, ReadInstancesError, Resource, RunningTotal,
    SheetError, ValidateAsActionsError,
};

// A cause's number and its figures, as the C answers have them; those that a refusal lacks are 0.
#[derive(Clone, Copy)]
pub struct Figures {
    pub number: u64,
    pub first: u64,
    pub second: u64,
    pub third: u64,
}

pub fn sheet_number(e: SheetError) -> u64
    ensures { result ≡ sheet_number e }
{
    match e {
        SheetError::UnknownVersion => 1,
        SheetError::Truncated => 2,
        SheetError::TrailingBytes => 3,
        SheetError::TooMany => 4,
        SheetError::InvalidValue => 5,
    }
}

pub fn instances_number(e: ReadInstancesError) -> u64
    ensures { result ≡ instances_number e }
{
    match e {
        ReadInstancesError::UnevenLength => 48,
        ReadInstancesError::WordNotZero => 49,
        ReadInstancesError::NotOneBlas => 50,
        ReadInstancesError::OutputTooShort => 39,
    }
}

pub fn with_figures(number: u64, first: u64, second: u64, third: u64) -> Figures
    ensures { cause_of result ≡ cause number first second third }
{
    Figures {
        number,
        first,
        second,
        third,
    }
}

fn resource_figures(number: u64, r: Resource) -> Figures
    ensures { cause_of result ≡ sorted number r }
{
    match r {
        Resource::Buffer(b) => with_figures(number, 1, b.0.into(), 0),
        Resource::Blas(b) => with_figures(number, 2, b.0.into(), 0),
        Resource::Tlas(t) => with_figures(number, 3, t.0.into(), 0),
    }
}

fn running_total(t: RunningTotal) -> u64
    ensures { result ≡ running_total t }
{
    match t {
        RunningTotal::Entries => 1,
        RunningTotal::Packages => 2,
    }
}

pub fn build_figures(e: Error) -> Figures
    ensures { cause_of result ≡ build_cause e }
{
    match e {
        Error::TooMany => with_figures(4, 0, 0, 0),
        Error::InvalidValue => with_figures(5, 0, 0, 0),
        Error::InvalidResource => with_figures(6, 0, 0, 0),
        Error::BlasGeometryKindMismatch => with_figures(10, 0, 0, 0),
        Error::IncompatibleBlasBuildSizes => with_figures(11, 0, 0, 0),
        Error::IncompatibleBlasFlags(declared, given) => with_figures(
            12,
            declared.into(),
            given.into(),
            0,
        ),
        Error::IncompatibleBlasVertexCount(declared, given) => with_figures(
            13,
            declared.into(),
            given.into(),
            0,
        ),
        Error::DifferentBlasVertexFormats(declared, given) => with_figures(
            14,
            declared.into(),
            given.into(),
            0,
        ),
        Error::VertexStrideTooSmall(needed, given) => with_figures(15, needed, given, 0),
        Error::VertexStrideUnaligned(needed, given) => with_figures(16, needed, given, 0),
        Error::BlasIndexCountProvidedMismatch => with_figures(17, 0, 0, 0),
        Error::IncompatibleBlasIndexCount(declared, given) => with_figures(
            18,
            declared.into(),
            given.into(),
            0,
        ),
        Error::DifferentBlasIndexFormats(declared, given) => with_figures(
            19,
            declared.into(),
            given.into(),
            0,
        ),
        Error::MissingIndexBuffer => with_figures(20, 0, 0, 0),
        Error::DestroyedResource(r) => resource_figures(21, r),
        Error::MissingBufferUsage(b) => with_figures(22, 1, b.0.into(), 0),
        Error::InsufficientBufferSize {
            offset,
            region_size,
            buffer_size,
        } => with_figures(23, offset, region_size, buffer_size),
        Error::MissingAssociatedData => with_figures(24, 0, 0, 0),
        Error::MissingIndexFormat => with_figures(25, 0, 0, 0),
        Error::OffsetLimitedTo4GB {
            offset,
            count,
            stride,
        } => with_figures(26, offset, count, stride),
        Error::InvalidIndexCount(n) => with_figures(27, n.into(), 0, 0),
        Error::UseTransformMissing => with_figures(28, 0, 0, 0),
        Error::UnalignedTransformBufferOffset => with_figures(29, 0, 0, 0),
        Error::TransformMissing => with_figures(30, 0, 0, 0),
        Error::IncompatibleBlasAabbPrimitiveCount(declared, given) => with_figures(
            31,
            declared.into(),
            given.into(),
            0,
        ),
        Error::UnalignedAabbPrimitiveOffset => with_figures(32, 0, 0, 0),
        Error::InvalidAabbStride(n) => with_figures(33, n, 0, 0),
        Error::TlasInvalidCustomIndex => with_figures(34, 0, 0, 0),
        Error::TlasDependentMissingVertexReturn => with_figures(35, 0, 0, 0),
        Error::TlasInstanceCountExceeded(count, most) => with_figures(
            36,
            count.into(),
            most.into(),
            0,
        ),
        Error::OutOfMemory(t) => with_figures(37, running_total(t), 0, 0),
        Error::CompactedBlas => with_figures(38, 0, 0, 0),
        Error::OutputTooShort => with_figures(39, 0, 0, 0),
    }
}

fn ids(number: u64, first: u16, second: u16) -> Figures
    ensures { cause_of result ≡ cause number first second 0 }
{
    with_figures(number, first.into(), second.into(), 0)
}

pub fn submission_figures(e: ValidateAsActionsError) -> Figures
    ensures { cause_of result ≡ plainly (submission_cause e) }
{
    match e {
        ValidateAsActionsError::TooMany => ids(4, 0, 0),
        ValidateAsActionsError::InvalidValue => ids(5, 0, 0),
        ValidateAsActionsError::InvalidResource => ids(6, 0, 0),
        ValidateAsActionsError::DestroyedResource(b) => ids(21, b.0, 0),
        ValidateAsActionsError::OutputTooShort => ids(39, 0, 0),
        ValidateAsActionsError::CounterExhausted => ids(40, 0, 0),
        ValidateAsActionsError::CompactedBlas(b) => ids(41, b.0, 0),
        ValidateAsActionsError::UsedUnbuiltBlas(b, t) => ids(42, b.0, t.0),
        ValidateAsActionsError::UsedTlasOfUnbuiltBlas(t, b) => ids(42, t.0, b.0),
        ValidateAsActionsError::UsedUnbuiltTlas(t) => ids(43, t.0, 0),
        ValidateAsActionsError::BlasNewerThenTlas(b, t) => ids(44, b.0, t.0),
    }
}
