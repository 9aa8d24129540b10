// Ids, the records of lent tables by value, and what the entry points answer. The paper as definitions stands in specs/.
#![tactic(auto)]

ghost use Rattle.std.specs.Prelude.{◌≡◌};
ghost use Rattle.ray_tracing.specs.Layout.{version_number, size_in};
ghost use Rattle.ray_tracing.specs.declared.WriteSheetError.TheVariants as write-sheet;
ghost use Rattle.ray_tracing.specs.declared.ConvertSheetError.TheVariants as convert-sheet;
ghost use Rattle.ray_tracing.specs.declared.GroupsError.TheVariants as groups-error;
ghost use Rattle.ray_tracing.specs.declared.OpenGroupsError.TheVariants as open-groups;
ghost use Rattle.ray_tracing.specs.declared.BuildAccelerationStructureError.TheVariants as build-error;
ghost use Rattle.ray_tracing.specs.declared.ValidateAsActionsError.TheVariants as submission-error;

// The bytes of a record of each section, and of an instance.
pub const BUFFER_SIZE: usize = 9;

pub const BLAS_SIZE: usize = 28;

pub const DECLARED_SIZE: usize = 18;

pub const TLAS_SIZE: usize = 22;

pub const ENTRY_SIZE: usize = 5;

// A geometry's in version 1 of the sheet, and in version 2.
pub const GEOMETRY_SIZE: usize = 44;

pub const WIDE_GEOMETRY_SIZE: usize = 48;

pub const PACKAGE_SIZE: usize = 4;

pub const SLOT_SIZE: usize = 56;

pub const ACTION_SIZE: usize = 3;

pub const INSTANCE_SIZE: usize = 64;

// An instance as it is lent to be appended: a slot's fields after its present byte.
pub const LENT_SIZE: usize = 55;

// An index or a transform buffer that is none.
pub const NO_BUFFER: u16 = 65535;

// The most groups, and the most slots that the last of them may open to.
pub const MOST_GROUPS: usize = 64;

pub const MOST_SLOTS: usize = 512;

// The bytes of an item that names a group: the byte 2 and the group's number.
pub const NAME_SIZE: usize = 3;

// The cells of each Tlas's list.
pub const TLAS_ROOM: usize = 512;

// The version of a sheet, or of the geometries that a build is lent: how wide their offsets are.
#[derive(Clone, Copy)]
pub enum Version {
    One,
    Two,
}

#[derive(Clone, Copy)]
pub struct BufferId(pub u16);

#[derive(Clone, Copy)]
pub struct BlasId(pub u16);

#[derive(Clone, Copy)]
pub struct TlasId(pub u16);

// Records of lent tables by value. Their fields stay the bytes that they are, also kinds, states and present bytes: definitions speak of each
// value there, also of those that judging refuses, and an `Option` or an enum holds fewer.

#[derive(Clone, Copy)]
pub struct Buffer {
    pub size: u64,
    pub blas_input: bool,
    pub destroyed: bool,
}

#[derive(Clone, Copy)]
pub struct Blas {
    pub kind: u8,
    pub flags: u8,
    pub compacted_state: u8,
    pub destroyed: u8,
    pub build_scratch_size: u64,
    pub handle: u64,
    pub built_index: u64,
}

// What a Blas declares of one of its geometries, of either kind.
#[derive(Clone, Copy)]
pub struct BlasGeometrySizeDescriptor {
    pub blas: BlasId,
    pub flags: u8,
    pub count: u32,
    pub vertex_format: u8,
    pub min_vertex_stride: u16,
    pub stride_alignment: u16,
    pub index_format: u8,
    pub index_count_present: u8,
    pub index_count: u32,
}

#[derive(Clone, Copy)]
pub struct Tlas {
    pub flags: u8,
    pub destroyed: u8,
    pub build_scratch_size: u64,
    pub max_instance_count: u32,
    pub built_index: u64,
}

#[derive(Clone, Copy)]
pub struct BlasBuildEntry {
    pub blas: BlasId,
    pub kind: u8,
    pub geometry_count: u16,
}

// A geometry of either kind: `first` is the first vertex or the primitive offset, `buffer` the vertex or the AABB buffer.
#[derive(Clone, Copy)]
pub struct BlasGeometry {
    pub flags: u8,
    pub count: u32,
    pub first: u64,
    pub stride: u64,
    pub buffer: BufferId,
    pub vertex_format: u8,
    pub index_format: u8,
    pub index_buffer: BufferId,
    pub index_count_present: u8,
    pub index_count: u32,
    pub first_index_present: u8,
    pub first_index: u32,
    pub transform_buffer: BufferId,
    pub transform_buffer_offset_present: u8,
    pub transform_buffer_offset: u64,
}

#[derive(Clone, Copy)]
pub struct TlasPackage {
    pub tlas: TlasId,
    pub slot_count: u16,
}

// The transform's numbers; beside each that is a NaN the pattern it was read from, 0 beside the others: an f32 keeps no NaN's payload.
#[derive(Clone, Copy)]
pub struct TlasInstance {
    pub transform: [f32; 12],
    pub nan_bits: [u32; 12],
    pub custom_data: u32,
    pub mask: u8,
    pub blas: BlasId,
}

// Why a sheet is refused.
#[derive(Clone, Copy)]
pub enum SheetError {
    UnknownVersion,
    Truncated,
    TrailingBytes,
    TooMany,
    InvalidValue,
}

// The first refusal, and its place: a byte of the sheet, or a record of a lent table.
#[derive(Clone, Copy)]
pub struct SheetRefusal {
    pub error: SheetError,
    pub place: usize,
}

// Where a section's records begin, and how many there are.
#[derive(Clone, Copy)]
pub struct Section {
    pub start: usize,
    pub count: usize,
}

#[derive(Clone, Copy)]
pub struct Sheet {
    pub version: Version,
    pub alignment: u32,
    pub counter: u64,
    pub buffers: Section,
    pub blases: Section,
    pub declared: Section,
    pub tlases: Section,
    pub entries: Section,
    pub geometries: Section,
    pub packages: Section,
    pub slots: Section,
    pub actions: Section,
}

// Why a sheet is not written anew: it is not read, or too little room is lent.
#[derive(Clone, Copy)]
pub enum WriteSheetError {
    Malformed(SheetRefusal),
    OutputTooShort,
}

impl From<SheetRefusal> for WriteSheetError {
    ghost from_gives = { λ r e. e ≡ write-sheet.Malformed r };

    fn from(r: SheetRefusal) -> WriteSheetError {
        WriteSheetError::Malformed(r)
    }
}

// Why a sheet is not converted: it is not read, an offset, at this place, does not fit the narrower field, or too little room is lent.
#[derive(Clone, Copy)]
pub enum ConvertSheetError {
    Malformed(SheetRefusal),
    OffsetTooFar(usize),
    OutputTooShort,
}

impl From<SheetRefusal> for ConvertSheetError {
    ghost from_gives = { λ r e. e ≡ convert-sheet.Malformed r };

    fn from(r: SheetRefusal) -> ConvertSheetError {
        ConvertSheetError::Malformed(r)
    }
}

// Why groups are refused: as a sheet is, at a byte; or, at a group and an item, a count of 0 or a group that is not an earlier one.
#[derive(Clone, Copy)]
pub enum GroupsError {
    Malformed(SheetRefusal),
    InvalidGroup(usize, usize),
}

impl From<SheetRefusal> for GroupsError {
    ghost from_gives = { λ r e. e ≡ groups-error.Malformed r };

    fn from(r: SheetRefusal) -> GroupsError {
        GroupsError::Malformed(r)
    }
}

// Why groups are not opened: what judging them refused; the group and the item of the slot that is one too many; or too little room.
#[derive(Clone, Copy)]
pub enum OpenGroupsError {
    Invalid(GroupsError),
    TooManySlots(usize, usize),
    OutputTooShort,
}

impl From<GroupsError> for OpenGroupsError {
    ghost from_gives = { λ r e. e ≡ open-groups.Invalid r };

    fn from(r: GroupsError) -> OpenGroupsError {
        OpenGroupsError::Invalid(r)
    }
}

// What a refusal speaks of.
#[derive(Clone, Copy)]
pub enum Resource {
    Buffer(BufferId),
    Blas(BlasId),
    Tlas(TlasId),
}

// Whose running total of scratch it is: entries run one for their Blases, packages one for their Tlases.
#[derive(Clone, Copy)]
pub enum RunningTotal {
    Entries,
    Packages,
}

// Why a build is refused. The Rust's names, and those that the paper adds: where the Rust panics, ids and values of lent tables, room.
#[derive(Clone, Copy)]
pub enum BuildAccelerationStructureError {
    TooMany,
    InvalidValue,
    InvalidResource,
    BlasGeometryKindMismatch,
    IncompatibleBlasBuildSizes,
    IncompatibleBlasFlags(u8, u8),
    IncompatibleBlasVertexCount(u32, u32),
    DifferentBlasVertexFormats(u8, u8),
    VertexStrideTooSmall(u64, u64),
    VertexStrideUnaligned(u64, u64),
    BlasIndexCountProvidedMismatch,
    IncompatibleBlasIndexCount(u32, u32),
    DifferentBlasIndexFormats(u8, u8),
    MissingIndexBuffer,
    DestroyedResource(Resource),
    MissingBufferUsage(BufferId),
    InsufficientBufferSize {
        offset: u64,
        region_size: u64,
        buffer_size: u64,
    },
    MissingAssociatedData,
    MissingIndexFormat,
    OffsetLimitedTo4GB {
        offset: u64,
        count: u64,
        stride: u64,
    },
    InvalidIndexCount(u32),
    UseTransformMissing,
    UnalignedTransformBufferOffset,
    TransformMissing,
    IncompatibleBlasAabbPrimitiveCount(u32, u32),
    UnalignedAabbPrimitiveOffset,
    InvalidAabbStride(u64),
    TlasInvalidCustomIndex,
    TlasDependentMissingVertexReturn,
    TlasInstanceCountExceeded(u32, u32),
    OutOfMemory(RunningTotal),
    CompactedBlas,
    OutputTooShort,
}

// The first refusal of a build, and E: its entry and geometry, or its package and slot.
#[derive(Clone, Copy)]
pub struct BuildRefusal {
    pub error: BuildAccelerationStructureError,
    pub e0: usize,
    pub e1: usize,
}

// How many elements of each lent output a recorded build writes.
#[derive(Clone, Copy)]
pub struct Written {
    pub blas_offsets: usize,
    pub tlas_offsets: usize,
    pub staging_ranges: usize,
    pub instances: usize,
    pub init_ranges: usize,
    pub compactable: usize,
    pub lists: usize,
}

// What a build is lent to read: the scratch alignment, and sections 1 to 8 of a version.
#[derive(Clone, Copy)]
pub struct BuildTables<'a> {
    pub version: Version,
    pub alignment: u32,
    pub buffers: &'a [u8],
    pub blases: &'a [u8],
    pub declared: &'a [u8],
    pub tlases: &'a [u8],
    pub entries: &'a [u8],
    pub geometries: &'a [u8],
    pub packages: &'a [u8],
    pub slots: &'a [u8],
}

// What a build is lent to write.
#[derive(Drop)]
pub struct BuildOutputs<'a> {
    pub blas_offsets: &'a mut [u64],
    pub tlas_offsets: &'a mut [u64],
    pub staging_ranges: &'a mut [u64],
    pub instances: &'a mut [u8],
    pub init_ranges: &'a mut [u64],
    pub compactable: &'a mut [u16],
    pub lists: &'a mut [u16],
}

// What an accepted build comes to: recorded, with the scratch size; or nothing to record, only the initialisation ranges written.
#[derive(Clone, Copy)]
pub enum Built {
    Recorded(u64, Written),
    NothingRecorded(usize),
}

// An id that is mentioned stands outside its table.
#[derive(Clone, Copy)]
pub struct OutsideTable;

impl From<OutsideTable> for BuildAccelerationStructureError {
    ghost from_gives = { λ r e. e ≡ build-error.InvalidResource };

    fn from(_e: OutsideTable) -> BuildAccelerationStructureError {
        BuildAccelerationStructureError::InvalidResource
    }
}

// Why instance records are not read back.
#[derive(Clone, Copy)]
pub enum ReadInstancesError {
    UnevenLength,
    WordNotZero,
    NotOneBlas,
    OutputTooShort,
}

// That, and the number of its record.
#[derive(Clone, Copy)]
pub struct ReadInstancesRefusal {
    pub error: ReadInstancesError,
    pub index: usize,
}

// Bytes of a buffer that are to be initialised.
#[derive(Clone, Copy)]
pub struct Range {
    pub buffer: BufferId,
    pub start: u64,
    pub end: u64,
}

// The ranges that a geometry asks for: of its vertices or AABBs, and where it has them of its indices and its transform.
#[derive(Clone, Copy)]
pub struct GeometryRanges {
    pub primitives: Range,
    pub index: Option<Range>,
    pub transform: Option<Range>,
}

// Why a submission is refused. The Rust's names, and those that the paper adds: where the Rust panics, ids and values of lent tables and
// lists, room. The Rust has `UsedUnbuiltBlas` for a use too, with the Tlas first.
#[derive(Clone, Copy)]
pub enum ValidateAsActionsError {
    TooMany,
    InvalidValue,
    InvalidResource,
    DestroyedResource(BlasId),
    OutputTooShort,
    CounterExhausted,
    CompactedBlas(BlasId),
    UsedUnbuiltBlas(BlasId, TlasId),
    UsedTlasOfUnbuiltBlas(TlasId, BlasId),
    UsedUnbuiltTlas(TlasId),
    BlasNewerThenTlas(BlasId, TlasId),
}

// What a submission is lent to change: the Blases and Tlases, and the list that each Tlas was last built with.
#[derive(Drop)]
pub struct SubmissionBuffers<'a> {
    pub blases: &'a mut [u8],
    pub tlases: &'a mut [u8],
    pub dependency_counts: &'a mut [u16],
    pub dependencies: &'a mut [u16],
}

impl From<OutsideTable> for ValidateAsActionsError {
    ghost from_gives = { λ r e. e ≡ submission-error.InvalidResource };

    fn from(_e: OutsideTable) -> ValidateAsActionsError {
        ValidateAsActionsError::InvalidResource
    }
}

// The first refusal of a submission, with its action; and the counter that is left.
#[derive(Clone, Copy)]
pub struct SubmissionRefusal {
    pub error: ValidateAsActionsError,
    pub action: usize,
    pub counter: u64,
}

// The counter of Builds steps where it lies; the submission index never moves.
#[repr(C)]
#[derive(Clone, Copy)]
pub struct CommandIndices {
    pub active_submission_index: u64,
    pub next_acceleration_structure_build_command_index: u64,
}

// What a submission came to, by the paper's numbers: number, action and two figures, 0 where it was accepted.
#[repr(C)]
#[derive(Clone, Copy)]
pub struct Validated {
    pub number: u64,
    pub action: u64,
    pub first: u64,
    pub second: u64,
}

// Too few bytes were lent for a text.
#[derive(Clone, Copy)]
pub struct OutputTooShort;

// What the exported functions answer, as C structs of numbers, unused ones 0.

// What reading a sheet came to: number and place, or version, alignment, counter, and start and count of sections 1 to 9.
#[repr(C)]
#[derive(Clone, Copy, Default)]
pub struct SheetAnswer {
    pub number: u64,
    pub place: u64,
    pub version: u64,
    pub alignment: u64,
    pub counter: u64,
    pub buffers_start: u64,
    pub buffers_count: u64,
    pub blases_start: u64,
    pub blases_count: u64,
    pub declared_start: u64,
    pub declared_count: u64,
    pub tlases_start: u64,
    pub tlases_count: u64,
    pub entries_start: u64,
    pub entries_count: u64,
    pub geometries_start: u64,
    pub geometries_count: u64,
    pub packages_start: u64,
    pub packages_count: u64,
    pub slots_start: u64,
    pub slots_count: u64,
    pub actions_start: u64,
    pub actions_count: u64,
}

// What writing a sheet came to: number and place, and how many bytes were written.
#[repr(C)]
#[derive(Clone, Copy, Default)]
pub struct WriteAnswer {
    pub number: u64,
    pub place: u64,
    pub written: u64,
}

// What opening groups came to: number, place, and group and item; and how many bytes were written.
#[repr(C)]
#[derive(Clone, Copy, Default)]
pub struct OpenAnswer {
    pub number: u64,
    pub place: u64,
    pub group: u64,
    pub item: u64,
    pub written: u64,
}

// What a build came to: number, E and figures, or whether it is recorded, its scratch size and how many elements of each output
// were written.
#[repr(C)]
#[derive(Clone, Copy, Default)]
pub struct BuildAnswer {
    pub number: u64,
    pub e0: u64,
    pub e1: u64,
    pub f0: u64,
    pub f1: u64,
    pub f2: u64,
    pub recorded: u64,
    pub scratch_size: u64,
    pub blas_offsets: u64,
    pub tlas_offsets: u64,
    pub staging_ranges: u64,
    pub instances: u64,
    pub init_ranges: u64,
    pub compactable: u64,
    pub lists: u64,
}

// What appending instances came to: number, E and figures; and how many bytes are in use.
#[repr(C)]
#[derive(Clone, Copy, Default)]
pub struct AppendAnswer {
    pub number: u64,
    pub e0: u64,
    pub e1: u64,
    pub f0: u64,
    pub f1: u64,
    pub f2: u64,
    pub used: u64,
}

// What reading instances back came to: number and E; and how many bytes were written.
#[repr(C)]
#[derive(Clone, Copy, Default)]
pub struct InstancesAnswer {
    pub number: u64,
    pub e0: u64,
    pub e1: u64,
    pub written: u64,
}

// What writing a text came to: 0 or 39, and how many bytes were written.
#[repr(C)]
#[derive(Clone, Copy, Default)]
pub struct ReportAnswer {
    pub number: u64,
    pub written: u64,
}

// The version byte.
impl From<Version> for u8 {
    ghost from_gives = { λ v r. r ≡ version_number v };

    fn from(version: Version) -> u8 {
        match version {
            Version::One => 1,
            Version::Two => 2,
        }
    }
}

// A geometry's size.
pub fn geometry_size(version: Version) -> usize
    ensures { result ≡ size_in version 6 }
{
    match version {
        Version::One => GEOMETRY_SIZE,
        Version::Two => WIDE_GEOMETRY_SIZE,
    }
}
