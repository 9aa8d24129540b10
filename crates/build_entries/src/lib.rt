// Entries, geometries in turn: each against what its Blas declares, found by an index of section 3.
#![tactic(auto)]

ghost use Rattle.std.specs.Prelude.{◌≡◌, ℕ, ◌+◌, ◌/◌, ◌≤◌, ◌<◌, length};
ghost use Rattle.ray_tracing.specs.Layout.{layout, size};
ghost use Rattle.ray_tracing.specs.Mentions.{buffer_of};
ghost use Rattle.ray_tracing.specs.Code.{checked_of, buffer_given, declared_given, verdict_of};
ghost use Rattle.ray_tracing.specs.Triangles.{unless_none};
ghost use Rattle.ray_tracing.specs.Plan.{lent_tables, records_in, judge_entry, judge_entries};
ghost use Rattle.ray_tracing.proofs.Inside.{Named, drawn_before};
ghost use Rattle.build_entries.specs.Index.{Indexable, Heads, Nexts, declared_in, nth_of, standing};
ghost use Rattle.build_entries.specs.Kinds.{by_kind};
ghost use Rattle.build_entries.specs.Within.{EntriesInside};

use build_boxes::check_aabbs;
use build_triangles::check_triangles;
use ray_tracing::{
    BUFFER_SIZE, Blas, BlasGeometry, BlasGeometrySizeDescriptor, BlasId, Buffer, BufferId,
    BuildAccelerationStructureError, BuildRefusal, BuildTables, DECLARED_SIZE, ENTRY_SIZE,
    GeometryRanges, NO_BUFFER,
};
use records::{blas_of_entry, buffer_at, declared_at, entry_at, geometry_count, geometry_of};
use wire::u16_at;

// As many as sections 2 and 3 may have.
const MOST_BLASES: usize = 128;

const MOST_DECLARED: usize = 512;

// Section 3 with an index: for each Blas its first declared geometry, and for each declared geometry the next of the same Blas; how
// many there are where there is none: a number that is below no count, so that `get` needs one test; an `Option` takes two cells.
#[derive(Clone, Copy)]
struct DeclaredIndex<'a> {
    declared: &'a [u8],
    head: [u16; MOST_BLASES],
    next: [u16; MOST_DECLARED],
    ghost few: { declared_in declared.now ≤ (layout 3).most },
    ghost heads: { Heads declared.now head },
    ghost nexts: { Nexts declared.now next },
}

impl<'a> DeclaredIndex<'a> {
    // One pass, from the last to the first.
    fn new(declared: &'a [u8]) -> DeclaredIndex<'a>
        requires { Indexable declared.now }
        ensures { result.declared.now ≡ declared.now }
    {
        let n = declared.len() / DECLARED_SIZE;
        let mut head = [n as u16; MOST_BLASES];
        let mut next = [0u16; MOST_DECLARED];
        for i in (0..n).rev() {
            let blas = u16_at(declared, i * DECLARED_SIZE) as usize;
            next[i] = head[blas];
            head[blas] = i as u16;
        }
        DeclaredIndex {
            declared,
            head,
            next,
        }
    }

    // Where the first declared geometry of a Blas stands.
    fn first(&self, blas: BlasId) -> usize
        requires { blas.0 < (layout 2).most }
        ensures { result ≡ nth_of self.now.declared.now blas.0 0 }
    {
        usize::from(self.head[blas.0 as usize])
    }

    // Where the one after it stands.
    #[tactic(auto, using(crate::proofs::Index::follow_inside, crate::proofs::Index::follow_end))]
    fn after(&self, at: usize) -> usize
        ensures { (blas j : ℕ)
            → at ≡ nth_of self.now.declared.now blas j
            → result ≡ nth_of self.now.declared.now blas (j + 1) }
    {
        if at < self.declared.len() / DECLARED_SIZE {
            usize::from(self.next[at])
        } else {
            at
        }
    }

    // The declared geometry that stands there, if one does.
    fn get(&self, at: usize) -> Option<BlasGeometrySizeDescriptor>
        ensures { declared_given result ≡ standing self.now.declared.now at }
    {
        if at < self.declared.len() / DECLARED_SIZE {
            Some(declared_at(self.declared, at * DECLARED_SIZE))
        } else {
            None
        }
    }
}

// The buffer of an id that may be none.
fn given_buffer(buffers: &[u8], id: BufferId) -> Option<Buffer>
    requires { Named id.0 (length buffers.now / size 1) }
    ensures { buffer_given result ≡ unless_none (buffer_of buffers.now) id.0 }
{
    if id.0 == NO_BUFFER {
        None
    } else {
        Some(buffer_at(buffers, id.0 as usize * BUFFER_SIZE))
    }
}

// A geometry by its entry's kind, against what its Blas declares for it.
fn check_geometry(
    buffers: &[u8],
    kind: u8,
    blas: Blas,
    declared: Option<BlasGeometrySizeDescriptor>,
    g: BlasGeometry,
) -> Result<GeometryRanges, BuildAccelerationStructureError>
    requires buffer_in_bounds { g.buffer.0 < length buffers.now / size 1 }
    requires named { (kind ≡ 0 → Named g.index_buffer.0 (length buffers.now / size 1))
        × (kind ≡ 0 → Named g.transform_buffer.0 (length buffers.now / size 1)) }
    ensures { checked_of result ≡ by_kind buffers.now kind blas (declared_given declared) g }
{
    let data = buffer_at(buffers, g.buffer.0 as usize * BUFFER_SIZE);
    if kind != 0 {
        return check_aabbs(blas, declared, g, data);
    }
    let index = given_buffer(buffers, g.index_buffer);
    let transform = given_buffer(buffers, g.transform_buffer);
    check_triangles(blas, declared, g, data, index, transform)
}

// Entry i, whose geometries stand from geometry g on.
#[tactic(auto, using(crate::proofs::Within::in_turn))]
fn judge_entry(
    tables: &BuildTables<'_>,
    index: &DeclaredIndex<'_>,
    i: usize,
    g: usize,
) -> Result<(), BuildRefusal>
    requires declared { index.now.declared.now ≡ tables.now.declared.now }
    requires inside { EntriesInside (lent_tables tables.now) }
    requires entry { (i < records_in (lent_tables tables.now) 5) × (g ≡ drawn_before (lent_tables tables.now) i) }
    ensures { verdict_of result ≡ judge_entry (lent_tables tables.now) i g }
{
    let entry = entry_at(tables.entries, i * ENTRY_SIZE);
    let blas = blas_of_entry(tables.blases, tables.entries, i);
    let mut at = index.first(entry.blas);
    for j in 0..entry.geometry_count as usize {
        let declared = index.get(at);
        let geometry = geometry_of(tables.version, tables.geometries, g + j);
        // Tried as `map_err(..)?`: the exit of the `?` stayed open, since what the closure returns does not compute there.
        if let Err(error) = check_geometry(tables.buffers, entry.kind, blas, declared, geometry) {
            return Err(BuildRefusal {
                error,
                e0: i,
                e1: j,
            });
        }
        at = index.after(at);
    }
    Ok(())
}

// Entries in turn, with section 3 indexed once.
#[tactic(auto, using(crate::proofs::Within::drawing), unfolding(ray_tracing::specs::Plan::judge_entries))]
pub fn judge_entries(tables: &BuildTables<'_>) -> Result<(), BuildRefusal>
    requires { EntriesInside (lent_tables tables.now) × Indexable tables.now.declared.now }
    ensures { verdict_of result ≡ judge_entries (lent_tables tables.now) }
{
    let index = DeclaredIndex::new(tables.declared);
    let mut g = 0;
    for i in 0..tables.entries.len() / ENTRY_SIZE {
        judge_entry(tables, &index, i, g)?;
        g += geometry_count(tables.entries, i);
    }
    Ok(())
}
