// Which Blas stands at an address: up to 128 Blases are indexed by their addresses once; a longer table is scanned.
#![tactic(auto)]

ghost use Rattle.std.specs.Prelude.{◌≡◌, ◌/◌, ◌<◌, length};
ghost use Rattle.ray_tracing.specs.Layout.{size};
ghost use Rattle.ray_tracing.specs.Mentions.{blas_of};
ghost use Rattle.ray_tracing.specs.ReadInstances.{blas_with};
ghost use Rattle.instance_find.specs.Index.{bucket, Indexed, candidate, found_of};

use ray_tracing::{BLAS_SIZE, BlasId};
use records::handle_of;

// The most Blases that are indexed: as many as section 2 may have.
pub const MOST_INDEXED: usize = 128;

// A prime, so that addresses in steps of any power of two fall into buckets of their own.
pub const BUCKETS: usize = 257;

// Blases with an index: for each bucket the number of Blases up to its last one, and for each Blas the number up to the last before
// it in its bucket; 0 where there is none. Of more Blases than are indexed it says nothing. A byte a cell: an `Option<u8>` takes two, and all
// are set up at each call.
#[derive(Clone, Copy)]
pub struct BlasIndex<'a> {
    pub blases: &'a [u8],
    pub last: [u8; BUCKETS],
    pub before: [u8; MOST_INDEXED],
    ghost indexed: { Indexed blases.now last before },
}

fn bucket_of(address: u64) -> usize
    ensures { (result ≡ bucket address) × (result < 257) }
{
    (address % 257) as usize
}

impl<'a> BlasIndex<'a> {
    // One pass, from the first to the last.
    pub fn new(blases: &'a [u8]) -> BlasIndex<'a>
        ensures { result.blases.now ≡ blases.now }
    {
        let mut last = [0u8; BUCKETS];
        let mut before = [0u8; MOST_INDEXED];
        let n = blases.len() / BLAS_SIZE;
        if MOST_INDEXED < n {
            return BlasIndex {
                blases,
                last,
                before,
            };
        }
        for k in 0..n {
            let b = bucket_of(handle_of(blases, k));
            before[k] = last[b];
            last[b] = (k + 1) as u8;
        }
        BlasIndex {
            blases,
            last,
            before,
        }
    }

    // The number of Blases up to the last that may stand at an address.
    fn last_candidate(&self, address: u64) -> usize
        ensures { result
            ≡ candidate self.now.blases.now (bucket address) (length self.now.blases.now / size 2) }
    {
        let n = self.blases.len() / BLAS_SIZE;
        if MOST_INDEXED < n {
            return n;
        }
        usize::from(self.last[bucket_of(address)])
    }

    // Of those before the Blas k.
    fn candidate_before(&self, k: usize) -> usize
        requires { k < length self.now.blases.now / size 2 }
        ensures { result ≡ candidate self.now.blases.now (bucket (blas_of self.now.blases.now k).handle) k }
    {
        if MOST_INDEXED < self.blases.len() / BLAS_SIZE {
            return k;
        }
        usize::from(self.before[k])
    }

    // The only Blas at an address, if an id can name it, as it can the first 65,536. From the last that may stand there to the
    // first; a second one ends it.
    #[tactic(auto, using(crate::proofs::Index::searching))]
    pub fn find(&self, address: u64) -> Option<BlasId>
        ensures { found_of result ≡ blas_with self.now.blases.now address }
    {
        let mut one = None;
        let mut n = self.last_candidate(address);
        // A `while`: it goes from one candidate to the one before, over any number of Blases.
        while 0 < n {
            let k = n - 1;
            if handle_of(self.blases, k) == address {
                if one.is_some() {
                    return None;
                }
                one = Some(k);
            }
            n = self.candidate_before(k);
        }
        u16::try_from(one?).ok().map(BlasId)
    }
}
