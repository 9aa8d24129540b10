// Instances read back from the 64-byte records of VkAccelerationStructureInstanceKHR: judged whole, then written in one pass.
#![tactic(auto)]

ghost use Rattle.std.specs.Prelude.{◌≡◌, ℕ, ◌+◌, ◌*◌, ◌%◌, ◌≤◌, ◌<◌, length, ltb};
ghost use Rattle.std.proofs.lemmas.List.Edits.{sets};
ghost use Rattle.ray_tracing.specs.Guard.{neb};
ghost use Rattle.ray_tracing.specs.Causes.{bare};
ghost use Rattle.ray_tracing.specs.Plan.{refused, on, first_of};
ghost use Rattle.ray_tracing.specs.AppendMany.{lent_size};
ghost use Rattle.ray_tracing.specs.ReadInstances.{record_size, record_count, read_instance, lent_bytes, items_bytes};
ghost use Rattle.ray_tracing.specs.ReadInstances.{judge_record, judge_read, instances_read_of, ReadsInstances};
ghost use Rattle.instance_read.specs.Judged.{read_judged_of, Stands};

use instance_bytes::{put_lent, record_instance};
use instance_find::BlasIndex;
use ray_tracing::{INSTANCE_SIZE, LENT_SIZE, ReadInstancesError as Error, ReadInstancesRefusal};
use wire::{u32_at, u64_at};

// Where a record's fields stand: the u32 that is to be 0, and the address.
const ZERO_WORD: usize = 52;

const ADDRESS: usize = 56;

// The k-th: 49, 50.
#[tactic(auto, unfolding(ray_tracing::specs::Guard::refuse))]
fn judge_record(records: &[u8], index: &BlasIndex<'_>, k: usize) -> Result<(), ReadInstancesRefusal>
    requires { k * record_size + record_size ≤ length records.now }
    ensures { read_judged_of result ≡ judge_record records.now index.now.blases.now k }
{
    let at = k * INSTANCE_SIZE;
    let word = u32_at(records, at + ZERO_WORD);
    let found = index.find(u64_at(records, at + ADDRESS));
    if word != 0 {
        return Err(ReadInstancesRefusal {
            error: Error::WordNotZero,
            index: k,
        });
    }
    if found.is_none() {
        return Err(ReadInstancesRefusal {
            error: Error::NotOneBlas,
            index: k,
        });
    }
    Ok(())
}

// Each in turn.
#[tactic(auto, using(ray_tracing::proofs::Verdicts::each))]
fn judge_each(records: &[u8], index: &BlasIndex<'_>) -> Result<(), ReadInstancesRefusal>
    ensures { read_judged_of result ≡ first_of (judge_record records.now index.now.blases.now) 0 (record_count records.now) }
{
    for k in 0..records.len() / INSTANCE_SIZE {
        judge_record(records, index, k)?;
    }
    Ok(())
}

// 48: of so many bytes a part of a record at the end.
fn judge_length(n: usize) -> Result<(), ReadInstancesRefusal>
    ensures { read_judged_of result ≡ on (neb (n % record_size) 0) (refused 0 0 (bare 48)) }
{
    if !n.is_multiple_of(INSTANCE_SIZE) {
        return Err(ReadInstancesRefusal {
            error: Error::UnevenLength,
            index: 0,
        });
    }
    Ok(())
}

// 39: no room for so many bytes.
fn judge_room(room: usize, end: usize) -> Result<(), ReadInstancesRefusal>
    ensures { read_judged_of result ≡ on (ltb room end) (refused 0 0 (bare 39)) }
{
    if room < end {
        return Err(ReadInstancesRefusal {
            error: Error::OutputTooShort,
            index: 0,
        });
    }
    Ok(())
}

// All that is judged before anything is written.
#[tactic(auto, unfolding(ray_tracing::specs::ReadInstances::judge_read))]
fn judge_records(
    records: &[u8],
    index: &BlasIndex<'_>,
    room: usize,
) -> Result<(), ReadInstancesRefusal>
    ensures { read_judged_of result ≡ judge_read records.now index.now.blases.now room }
{
    judge_length(records.len())?;
    judge_each(records, index)?;
    judge_room(room, LENT_SIZE * (records.len() / INSTANCE_SIZE))
}

// Writes the k-th.
fn put_item(records: &[u8], index: &BlasIndex<'_>, k: usize, items: &mut [u8])
    requires stands { Stands records.now index.now.blases.now k }
    requires record_size_in_bounds { (k * record_size + record_size ≤ length records.now)
        × (k * lent_size + lent_size ≤ length items.old) }
    ensures { items.new
        ≡ sets items.old (k * lent_size) (lent_bytes (read_instance records.now index.now.blases.now k)) }
{
    let at = k * INSTANCE_SIZE;
    let blas = index.find(u64_at(records, at + ADDRESS)).unwrap();
    let instance = record_instance(records, at, blas);
    put_lent(items, k * LENT_SIZE, instance);
}

// Writes the first count of them.
fn put_items(records: &[u8], index: &BlasIndex<'_>, count: usize, items: &mut [u8])
    requires by_index { (k : ℕ) → k < count → Stands records.now index.now.blases.now k }
    requires record_size_in_bounds { (count * record_size ≤ length records.now) × (lent_size * count ≤ length items.old) }
    ensures { items.new ≡ sets items.old 0 (items_bytes records.now index.now.blases.now count) }
{
    for k in 0..count {
        put_item(records, index, k, items);
    }
}

// Reads instances back from their records, each Blas by its address, or refuses and writes nothing.
pub fn read_instances(
    records: &[u8],
    blases: &[u8],
    items: &mut [u8],
) -> Result<usize, ReadInstancesRefusal>
    ensures { ReadsInstances records.now blases.now items.old (instances_read_of result) items.new }
{
    let index = BlasIndex::new(blases);
    judge_records(records, &index, items.len())?;
    let count = records.len() / INSTANCE_SIZE;
    put_items(records, &index, count, items);
    Ok(LENT_SIZE * count)
}
