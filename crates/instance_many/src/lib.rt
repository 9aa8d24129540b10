// Many instances of one Tlas, appended by one call: judged whole, then written in one pass.
#![tactic(auto)]

ghost use Rattle.std.specs.Prelude.{◌≡◌, ℕ, ◌+◌, ◌*◌, ◌/◌, ◌%◌, ◌≤◌, ◌<◌, length, ltb};
ghost use Rattle.std.proofs.lemmas.List.Edits.{sets};
ghost use Rattle.ray_tracing.specs.Guard.{neb};
ghost use Rattle.ray_tracing.specs.Causes.{bare};
ghost use Rattle.ray_tracing.specs.Mentions.{tlas_mention, tlas_of};
ghost use Rattle.ray_tracing.specs.Code.{verdict_of};
ghost use Rattle.ray_tracing.specs.Plan.{refused, on, ◌or◌, at_e, first_of};
ghost use Rattle.ray_tracing.specs.Instances.{instance_bytes, address_for, named_instance_rule};
ghost use Rattle.ray_tracing.specs.AppendMany.{lent_size, lent_count, lent_instance, many_bytes, judge_instance, judge_many};
ghost use Rattle.ray_tracing.specs.AppendMany.{appended_many_of, AppendsMany};
ghost use Rattle.instance.specs.Writable.{Writable};

use instance::{address_of, check_named};
use instance_bytes::{instance_from, put_instance};
use ray_tracing::{
    BlasId, BuildAccelerationStructureError as Error, BuildRefusal, INSTANCE_SIZE, LENT_SIZE,
    TLAS_SIZE, Tlas, TlasId,
};
use records::{tlas_at, tlas_mention};
use wire::{u16_at, u32_at};

// Where a lent instance's custom data stands.
const CUSTOM_DATA: usize = 2;

// The k-th: 6, 34, 35.
#[tactic(auto, unfolding(ray_tracing::specs::Instances::instance_from))]
fn judge_instance(tlas: Tlas, blases: &[u8], items: &[u8], k: usize) -> Result<(), BuildRefusal>
    requires { k * lent_size + lent_size ≤ length items.now }
    ensures { verdict_of result ≡ at_e 0 k (named_instance_rule tlas blases.now (lent_instance items.now k)) }
{
    let at = k * LENT_SIZE;
    let blas = BlasId(u16_at(items, at));
    check_named(tlas, blases, blas, u32_at(items, at + CUSTOM_DATA)).map_err(|error| BuildRefusal {
        error,
        e0: 0,
        e1: k,
    })
}

// Each in turn.
#[tactic(auto, using(ray_tracing::proofs::Verdicts::each))]
fn judge_instances(tlas: Tlas, blases: &[u8], items: &[u8]) -> Result<(), BuildRefusal>
    ensures { verdict_of result
        ≡ first_of (λ k. at_e 0 k (named_instance_rule tlas blases.now (lent_instance items.now k)))
        0 (lent_count items.now) }
{
    for k in 0..items.len() / LENT_SIZE {
        judge_instance(tlas, blases, items, k)?;
    }
    Ok(())
}

// The Tlas, and then each.
#[tactic(auto, unfolding(ray_tracing::specs::Guard::refuse))]
fn judge_named(tlases: &[u8], blases: &[u8], tlas: TlasId, items: &[u8]) -> Result<(), BuildRefusal>
    ensures { verdict_of result
        ≡ (at_e 0 0 (tlas_mention tlases.now tlas.0)
        or first_of (judge_instance tlases.now blases.now tlas items.now)
        0 (lent_count items.now)) }
{
    tlas_mention(tlases, tlas).map_err(|e| BuildRefusal {
        error: Error::from(e),
        e0: 0,
        e1: 0,
    })?;
    let at = tlas.0 as usize * TLAS_SIZE;
    judge_instances(tlas_at(tlases, at), blases, items)
}

// 5: of so many bytes a part of one at the end.
fn judge_part(n: usize) -> Result<(), BuildRefusal>
    ensures { verdict_of result ≡ on (neb (n % lent_size) 0) (refused 0 (n / lent_size) (bare 5)) }
{
    if !n.is_multiple_of(LENT_SIZE) {
        return Err(BuildRefusal {
            error: Error::InvalidValue,
            e0: 0,
            e1: n / LENT_SIZE,
        });
    }
    Ok(())
}

// 39: no room for so many. A refusal of another type than `instance_read`'s, of another length.
fn judge_room(room: usize, used: usize, count: usize) -> Result<(), BuildRefusal>
    ensures { verdict_of result ≡ on (ltb room (used + 64 * count)) (refused 0 0 (bare 39)) }
{
    if room < used || (room - used) / INSTANCE_SIZE < count {
        return Err(BuildRefusal {
            error: Error::OutputTooShort,
            e0: 0,
            e1: 0,
        });
    }
    Ok(())
}

// All that is judged before anything is written.
#[tactic(auto, unfolding(ray_tracing::specs::AppendMany::judge_many))]
fn judge_many(
    tlases: &[u8],
    blases: &[u8],
    tlas: TlasId,
    items: &[u8],
    room: usize,
    used: usize,
) -> Result<(), BuildRefusal>
    ensures { verdict_of result ≡ judge_many tlases.now blases.now tlas items.now room used }
{
    judge_named(tlases, blases, tlas, items)?;
    judge_part(items.len())?;
    judge_room(room, used, items.len() / LENT_SIZE)
}

// Writes the k-th from index end on: what a slot of a build writes, in a copy of its own, since called by both it is not inlined.
fn put_lent(blases: &[u8], items: &[u8], k: usize, instances: &mut [u8], end: usize)
    requires lent_size_in_bounds { (k * lent_size + lent_size ≤ length items.now) × (end + 64 ≤ length instances.old) }
    requires writable { Writable blases.now (lent_instance items.now k).blas.0 (lent_instance items.now k).custom_data }
    ensures { instances.new
        ≡ sets instances.old end
        (instance_bytes
        (lent_instance items.now k)
        (address_for blases.now (lent_instance items.now k))) }
{
    let instance = instance_from(items, k * LENT_SIZE);
    let address = address_of(blases, instance.blas);
    put_instance(instances, end, instance, address);
}

// Writes the first count of them from index at on.
fn put_many(blases: &[u8], items: &[u8], count: usize, instances: &mut [u8], at: usize)
    requires lent_size_in_bounds { (count * lent_size ≤ length items.now) × (at + 64 * count ≤ length instances.old) }
    requires by_index { (k : ℕ)
        → k < count
        → Writable blases.now (lent_instance items.now k).blas.0 (lent_instance items.now k).custom_data }
    ensures { instances.new
        ≡ sets instances.old at (many_bytes blases.now items.now count) }
{
    for i in 0..count {
        put_lent(blases, items, i, instances, at + i * INSTANCE_SIZE);
    }
}

// Appends many instances of a Tlas to the instances in use, or refuses and writes nothing.
pub fn append_instances(
    tlases: &[u8],
    blases: &[u8],
    tlas: TlasId,
    items: &[u8],
    instances: &mut [u8],
    used: usize,
) -> Result<usize, BuildRefusal>
    ensures { AppendsMany tlases.now blases.now tlas items.now instances.old used
        (appended_many_of result) instances.new }
{
    judge_many(tlases, blases, tlas, items, instances.len(), used)?;
    let count = items.len() / LENT_SIZE;
    let end = used + count * INSTANCE_SIZE;
    put_many(blases, items, count, instances, used);
    Ok(end)
}
