// Instances of a Tlas: judged, appended one by one, and those of a build's slots.
#![tactic(auto, unfolding(ray_tracing::specs::Guard::refuse))]

ghost use Rattle.std.specs.Prelude.{◌≡◌, cond, ℕ, ◌+◌, ◌*◌, ◌/◌, ◌≤◌, ◌<◌, length};
ghost use Rattle.std.proofs.lemmas.List.Edits.{sets};
ghost use Rattle.ray_tracing.specs.Layout.{size};
ghost use Rattle.ray_tracing.specs.Records.{field_at};
ghost use Rattle.ray_tracing.specs.Causes.{bare};
ghost use Rattle.ray_tracing.specs.Mentions.{◌else◌, blas_mention, blas_of};
ghost use Rattle.ray_tracing.specs.Code.{mention_of, instance_cause};
ghost use Rattle.ray_tracing.specs.Instances.{returns_vertices, instance_rule, named_tlas_rule, appended_of, Appends};
ghost use Rattle.ray_tracing.specs.Instances.{present_at, present_of, slot_mention, slot_rule, slot_bytes, slots_bytes};
ghost use Rattle.instance.specs.Writable.{Writable};

use instance_bytes::{instance_from, put_instance};
use ray_tracing::{
    BLAS_SIZE, Blas, BlasId, BuildAccelerationStructureError as Error, INSTANCE_SIZE, OutsideTable,
    SLOT_SIZE, TLAS_SIZE, Tlas, TlasId, TlasInstance,
};
use records::{blas_at, blas_mention, handle_of, tlas_at, tlas_mention};
use wire::{u8_at, u16_at, u32_at};

// Custom data from here on is 34.
const CUSTOM_LIMIT: u32 = 16777216;

// Where a slot's Blas and custom data stand.
const SLOT_BLAS: usize = 1;

const SLOT_CUSTOM_DATA: usize = 3;

fn returns_vertices(flags: u8) -> bool
    ensures { result ≡ returns_vertices flags }
{
    flags / 2 % 2 == 1
}

// The step of builds and appends: 34, 35.
fn check_instance(tlas: Tlas, blas: Blas, custom_data: u32) -> Result<(), Error>
    ensures { instance_cause result ≡ bare (instance_rule tlas blas custom_data) }
{
    if CUSTOM_LIMIT <= custom_data {
        return Err(Error::TlasInvalidCustomIndex);
    }
    if returns_vertices(tlas.flags) && !returns_vertices(blas.flags) {
        return Err(Error::TlasDependentMissingVertexReturn);
    }
    Ok(())
}

// 6, 34, 35.
pub fn check_named(tlas: Tlas, blases: &[u8], blas: BlasId, custom_data: u32) -> Result<(), Error>
    ensures { instance_cause result
        ≡ bare
        (blas_mention blases.now blas.0 else instance_rule tlas (blas_of blases.now blas.0) custom_data) }
{
    blas_mention(blases, blas)?;
    let at = blas.0 as usize * BLAS_SIZE;
    check_instance(tlas, blas_at(blases, at), custom_data)
}

// 6 for the Tlas before those.
#[tactic(auto, unfolding(ray_tracing::specs::Guard::refuse, ray_tracing::specs::Instances::named_tlas_rule))]
fn check_named_tlas(
    tlases: &[u8],
    blases: &[u8],
    tlas: TlasId,
    instance: TlasInstance,
) -> Result<(), Error>
    ensures { instance_cause result ≡ bare (named_tlas_rule tlases.now blases.now tlas instance) }
{
    tlas_mention(tlases, tlas)?;
    let at = tlas.0 as usize * TLAS_SIZE;
    check_named(
        tlas_at(tlases, at),
        blases,
        instance.blas,
        instance.custom_data,
    )
}

pub fn address_of(blases: &[u8], blas: BlasId) -> u64
    requires { blas.0 < length blases.now / size 2 }
    ensures { result ≡ (blas_of blases.now blas.0).handle }
{
    handle_of(blases, blas.0 as usize)
}

// Appends one instance of a Tlas to the instances in use, or refuses and writes nothing.
pub fn append_instance(
    tlases: &[u8],
    blases: &[u8],
    tlas: TlasId,
    instance: TlasInstance,
    instances: &mut [u8],
    used: usize,
) -> Result<usize, Error>
    ensures { Appends tlases.now blases.now tlas instance instances.old used
        (appended_of result) instances.new }
{
    check_named_tlas(tlases, blases, tlas, instance)?;
    if instances.len() < used || instances.len() - used < INSTANCE_SIZE {
        return Err(Error::OutputTooShort);
    }
    let address = address_of(blases, instance.blas);
    put_instance(instances, used, instance, address);
    Ok(used + INSTANCE_SIZE)
}

// What a build judges of the slot at a place: 6 for its Blas, and later 34, 35.
pub fn slot_mention(blases: &[u8], slots: &[u8], at: usize) -> Result<(), OutsideTable>
    requires { at + size 8 ≤ length slots.now }
    ensures { mention_of result ≡ slot_mention blases.now slots.now at }
{
    if u8_at(slots, at) == 0 {
        return Ok(());
    }
    blas_mention(blases, BlasId(u16_at(slots, at + SLOT_BLAS)))
}

pub fn check_slot(tlas: Tlas, blases: &[u8], slots: &[u8], at: usize) -> Result<(), Error>
    requires { (at + size 8 ≤ length slots.now) × (slot_mention blases.now slots.now at ≡ 0) }
    ensures { instance_cause result ≡ bare (slot_rule tlas blases.now slots.now at) }
{
    if u8_at(slots, at) == 0 {
        return Ok(());
    }
    let id = u16_at(slots, at + SLOT_BLAS) as usize;
    check_instance(
        tlas,
        blas_at(blases, id * BLAS_SIZE),
        u32_at(slots, at + SLOT_CUSTOM_DATA),
    )
}

// Writes what the slot at a place writes, from index end on, and returns the index past it.
#[tactic(auto, using(crate::proofs::Slots::one))]
fn put_slot(blases: &[u8], slots: &[u8], at: usize, instances: &mut [u8], end: usize) -> usize
    requires size_in_bounds { (at + size 8 ≤ length slots.now)
        × (end + length (slot_bytes blases.now slots.now at) ≤ length instances.old) }
    requires writable { (field_at 8 slots.now at 0 ≡ 0 → ⊥)
        → Writable blases.now (field_at 8 slots.now at 1) (field_at 8 slots.now at 2) }
    ensures value { result ≡ end + length (slot_bytes blases.now slots.now at) }
    ensures instances_after { instances.new
        ≡ sets instances.old end (slot_bytes blases.now slots.now at) }
{
    if u8_at(slots, at) == 0 {
        return end;
    }
    let instance = instance_from(slots, at + 1);
    let address = address_of(blases, instance.blas);
    put_instance(instances, end, instance, address);
    end + INSTANCE_SIZE
}

// Writes what count slots from slot first on write, from index at on, and returns the index past it.
#[tactic(auto, using(crate::proofs::Slots::more))]
pub fn put_slots(
    blases: &[u8],
    slots: &[u8],
    first: usize,
    count: usize,
    instances: &mut [u8],
    at: usize,
) -> usize
    requires size_in_bounds { ((first + count) * size 8 ≤ length slots.now)
        × (at + 64 * present_of slots.now first count ≤ length instances.old) }
    requires by_index { (i : ℕ)
        → i < count
        → (field_at 8 slots.now ((first + i) * size 8) 0 ≡ 0 → ⊥)
        → Writable blases.now
        (field_at 8 slots.now ((first + i) * size 8) 1)
        (field_at 8 slots.now ((first + i) * size 8) 2) }
    ensures value { result ≡ at + 64 * present_of slots.now first count }
    ensures instances_after { instances.new
        ≡ sets instances.old at (slots_bytes blases.now slots.now first count) }
{
    let mut end = at;
    for i in 0..count {
        end = put_slot(blases, slots, (first + i) * SLOT_SIZE, instances, end);
    }
    end
}

// How many of count slots from slot first on are present.
#[tactic(auto, using(crate::proofs::Slots::more), unfolding(ray_tracing::specs::Instances::present_of))]
pub fn present_of(slots: &[u8], first: usize, count: usize) -> usize
    requires { (first + count) * size 8 ≤ length slots.now }
    ensures { (result ≡ present_of slots.now first count) × (result ≤ count) }
{
    let mut n = 0;
    for i in 0..count {
        if u8_at(slots, (first + i) * SLOT_SIZE) != 0 {
            n += 1;
        }
    }
    n
}
