// An instance of a Tlas: read from a slot's fields and written as them, and as the 64 bytes of VkAccelerationStructureInstanceKHR.
#![tactic(auto)]

ghost use Rattle.std.specs.Prelude.{◌≡◌, map, ◌+◌, ◌-◌, ◌^◌, ◌≤◌, ◌<◌, length};
ghost use Rattle.std.proofs.lemmas.List.Edits.{sets};
ghost use Rattle.std.specs.Float.{binary32};
ghost use Rattle.std.specs.Float.Ieee.{of_bits, nan_bits as is_nan_bits};
ghost use Rattle.ray_tracing.specs.Layout.{size};
ghost use Rattle.ray_tracing.specs.Instances.{nan_of, bits_of, patterns, words, tail_bytes, instance_bytes, words_at, instance_from};
ghost use Rattle.ray_tracing.specs.ReadInstances.{record_instance, lent_bytes};

use ray_tracing::{BlasId, TlasInstance};
use wire::{put_u8, put_u16, put_u32, put_u64, u8_at, u16_at, u32_at};

// Where a slot's fields stand, from its Blas on.
const CUSTOM_DATA: usize = 2;

const MASK: usize = 6;

const TRANSFORM: usize = 7;

// The bytes of a transform.
const TRANSFORM_SIZE: usize = 48;

// The mask stands above 24 bits of custom data.
const MASK_UNIT: u32 = 16777216;

// Where an instance record's fields stand, past its transform; custom data and mask are one u32.
const RECORD_CUSTOM_DATA: usize = 48;

// A number, and the pattern that it was read from where that is a NaN's, else 0: the form that `TlasInstance` has, which stays.
#[derive(Clone, Copy)]
pub struct Number {
    pub value: f32,
    pub nan_bits: u32,
}

// Whether bits is a NaN's pattern: without its sign it is above an infinity's.
fn is_nan_bits(bits: u32) -> bool
    ensures { result ≡ is_nan_bits binary32 bits }
{
    0x7f80_0000 < bits % 0x8000_0000
}

fn number_of_bits(bits: u32) -> Number
    ensures { (result.value ≡ of_bits binary32 bits) × (result.nan_bits ≡ nan_of bits) }
{
    if is_nan_bits(bits) {
        Number {
            value: f32::NAN,
            nan_bits: bits,
        }
    } else {
        Number {
            value: f32::from_bits(bits),
            nan_bits: 0,
        }
    }
}

fn bits_of_number(value: f32, nan_bits: u32) -> u32
    ensures { result ≡ bits_of value nan_bits }
{
    if !value.is_nan() {
        value.to_bits()
    } else if is_nan_bits(nan_bits) {
        nan_bits
    } else {
        0x7fc0_0000
    }
}

// Twelve numbers, and beside each that is a NaN the pattern it was read from.
#[derive(Clone, Copy)]
pub struct Numbers {
    pub values: [f32; 12],
    pub nan_bits: [u32; 12],
}

fn numbers_at(s: &[u8], at: usize) -> Numbers
    requires { at + 48 ≤ length s.now }
    ensures { (result.values ≡ map (of_bits binary32) (words_at 12 s.now at))
        × (result.nan_bits ≡ map nan_of (words_at 12 s.now at)) }
{
    let mut values = [0.0f32; 12];
    let mut nan_bits = [0u32; 12];
    for k in 0..12 {
        let n = number_of_bits(u32_at(s, at + 4 * k));
        values[k] = n.value;
        nan_bits[k] = n.nan_bits;
    }
    Numbers { values, nan_bits }
}

// The instance whose Blas field is at a place: a slot's fields after its present byte.
pub fn instance_from(s: &[u8], at: usize) -> TlasInstance
    requires { at + (size 8 - 1) ≤ length s.now }
    ensures { result ≡ instance_from s.now at }
{
    let numbers = numbers_at(s, at + TRANSFORM);
    let transform = numbers.values;
    let nan_bits = numbers.nan_bits;
    TlasInstance {
        transform,
        nan_bits,
        custom_data: u32_at(s, at + CUSTOM_DATA),
        mask: u8_at(s, at + MASK),
        blas: BlasId(u16_at(s, at)),
    }
}

// The instance of the 64-byte record at a place, of the Blas that its address names.
pub fn record_instance(s: &[u8], at: usize, blas: BlasId) -> TlasInstance
    requires { at + 64 ≤ length s.now }
    ensures { result ≡ record_instance s.now at blas }
{
    let numbers = numbers_at(s, at);
    let transform = numbers.values;
    let nan_bits = numbers.nan_bits;
    let word = u32_at(s, at + RECORD_CUSTOM_DATA);
    TlasInstance {
        transform,
        nan_bits,
        custom_data: word % MASK_UNIT,
        mask: (word / MASK_UNIT) as u8,
        blas,
    }
}

fn put_transform(out: &mut [u8], at: usize, transform: [f32; 12], nan_bits: [u32; 12])
    requires { at + 48 ≤ length out.old }
    ensures { out.new ≡ sets out.old at (words (patterns transform nan_bits)) }
{
    for k in 0..12 {
        put_u32(out, at + 4 * k, bits_of_number(transform[k], nan_bits[k]));
    }
}

// The 16 bytes after the transform.
fn put_tail(out: &mut [u8], at: usize, custom_data: u32, mask: u8, address: u64)
    requires { (at + 16 ≤ length out.old) × (custom_data < 2 ^ 24) }
    ensures { out.new ≡ sets out.old at (tail_bytes custom_data mask address) }
{
    put_u32(out, at, custom_data + MASK_UNIT * u32::from(mask));
    put_u32(out, at + 4, 0);
    put_u64(out, at + 8, address);
}

pub fn put_instance(out: &mut [u8], at: usize, instance: TlasInstance, address: u64)
    requires { (at + 64 ≤ length out.old) × (instance.custom_data < 2 ^ 24) }
    ensures { out.new ≡ sets out.old at (instance_bytes instance address) }
{
    let transform = instance.transform;
    let nan_bits = instance.nan_bits;
    put_transform(out, at, transform, nan_bits);
    put_tail(
        out,
        at + TRANSFORM_SIZE,
        instance.custom_data,
        instance.mask,
        address,
    );
}

// The fields that `instance_from` reads.
pub fn put_lent(out: &mut [u8], at: usize, instance: TlasInstance)
    requires { at + (size 8 - 1) ≤ length out.old }
    ensures { out.new ≡ sets out.old at (lent_bytes instance) }
{
    let transform = instance.transform;
    let nan_bits = instance.nan_bits;
    put_u16(out, at, instance.blas.0);
    put_u32(out, at + CUSTOM_DATA, instance.custom_data);
    put_u8(out, at + MASK, instance.mask);
    put_transform(out, at + TRANSFORM, transform, nan_bits);
}
