// Whether a whole record's values are in their fields, by its section: the answer for nearly every record, without a walk over its
// fields.
#![tactic(auto)]

ghost use Rattle.std.specs.Prelude.{◌≡◌, Bool, List, ℕ, ◌+◌, ◌≤◌, ◌<◌, length};
ghost use Rattle.ray_tracing.specs.declared.Version.{Version};
ghost use Rattle.ray_tracing.specs.Layout.{Seen, size, size_in};
ghost use Rattle.ray_tracing.specs.Reading.{begin};
ghost use Rattle.sheet_fits.specs.Fitting.{record_fits, rest_fits, present_fits};

use ray_tracing::{GEOMETRY_SIZE, NO_BUFFER, Version, geometry_size};
use sheet_layout::Before;
use wire::{u8_at, u16_at, u32_at};

fn header_fits(s: &[u8], at: usize) -> bool
    requires { at + size 0 ≤ length s.now }
    ensures { (v : Version) (c : Seen) → result ≡ record_fits v 0 c s.now at }
{
    0 < u32_at(s, at)
}

fn buffer_fits(s: &[u8], at: usize) -> bool
    requires { at + size 1 ≤ length s.now }
    ensures { (v : Version) (c : Seen) → result ≡ record_fits v 1 c s.now at }
{
    u8_at(s, at + 8) <= 3
}

fn blas_fits(s: &[u8], at: usize) -> bool
    requires { at + size 2 ≤ length s.now }
    ensures { (v : Version) (c : Seen) → result ≡ record_fits v 2 c s.now at }
{
    let kind = u8_at(s, at) <= 1;
    let flags = u8_at(s, at + 1) <= 7;
    let state = u8_at(s, at + 2) <= 3;
    let destroyed = u8_at(s, at + 3) <= 1;
    kind && flags && state && destroyed
}

// The fields of a declared geometry after its Blas, whose kind is known then.
fn declared_rest_fits(s: &[u8], at: usize, boxes: bool) -> bool
    requires { at + size 3 ≤ length s.now }
    ensures { (c : Seen) → c.boxes ≡ boxes → result ≡ rest_fits c s.now at }
{
    let alignment = 0 < u16_at(s, at + 10);
    let format = u8_at(s, at + 12) <= 2;
    let present = u8_at(s, at + 13) <= 1;
    boxes || (alignment && format && present)
}

// `before` is the Blases.
fn declared_fits(s: &[u8], at: usize, before: &Before<'_>) -> bool
    requires { at + size 3 ≤ length s.now }
    ensures { (v : Version) (boxes : Bool) → result
        ≡ record_fits v 3 (begin before.now.each before.now.records.now boxes) s.now at }
{
    let blas = usize::from(u16_at(s, at));
    blas < before.count && declared_rest_fits(s, at, before.records[blas * before.each] == 1)
}

fn tlas_fits(s: &[u8], at: usize) -> bool
    requires { at + size 4 ≤ length s.now }
    ensures { (v : Version) (c : Seen) → result ≡ record_fits v 4 c s.now at }
{
    let flags = u8_at(s, at);
    (flags == 0 || flags == 2) && u8_at(s, at + 1) <= 1
}

fn entry_fits(s: &[u8], at: usize) -> bool
    requires { at + size 5 ≤ length s.now }
    ensures { (v : Version) (c : Seen) → result ≡ record_fits v 5 c s.now at }
{
    u8_at(s, at + 2) <= 1
}

// A present byte that goes with a buffer which may be none.
fn present_fits(s: &[u8], at: usize, present: usize, buffer: usize, boxes: bool) -> bool
    requires { (at + present + 1 ≤ length s.now) × (at + buffer + 2 ≤ length s.now) }
    ensures { result ≡ present_fits s.now (at + present) (at + buffer) boxes }
{
    let valid = u8_at(s, at + present) <= 1;
    let none = u16_at(s, at + buffer) == NO_BUFFER;
    valid || boxes || none
}

// What has a rule stands after the offset: as many bytes further as that is wider.
fn geometry_fits(version: Version, s: &[u8], at: usize, boxes: bool) -> bool
    requires { at + size_in version 6 ≤ length s.now }
    ensures { (c : Seen) → c.boxes ≡ boxes → result ≡ record_fits version 6 c s.now at }
{
    let at = at + (geometry_size(version) - GEOMETRY_SIZE);
    let buffer = u16_at(s, at + 17) != NO_BUFFER;
    let format = u8_at(s, at + 20) <= 2;
    let count = u8_at(s, at + 23) <= 1;
    let first = present_fits(s, at, 28, 21, boxes);
    let offset = present_fits(s, at, 35, 33, boxes);
    buffer && first && offset && (boxes || (format && count))
}

fn slot_fits(s: &[u8], at: usize) -> bool
    requires { at + size 8 ≤ length s.now }
    ensures { (v : Version) (c : Seen) → result ≡ record_fits v 8 c s.now at }
{
    u8_at(s, at) <= 1
}

fn action_fits(s: &[u8], at: usize) -> bool
    requires { at + size 9 ≤ length s.now }
    ensures { (v : Version) (c : Seen) → result ≡ record_fits v 9 c s.now at }
{
    let kind = u8_at(s, at);
    0 < kind && kind <= 4
}

// `boxes` is whether the record's kind is boxes.
pub fn record_fits(
    version: Version,
    s: &[u8],
    at: usize,
    section: usize,
    before: &Before<'_>,
    boxes: bool,
) -> bool
    requires { (section < 10) × (at + size_in version section ≤ length s.now) }
    ensures { result ≡ record_fits version section (begin before.now.each before.now.records.now boxes) s.now at }
{
    match section {
        0 => header_fits(s, at),
        1 => buffer_fits(s, at),
        2 => blas_fits(s, at),
        3 => declared_fits(s, at, before),
        4 => tlas_fits(s, at),
        5 => entry_fits(s, at),
        6 => geometry_fits(version, s, at, boxes),
        7 => true,
        8 => slot_fits(s, at),
        _ => action_fits(s, at),
    }
}
