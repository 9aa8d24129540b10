// The layout's numbers as code: a section's record size, the most records that it may have, and counts that add up.
#![tactic(auto)]

ghost use Rattle.std.specs.Prelude.{◌≡◌, ◌+◌, ◌/◌, ◌≤◌, ◌<◌, length, eqb};
ghost use Rattle.ray_tracing.specs.Layout.{layout, size, size_in};
ghost use Rattle.ray_tracing.specs.Reading.{sum_of_counts, adds_up, version_in};

use ray_tracing::{
    ACTION_SIZE, BLAS_SIZE, BUFFER_SIZE, DECLARED_SIZE, ENTRY_SIZE, GEOMETRY_SIZE, PACKAGE_SIZE,
    SLOT_SIZE, TLAS_SIZE, Version, geometry_size,
};
use wire::{u8_at, u16_at};

// The version of a sheet whose version byte is 1 or 2.
pub fn version_in(sheet: &[u8]) -> Version
    requires { 1 ≤ length sheet.now }
    ensures { result ≡ version_in sheet.now }
{
    if u8_at(sheet, 0) == 2 {
        Version::Two
    } else {
        Version::One
    }
}

// A record's size in version 1. A section goes by its number in the sheet, as the reader counts them: an enum would be made from that
// number, and turned back for the section before.
fn narrow_size(section: usize) -> usize
    requires { section < 10 }
    ensures { result ≡ size section }
{
    match section {
        0 => 12,
        1 => BUFFER_SIZE,
        2 => BLAS_SIZE,
        3 => DECLARED_SIZE,
        4 => TLAS_SIZE,
        5 => ENTRY_SIZE,
        6 => GEOMETRY_SIZE,
        7 => PACKAGE_SIZE,
        8 => SLOT_SIZE,
        _ => ACTION_SIZE,
    }
}

// A record's size; the header stands as section 0. Version 1's is one lookup, and a geometry's may be wider.
pub fn size_of(version: Version, section: usize) -> usize
    requires { section < 10 }
    ensures { result ≡ size_in version section }
{
    let wider = geometry_size(version) - GEOMETRY_SIZE;
    narrow_size(section) + usize::from(section == 6) * wider
}

// The most records of a section.
pub fn most_of(section: usize) -> usize
    requires { section < 10 }
    ensures { result ≡ (layout section).most }
{
    match section {
        0 => 1,
        1 => 256,
        2 => 128,
        3 => 512,
        4 => 32,
        5 => 64,
        6 => 256,
        7 => 32,
        8 => 512,
        _ => 64,
    }
}

// How many records of `each` bytes there are; none, where a record has no bytes. A record's size is one of eleven, and a number that is known
// is divided by without a division.
pub fn records_in(bytes: usize, each: usize) -> usize
    ensures { result ≡ bytes / each }
{
    match each {
        0 => 0,
        3 => bytes / 3,
        4 => bytes / 4,
        5 => bytes / 5,
        9 => bytes / 9,
        18 => bytes / 18,
        22 => bytes / 22,
        28 => bytes / 28,
        44 => bytes / 44,
        48 => bytes / 48,
        56 => bytes / 56,
        _ => bytes / each,
    }
}

// The records of the section before, `each` bytes each: an id may name one of them, so how many there are is known once and for all.
#[derive(Clone, Copy)]
pub struct Before<'a> {
    pub records: &'a [u8],
    pub each: usize,
    pub count: usize,
    ghost counted: { count ≡ length records.now / each },
}

impl<'a> Before<'a> {
    pub fn new(records: &'a [u8], each: usize) -> Before<'a>
        ensures { (result.records ≡ records.entry) × (result.each ≡ each) }
    {
        Before {
            records,
            each,
            count: records_in(records.len(), each),
        }
    }
}

// Whether the counts at `offset` of all records of `width` bytes add up to n.
fn sums_to(t: &[u8], width: usize, offset: usize, n: usize) -> bool
    requires { (offset + 2 ≤ width) × (width < 64) }
    ensures { result ≡ eqb (sum_of_counts t.now width offset (length t.now / width)) n }
{
    let mut q = offset;
    let mut rest = n;
    for _ in 0..t.len() / width {
        let count = usize::from(u16_at(t, q));
        if rest < count {
            return false;
        }
        rest -= count;
        q += width;
    }
    rest == 0
}

pub fn adds_up(section: usize, before: &[u8], n: usize) -> bool
    ensures { result ≡ adds_up section before.now n }
{
    if section == 6 {
        return sums_to(before, ENTRY_SIZE, 3, n);
    }
    if section == 8 {
        return sums_to(before, PACKAGE_SIZE, 2, n);
    }
    true
}
