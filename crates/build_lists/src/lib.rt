// A recorded build's action: the entries' Blases, then for each package its Tlas and the Blases of its present slots.
#![tactic(auto)]

ghost use Rattle.std.specs.Prelude.{◌≡◌, [], ◌+◌, ◌≤◌, ◌<◌, length};
ghost use Rattle.std.proofs.lemmas.List.Edits.{sets};
ghost use Rattle.ray_tracing.specs.Layout.{layout};
ghost use Rattle.ray_tracing.specs.Plan.{dependencies_from, slot_count};
ghost use Rattle.ray_tracing.specs.Parts.{entries_in, packages_in, of_packages};
ghost use Rattle.build_lists.specs.Lists.{slots_in, Drawn, dependency_of, package_list, blas_list, package_lists_in, lists_in};

use instance::present_of;
use ray_tracing::{ENTRY_SIZE, PACKAGE_SIZE, SLOT_SIZE};
use records::{entry_at, package_at, slot_count};
use wire::{u8_at, u16_at};

fn write_entry_blases(entries: &[u8], out: &mut [u16])
    requires { entries_in entries.now ≤ length out.old }
    ensures { out.new ≡ sets out.old 0 (blas_list entries.now) }
{
    for i in 0..entries.len() / ENTRY_SIZE {
        out[i] = entry_at(entries, i * ENTRY_SIZE).blas.0;
    }
}

// The Blas of slot s, if it is present, from index at on; the index past it.
fn put_dependency(slots: &[u8], s: usize, out: &mut [u16], at: usize) -> usize
    requires { (s < slots_in slots.now) × (at + length (dependency_of slots.now s) ≤ length out.old) }
    ensures value { result ≡ at + length (dependency_of slots.now s) }
    ensures out_after { out.new ≡ sets out.old at (dependency_of slots.now s) }
{
    if u8_at(slots, s * SLOT_SIZE) == 0 {
        return at;
    }
    out[at] = u16_at(slots, s * SLOT_SIZE + 1);
    at + 1
}

fn write_dependencies(slots: &[u8], first: usize, count: usize, out: &mut [u16], at: usize) -> usize
    requires count_bound { first + count ≤ slots_in slots.now }
    requires count_in_bounds { at + length (dependencies_from slots.now first count) ≤ length out.old }
    ensures value { result ≡ at + length (dependencies_from slots.now first count) }
    ensures out_after { out.new ≡ sets out.old at (dependencies_from slots.now first count) }
{
    let mut end = at;
    for s in first..first + count {
        end = put_dependency(slots, s, out, end);
    }
    end
}

// Package p's list, whose slots stand from s on, from index at on: its Tlas, how many Blases it lists, and those. The index
// past it.
fn put_package(
    packages: &[u8],
    slots: &[u8],
    p: usize,
    s: usize,
    out: &mut [u16],
    at: usize,
) -> usize
    requires p_bound { (p < packages_in packages.now)
        × (s + slot_count (of_packages [] packages.now slots.now) p ≤ slots_in slots.now)
        × (slots_in slots.now ≤ (layout 8).most) }
    requires s_in_bounds { at + length (package_list (of_packages [] packages.now slots.now) p s) ≤ length out.old }
    ensures value { result ≡ at + length (package_list (of_packages [] packages.now slots.now) p s) }
    ensures out_after { out.new
        ≡ sets out.old at (package_list (of_packages [] packages.now slots.now) p s) }
{
    let count = slot_count(packages, p);
    out[at] = package_at(packages, p * PACKAGE_SIZE).tlas.0;
    // Proved to fit: a `try_from` would be a refusal that no build has.
    out[at + 1] = present_of(slots, s, count) as u16;
    write_dependencies(slots, s, count, out, at + 2)
}

fn write_packages(packages: &[u8], slots: &[u8], out: &mut [u16], at: usize)
    requires drawn { Drawn packages.now slots.now }
    requires slots_in_bounds { at + length (package_lists_in packages.now slots.now) ≤ length out.old }
    ensures { out.new ≡ sets out.old at (package_lists_in packages.now slots.now) }
{
    let mut end = at;
    let mut s: usize = 0;
    for p in 0..packages.len() / PACKAGE_SIZE {
        end = put_package(packages, slots, p, s, out, end);
        s += slot_count(packages, p);
    }
}

// The recorded action, a Build: the entries' Blases, then the packages' lists.
pub fn write_lists(entries: &[u8], packages: &[u8], slots: &[u8], out: &mut [u16])
    requires drawn { Drawn packages.now slots.now }
    requires slots_in_bounds { length (lists_in entries.now packages.now slots.now) ≤ length out.old }
    ensures { out.new
        ≡ sets out.old 0 (lists_in entries.now packages.now slots.now) }
{
    write_entry_blases(entries, out);
    write_packages(packages, slots, out, entries.len() / ENTRY_SIZE)
}
