// Groups of slots judged from the start on, and where each of them begins.
#![tactic(auto)]

ghost use Rattle.std.specs.Prelude.{◌≡◌, false, [], ◌+◌, ◌≤◌, length};
ghost use Rattle.wire.specs.Wire.{le_at};
ghost use Rattle.ray_tracing.specs.declared.GroupsError.TheVariants as groups-error;
ghost use Rattle.ray_tracing.specs.Layout.{size};
ghost use Rattle.ray_tracing.specs.Reading.{begin, judge_fields};
ghost use Rattle.ray_tracing.specs.Groups.{slot_fields, item_size, past_items, by_byte};
ghost use Rattle.ray_tracing.specs.Groups.{judge_name, judge_item, judge_group, judge_groups};
ghost use Rattle.groups_judge.specs.Found.{finding_of, ended_at, Began};

use ray_tracing::{GroupsError, MOST_GROUPS, SLOT_SIZE, SheetError, SheetRefusal, Version};
use sheet_fields::judge_records;
use wire::{u8_at, u16_at};

// Refused as a sheet is, at a byte.
fn malformed(error: SheetError, place: usize) -> GroupsError
    ensures { result ≡ groups-error.Malformed (record { error = error; place = place }) }
{
    GroupsError::Malformed(SheetRefusal { error, place })
}

// The group's number that an item at `at - 1` has.
fn judge_name(groups: &[u8], group: usize, item: usize, at: usize) -> Result<usize, GroupsError>
    requires { at ≤ length groups.now }
    ensures judged { finding_of result ≡ judge_name groups.now group item at }
    ensures ends { ended_at result (at + 2) ≡ at + 2 }
{
    if groups.len() - at < 2 {
        return Err(malformed(SheetError::Truncated, at));
    }
    if (u16_at(groups, at) as usize) < group {
        return Ok(at + 2);
    }
    Err(GroupsError::InvalidGroup(group, item))
}

// The item's byte 1 stands where a slot has its present byte, so that an item which is cut is judged as a slot.
fn judge_slot(groups: &[u8], at: usize) -> Result<usize, GroupsError>
    requires { (at + 1 ≤ length groups.now) × (le_at 1 groups.now at ≡ 1) }
    ensures judged { finding_of result ≡ by_byte (judge_fields (begin 0 [] false) groups.now (at + 1) slot_fields) }
    ensures ends { ended_at result (at + size 8) ≡ at + size 8 }
{
    if SLOT_SIZE <= groups.len() - at {
        return Ok(at + SLOT_SIZE);
    }
    judge_records(Version::One, groups, at, 1, 8, groups, 0, false)?;
    Ok(at + SLOT_SIZE)
}

fn judge_item(groups: &[u8], group: usize, item: usize, at: usize) -> Result<usize, GroupsError>
    requires { at ≤ length groups.now }
    ensures judged { finding_of result ≡ judge_item groups.now group item at }
    ensures ends { ended_at result (at + item_size groups.now at) ≡ at + item_size groups.now at }
{
    if groups.len() <= at {
        return Err(malformed(SheetError::Truncated, at));
    }
    // Bytes as they are lent.
    match u8_at(groups, at) {
        1 => judge_slot(groups, at),
        2 => judge_name(groups, group, item, at + 1),
        _ => Err(malformed(SheetError::InvalidValue, at)),
    }
}

// The group that begins at a place.
fn judge_group(groups: &[u8], group: usize, start: usize) -> Result<usize, GroupsError>
    requires { start ≤ length groups.now }
    ensures judged { finding_of result ≡ judge_group groups.now group start }
    ensures ends { ended_at result (past_items groups.now (le_at 2 groups.now start) (start + 2)) ≡
        past_items groups.now (le_at 2 groups.now start) (start + 2) }
{
    if groups.len() - start < 2 {
        return Err(malformed(SheetError::Truncated, start));
    }
    let count = u16_at(groups, start) as usize;
    if count == 0 {
        return Err(GroupsError::InvalidGroup(group, 0));
    }
    let mut at = start + 2;
    for i in 0..count {
        at = judge_item(groups, group, i, at)?;
    }
    Ok(at)
}

// All groups, and where each begins: of those that were judged, `starts` has the place.
pub fn judge_groups(groups: &[u8], starts: &mut [usize]) -> Result<usize, GroupsError>
    requires { 64 ≤ length starts.old }
    ensures judged { finding_of result ≡ judge_groups groups.now }
    ensures starts { Began groups.now starts.new }
{
    if groups.len() < 2 {
        return Err(malformed(SheetError::Truncated, 0));
    }
    let count = u16_at(groups, 0) as usize;
    if MOST_GROUPS < count {
        return Err(malformed(SheetError::TooMany, 0));
    }
    if count == 0 {
        return Err(GroupsError::InvalidGroup(0, 0));
    }
    let mut at = 2;
    for g in 0..count {
        starts[g] = at;
        at = judge_group(groups, g, at)?;
    }
    if at < groups.len() {
        return Err(malformed(SheetError::TrailingBytes, at));
    }
    Ok(at)
}
