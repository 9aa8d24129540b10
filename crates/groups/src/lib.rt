// Groups of slots, opened: the slots of the last group, in written order, as records of section 8.
#![tactic(auto)]

ghost use Rattle.std.specs.Prelude.{◌≡◌, ◌+◌, ◌*◌, ◌≤◌, length, take, drop};
ghost use Rattle.std.proofs.lemmas.List.Edits.{sets};
ghost use Rattle.ray_tracing.specs.Layout.{size};
ghost use Rattle.ray_tracing.specs.Groups.{fine, judge_groups, opening_of, OpensGroups};
ghost use Rattle.groups_judge.specs.Found.{Began};
ghost use Rattle.groups.specs.Items.{Within, items_at};

use groups_judge::judge_groups;
use groups_open::open_group;
use ray_tracing::{MOST_GROUPS, MOST_SLOTS, OpenGroupsError, SLOT_SIZE};
use wire::{put_u64, u16_at, u64_at};

// A slot's bytes, as seven numbers of 8.
fn put_slot(slots: &mut [u8], to: usize, groups: &[u8], at: usize)
    requires { (to + size 8 ≤ length slots.old) × (at + size 8 ≤ length groups.now) }
    ensures { slots.new ≡ sets slots.old to (take (size 8) (drop at groups.now)) }
{
    for k in 0..7 {
        put_u64(slots, to + 8 * k, u64_at(groups, at + 8 * k));
    }
}

// The items at these places, one behind the other: an item that is a slot has the bytes of a record of section 8.
fn put_slots(groups: &[u8], places: &[usize], slots: &mut [u8])
    requires { Within groups.now places.now × (length places.now * size 8 ≤ length slots.old) }
    ensures { slots.new ≡ sets slots.old 0 (items_at groups.now places.now) }
{
    let mut to = 0;
    for at in places {
        put_slot(slots, to, groups, *at);
        to += SLOT_SIZE;
    }
}

// Groups that are judged fine, which begin at `starts`.
#[tactic(auto, using(groups_judge::proofs::Laws::fine_groups))]
fn open_judged(groups: &[u8], starts: &[usize], slots: &mut [u8]) -> Result<usize, OpenGroupsError>
    requires { (judge_groups groups.now ≡ fine) × ((64 ≤ length starts.now) × Began groups.now starts.now) }
    ensures { OpensGroups groups.now slots.old (opening_of result) slots.new }
{
    let count = u16_at(groups, 0) as usize;
    let mut places = [0usize; MOST_SLOTS];
    let n = open_group(groups, &starts[..count], count - 1, &mut places, 0)?;
    if slots.len() < n * SLOT_SIZE {
        return Err(OpenGroupsError::OutputTooShort);
    }
    put_slots(groups, &places[..n], slots);
    Ok(n * SLOT_SIZE)
}

pub fn open_groups(groups: &[u8], slots: &mut [u8]) -> Result<usize, OpenGroupsError>
    ensures { OpensGroups groups.now slots.old (opening_of result) slots.new }
{
    let mut starts = [0usize; MOST_GROUPS];
    judge_groups(groups, &mut starts)?;
    open_judged(groups, &starts, slots)
}
