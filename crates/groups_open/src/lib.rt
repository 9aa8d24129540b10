// Opening a group and opening an item call on each other until only slots are left: the group's number falls at each nested group,
// and the items left fall within one. Each group opens to a slot at least (`each_opens` of `groups`), and the 513th slot ends it:
// so at most 513 slots are reached, each through at most 64 groups, however many slots the groups name.
#![tactic(auto)]

ghost use Rattle.std.specs.Prelude.{◌≡◌, ◌+◌, ◌≤◌, ◌<◌, length};
ghost use Rattle.ray_tracing.specs.declared.OpenGroupsError.TheVariants as open-groups;
ghost use Rattle.ray_tracing.specs.Groups.{fine, item_of, item_size, group_of, judge_item, open_item, open_below, open_group};
ghost use Rattle.groups_open.specs.Places.{counted, placed, JudgedFine};

use ray_tracing::{MOST_SLOTS, NAME_SIZE, OpenGroupsError, SLOT_SIZE};
use wire::{u8_at, u16_at};

// The first slot that is too many, by its group and its item there.
#[derive(Clone, Copy)]
pub struct Full {
    pub group: usize,
    pub item: usize,
}

impl From<Full> for OpenGroupsError {
    ghost from_gives = { λ r e. e ≡ open-groups.TooManySlots r.group r.item };

    fn from(full: Full) -> OpenGroupsError {
        OpenGroupsError::TooManySlots(full.group, full.item)
    }
}

// The bytes of the item that begins at a place.
fn item_size(groups: &[u8], at: usize) -> usize
    requires { at + 1 ≤ length groups.now }
    ensures { result ≡ item_size groups.now at }
{
    if u8_at(groups, at) == 1 {
        return SLOT_SIZE;
    }
    NAME_SIZE
}

// The slots of a group, after n others: how many there are then, and where each begins stands in `places`.
#[cycle(open_group_open_item)]
pub fn open_group(
    groups: &[u8],
    starts: &[usize],
    group: usize,
    places: &mut [usize],
    n: usize,
) -> Result<usize, Full>
    requires { (JudgedFine groups.now starts.now × (group < length starts.now)) × ((512 ≤ length places.old) × (n ≤ 512)) }
    ensures answer { result ≡ counted n (open_group (group_of groups.now) group) }
    ensures places { places.new ≡ placed n (open_group (group_of groups.now) group) places.old }
{
    let start = starts[group];
    let count = u16_at(groups, start) as usize;
    let mut total = n;
    let mut at = start + 2;
    for i in 0..count {
        total = open_item(groups, starts, group, i, at, places, total)?;
        at += item_size(groups, at);
    }
    Ok(total)
}

// The slots of a group's item, which begins at a place.
#[cycle(open_group_open_item)]
fn open_item(
    groups: &[u8],
    starts: &[usize],
    group: usize,
    item: usize,
    at: usize,
    places: &mut [usize],
    n: usize,
) -> Result<usize, Full>
    requires { (JudgedFine groups.now starts.now × ((group < length starts.now) × (judge_item groups.now group item at ≡ fine)))
        × ((512 ≤ length places.old) × (n ≤ 512)) }
    ensures answer { result ≡ counted n (open_item (open_below (group_of groups.now) group) (item_of groups.now group item at)) }
    ensures places { places.new ≡
        placed n (open_item (open_below (group_of groups.now) group) (item_of groups.now group item at))
        places.old }
{
    if u8_at(groups, at) != 1 {
        return open_group(groups, starts, u16_at(groups, at + 1) as usize, places, n);
    }
    if n < MOST_SLOTS {
        places[n] = at;
        return Ok(n + 1);
    }
    Err(Full { group, item })
}
