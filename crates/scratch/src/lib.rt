// Scratch sizes: roundings and sums that are None where they pass 2^64 - 1, and products held against a limit.
#![tactic(auto)]

ghost use Rattle.std.specs.Prelude.{◌≡◌, true, ◌+◌, ◌*◌, ◌≤◌, ltb};
ghost use Rattle.scratch.specs.Scratch.{round_up, reported, add_rounded, power_of_two};

// Whether a product, however large, is above a limit.
pub fn product_above(a: u64, b: u64, limit: u64) -> bool
    ensures { result ≡ ltb limit (a * b) }
{
    b != 0 && limit / b < a
}

pub fn align_to(size: u64, alignment: u64) -> Option<u64>
    requires { 1 ≤ alignment }
    ensures { result ≡ reported (round_up size alignment) }
{
    if is_power_of_two(alignment) {
        return align_by_mask(size, alignment);
    }
    align_by_division(size, alignment)
}

pub fn is_power_of_two(n: u64) -> bool
    ensures { result ≡ power_of_two n }
{
    n.is_power_of_two()
}

// The way of a power of two: no division and no remainder, here or in what is called. 2^64 is a multiple of each, so that a sum past
// 2^64 - 1 rounds past it too.
fn align_by_mask(size: u64, alignment: u64) -> Option<u64>
    requires { power_of_two alignment ≡ true }
    ensures { result ≡ reported (round_up size alignment) }
{
    let mask = alignment - 1;
    let sum = size.checked_add(mask)?;
    Some(sum & !mask)
}

// By hand, since `checked_next_multiple_of` divides twice.
fn align_by_division(size: u64, alignment: u64) -> Option<u64>
    requires { 1 ≤ alignment }
    ensures { result ≡ reported (round_up size alignment) }
{
    let over = size % alignment;
    if over == 0 {
        return Some(size);
    }
    size.checked_add(alignment - over)
}

// One size added to a running total.
pub fn add_rounded(total: u64, size: u64, alignment: u64) -> Option<u64>
    requires { 1 ≤ alignment }
    ensures { result ≡ reported (add_rounded total size alignment) }
{
    total.checked_add(align_to(size, alignment)?)
}
