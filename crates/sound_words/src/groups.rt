// Canonical groups of words: each is tested by its tag and the limit of its number, and a row by its groups, an object's by its kind.
// Tags are numbers here, and no enums: these tests ask of the lent words whether they are the ones that a value is written in.
ghost use Rattle.std.specs.Prelude.{◌≡◌, eqb};
ghost use Rattle.asyncio.specs.Numbers.{to_u32};
ghost use Rattle.sound_words.specs.PartLaws.{zeros, value_same, option_same, error_same, awaiter_same, stretch_same, state_same, object_row_same, task_row_same, place_row_same};
ghost use Rattle.sound_words.specs.PartLaws.{unmade_same, coroutine_same, pending_same, resolved_same, failed_same, resting_same, awaited_same, broken_same};

use asyncio::words::to_u32;
use asyncio::{ITEMS, OBJECTS, PLACES, TASKS, U32_LIMIT};

// ---- groups

// Three words that mean nothing.
#[tactic(auto, using(crate::specs::Loops::both), unfolding(crate::specs::PartLaws::zeros))]
fn are_zero(a: u64, b: u64, c: u64) -> bool
    ensures { result ≡ zeros a b c }
{
    a == 0 && b == 0 && c == 0
}

// A number of 32 bits.
fn is_u32(n: u64) -> bool
    ensures { result ≡ eqb (to_u32 n) n }
{
    to_u32(n) as u64 == n
}

// The tag and the number of a value.
fn is_value(tag: u64, n: u64) -> bool
    ensures { result ≡ value_same tag n }
{
    match tag {
        0 => true,
        1 => n < OBJECTS as u64,
        _ => false,
    }
}

// The same, or none.
fn is_option(tag: u64, n: u64) -> bool
    ensures { result ≡ option_same tag n }
{
    match tag {
        0 => n == 0,
        1 => true,
        2 => n < OBJECTS as u64,
        _ => false,
    }
}

// The tag and the number of an error.
fn is_error(tag: u64, n: u64) -> bool
    ensures { result ≡ error_same tag n }
{
    match tag {
        0 | 1 => is_u32(n),
        2..=6 => n == 0,
        _ => false,
    }
}

// The three words of an awaiter.
fn is_awaiter(tag: u64, a: u64, b: u64) -> bool
    ensures { result ≡ awaiter_same tag a b }
{
    match tag {
        0 => a == 0 && b == 0,
        1 => a < TASKS as u64 && b == 0,
        2 => a < OBJECTS as u64 && b < OBJECTS as u64,
        _ => false,
    }
}

// The first place of a gather, and how many it has.
fn is_stretch(first: u64, n: u64) -> bool
    ensures { result ≡ stretch_same first n }
{
    first <= PLACES as u64 && n <= ITEMS as u64 && first + n <= PLACES as u64
}

// The three words of a task's state.
fn is_state(tag: u64, a: u64, b: u64) -> bool
    ensures { result ≡ state_same tag a b }
{
    match tag {
        0..=2 => a == 0 && b == 0,
        3 => is_value(a, b),
        4 => is_error(a, b),
        5 => a < OBJECTS as u64 && b == 0,
        _ => false,
    }
}

// ---- tasks and places

// A task's row.
pub fn is_task(w: [u64; 8]) -> bool
    ensures { result ≡ task_row_same w }
{
    is_awaiter(w[1], w[2], w[3]) && w[4] < OBJECTS as u64 && is_state(w[0], w[5], w[6]) && w[7] == 0
}

// A place's row.
pub fn is_place(w: [u64; 4]) -> bool
    ensures { result ≡ place_row_same w }
{
    w[0] < OBJECTS as u64 && is_option(w[1], w[2]) && w[3] == 0
}

// ---- the words of an object behind its kind

// An object that is not made.
#[tactic(auto, using(crate::specs::Loops::both), unfolding(crate::specs::PartLaws::unmade_same))]
fn is_unmade(w: [u64; 8]) -> bool
    ensures { result ≡ unmade_same w }
{
    are_zero(w[1], w[2], w[3]) && w[4] == 0 && are_zero(w[5], w[6], w[7])
}

// A coroutine, in any state.
#[tactic(auto, using(crate::specs::Loops::both), unfolding(crate::specs::PartLaws::coroutine_same))]
fn is_coroutine(w: [u64; 8]) -> bool
    ensures { result ≡ coroutine_same w }
{
    are_zero(w[1], w[2], w[3]) && is_u32(w[4]) && are_zero(w[5], w[6], w[7])
}

// A pending external.
#[tactic(auto, using(crate::specs::Loops::both), unfolding(crate::specs::PartLaws::pending_same))]
fn is_pending(w: [u64; 8]) -> bool
    ensures { result ≡ pending_same w }
{
    is_awaiter(w[1], w[2], w[3]) && w[4] < U32_LIMIT && is_option(w[5], w[6]) && w[7] == 0
}

// A resolved external.
#[tactic(auto, using(crate::specs::Loops::both), unfolding(crate::specs::PartLaws::resolved_same))]
fn is_resolved(w: [u64; 8]) -> bool
    ensures { result ≡ resolved_same w }
{
    are_zero(w[1], w[2], w[3]) && w[4] < U32_LIMIT && is_value(w[5], w[6]) && w[7] == 0
}

// A failed external.
#[tactic(auto, using(crate::specs::Loops::both), unfolding(crate::specs::PartLaws::failed_same))]
fn is_failed(w: [u64; 8]) -> bool
    ensures { result ≡ failed_same w }
{
    are_zero(w[1], w[2], w[3]) && w[4] < U32_LIMIT && is_error(w[5], w[6]) && w[7] == 0
}

// A gather that is pending or completed.
#[tactic(auto, using(crate::specs::Loops::both), unfolding(crate::specs::PartLaws::resting_same))]
fn is_resting(w: [u64; 8]) -> bool
    ensures { result ≡ resting_same w }
{
    are_zero(w[1], w[2], w[3]) && is_stretch(w[4], w[5]) && w[6] == 0 && w[7] == 0
}

// An awaited gather.
#[tactic(auto, using(crate::specs::Loops::both), unfolding(crate::specs::PartLaws::awaited_same))]
fn is_awaited(w: [u64; 8]) -> bool
    ensures { result ≡ awaited_same w }
{
    is_awaiter(w[1], w[2], w[3]) && is_stretch(w[4], w[5]) && is_u32(w[6]) && w[7] == 0
}

// A failed gather.
#[tactic(auto, using(crate::specs::Loops::both), unfolding(crate::specs::PartLaws::broken_same))]
fn is_broken(w: [u64; 8]) -> bool
    ensures { result ≡ broken_same w }
{
    are_zero(w[1], w[2], w[3]) && is_stretch(w[4], w[5]) && is_error(w[6], w[7])
}

// An object's row.
pub fn is_object(w: [u64; 8]) -> bool
    ensures { result ≡ object_row_same w }
{
    match w[0] {
        0 => is_unmade(w),
        1..=3 => is_coroutine(w),
        4 => is_pending(w),
        5 => is_resolved(w),
        6 => is_failed(w),
        7 | 9 => is_resting(w),
        8 => is_awaited(w),
        10 => is_broken(w),
        _ => false,
    }
}
