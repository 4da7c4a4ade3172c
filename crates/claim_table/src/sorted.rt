//! Queues that are kept in order: what is put in and taken out stands at its place.
ghost use Rattle.std.specs.Prelude.{◌≡◌, ◌<◌, ◌≤◌, ◌∷◌, ◌+◌, ℕ, true, false, length, remove, slice_index_or};
ghost use Rattle.std.specs.VecDeque.{deque_capacity, deque_len};
ghost use Rattle.std.specs.List.{Contains};
ghost use Rattle.std.specs.List.Sorted.{IsPermutation};
ghost use Rattle.std.specs.Ordering.{is_eq, is_lt};
ghost use Rattle.claim_table.specs.Sorted.{IsAscending, StandsAt};

use std::collections::VecDeque;

// A place for the value, with none that is greater before it and none that is less from it on.
pub(crate) fn place_for<T: Ord + Copy + Drop>(kept: &VecDeque<T>, value: &T) -> usize
    requires ascending { IsAscending T.cmp kept.now.items }
    requires counted { deque_len kept.now ≡ length kept.now.items }
    ensures { StandsAt T.cmp kept.now.items value.now result }
{
    match kept.binary_search(value) {
        Ok(at) => at,
        Err(at) => at,
    }
}

// Puts the value where the order wants it. There is room for it.
pub(crate) fn put_in<T: Ord + Copy + Drop>(kept: &mut VecDeque<T>, value: T)
    requires room { deque_len kept.old < deque_capacity kept.old }
    requires counted { deque_len kept.old ≡ length kept.old.items }
    requires ascending { IsAscending T.cmp kept.old.items }
    ensures ascending { IsAscending T.cmp kept.new.items }
    ensures items { IsPermutation (value ∷ kept.old.items) kept.new.items }
    ensures length { deque_len kept.new ≡ deque_len kept.old + 1 }
    ensures counted { deque_len kept.new ≡ length kept.new.items }
    ensures capacity { deque_capacity kept.old ≤ deque_capacity kept.new }
{
    let at = place_for(kept, &value);
    match kept.insert(at, value) {
        Ok(()) => {}
        Err(_) => unreachable!(),
    }
}

// Takes out what stands at this place. The shorter side moves.
pub(crate) fn take_at<T>(kept: &mut VecDeque<T>, at: usize) -> T
    requires within { at < length kept.old.items }
    requires counted { deque_len kept.old ≡ length kept.old.items }
    ensures value { (d : T) → result ≡ slice_index_or kept.old.items at d }
    ensures items { kept.new.items ≡ remove kept.old.items at }
    ensures length { deque_len kept.old ≡ deque_len kept.new + 1 }
    ensures counted { deque_len kept.new ≡ length kept.new.items }
    ensures capacity { deque_capacity kept.new ≡ deque_capacity kept.old }
{
    match kept.remove(at) {
        Some(value) => value,
        None => unreachable!(),
    }
}

// Takes the value out, which is there.
pub(crate) fn take_out<T: Ord + Copy + Drop>(kept: &mut VecDeque<T>, value: &T)
    requires there { Contains kept.old.items value.now }
    requires counted { deque_len kept.old ≡ length kept.old.items }
    requires ascending { IsAscending T.cmp kept.old.items }
    requires exact { (y : T) → is_eq (T.cmp y value.now) ≡ true → y ≡ value.now }
    ensures ascending { IsAscending T.cmp kept.new.items }
    ensures items { IsPermutation kept.old.items (value.now ∷ kept.new.items) }
    ensures length { deque_len kept.old ≡ deque_len kept.new + 1 }
    ensures counted { deque_len kept.new ≡ length kept.new.items }
    ensures capacity { deque_capacity kept.new ≡ deque_capacity kept.old }
{
    match kept.binary_search(value) {
        Ok(at) => {
            take_at(kept, at);
        }
        Err(_) => unreachable!(),
    }
}
