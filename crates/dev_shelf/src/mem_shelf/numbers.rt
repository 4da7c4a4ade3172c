//! Lists of numbers that are used up one by one: picks and choices.
ghost use Rattle.std.specs.Prelude.{◌≡◌, drop, slice_index};

/// The next number of the list, and 0 after the last.
pub fn next_of(list: &Vec<u64>, taken: &mut usize) -> u64
    ensures number { result ≡ slice_index (drop taken.old list.now.items) 0 }
    ensures left { drop taken.new list.now.items ≡ drop 1 (drop taken.old list.now.items) }
{
    if *taken < list.len() {
        let number = list[*taken];
        *taken += 1;
        number
    } else {
        0
    }
}
