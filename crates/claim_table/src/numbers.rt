//! Looking for pieces by number.
ghost use Rattle.std.specs.Prelude.{◌≡◌, ◌≤◌, false, length, nat_lt, position, true};
ghost use Rattle.std.specs.List.Sorted.{IsNonDecreasingBy, IsPartitionPoint};
ghost use Rattle.std.specs.VecDeque.{deque_len};
ghost use Rattle.claim_table.specs.Steps.{has_number, place_by_number};

use crate::Claim;
use std::collections::VecDeque;

// Where the first piece with this number or a greater one stands, or how many there are. They stand in order.
pub(crate) fn first_from(claims: &VecDeque<Claim>, number: u64) -> usize
    requires order { IsNonDecreasingBy (λ c. c.number) claims.now.items }
    requires counted { deque_len claims.now ≡ length claims.now.items }
    ensures parts { IsPartitionPoint (λ c. nat_lt c.number number ≡ true) (λ c. nat_lt c.number number ≡ false) claims.now.items result }
    ensures place { result ≡ place_by_number claims.now.items number }
    ensures within { result ≤ length claims.now.items }
{
    claims.partition_point(
        |claim: &Claim| -> bool
            ensures { result ≡ nat_lt claim.now.number number }
        { claim.number < number },
    )
}

// Where the piece of this number stands, if it is among these. They stand in order.
pub(crate) fn find_number(claims: &VecDeque<Claim>, number: u64) -> Option<usize>
    requires order { IsNonDecreasingBy (λ c. c.number) claims.now.items }
    requires counted { deque_len claims.now ≡ length claims.now.items }
    ensures { result ≡ position (has_number number) claims.now.items }
{
    let at = first_from(claims, number);
    if at < claims.len() && claims[at].number == number {
        Some(at)
    } else {
        None
    }
}
