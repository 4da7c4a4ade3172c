//! Three comparisons.
ghost use Rattle.std.specs.Prelude.{◌≡◌, ◌<◌};

use std::cmp::Ordering;
use std::marker::Brand;
use std::sync::ledger::{Blank, Ledger};
use step_count::Steps;

fn compared<L: Ledger>(blank: Blank) -> (bool, bool, Ordering)
    requires name { blank.name ≡ L.name }
    requires parts { blank.parts ≡ L.parts }
    requires some { 0 < blank.parts }
{
    let mut steps = Steps::<L>::new(blank);
    (
        steps.is_at_most(3, 3),
        steps.is_at_most(4, 3),
        steps.compare(4, 3),
    )
}

#[test]
fn keys_are_compared(rt: HostRuntime) {
    let found = compared::<Brand>(Blank::new(1));
    assert_eq!(rt; found, (true, false, Ordering::Greater));
}
