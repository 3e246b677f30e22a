//! Meets of a few uses, counted by hand.
ghost use Rattle.std.specs.Prelude.{◌≡◌};

use fil_share::{Hold, Meet, meeting};
use hw_names::NameId;

/// A use of event 0 in the rows `[from, to)`.
fn hold(from: u64, to: u64) -> Hold
    ensures from { result.from ≡ from }
    ensures to { result.to ≡ to }
{
    Hold {
        inst: NameId(0),
        event: 0,
        from,
        to,
        call: NameId(1),
        tx: 0,
    }
}

#[test]
fn uses_meet(rt: HostRuntime) {
    let next = [hold(0, 3), hold(3, 6)];
    assert_eq!(rt; meeting(&next, 6), None);
    assert_eq!(rt; meeting(&next, 5), Some(Meet { gap: 5, cycle: 5 }));
    let over = [hold(0, 3), hold(2, 5)];
    assert_eq!(rt; meeting(&over, 6), Some(Meet { gap: 0, cycle: 2 }));
    let alone = [hold(1, 9)];
    assert_eq!(rt; meeting(&alone, 6), None);
}
