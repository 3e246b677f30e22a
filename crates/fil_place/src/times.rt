//! Times by numbers of a component's events, and the intervals of ports.
ghost use Rattle.std.specs.Prelude.{◌^◌, ◌<◌, List, IfSome};
ghost use Rattle.hw_names.specs.Name.{Text};
ghost use Rattle.fil_ast.specs.Timeline.{interval_at};
ghost use Rattle.fil_ast.specs.Tree.{TimeAt};
ghost use Rattle.fil_sig.specs.Seen.{seen_port};
ghost use Rattle.fil_place.specs.Callees.{HasSmallInterval};
ghost use Rattle.fil_place.specs.Times.{AreTimes, ShowsInterval};

use fil_sig::SigPort;

/// So many rows after the component's event with this number, counted from 0.
#[derive(Clone, Copy, Debug, PartialEq, Eq)]
pub struct Offset {
    pub event: usize,
    pub plus: u16,
}

/// The rows from `from` to before `to` after the component's event with this number.
#[derive(Clone, Copy, Debug, PartialEq, Eq)]
pub struct Interval {
    pub event: usize,
    pub from: u128,
    pub to: u128,
}

/// The interval of a callee's port, where the callee's events are at these times.
pub fn interval_at(at: &[Offset], port: &SigPort) -> Option<Interval>
    ensures shown { (events : List Text) (times : List TimeAt) → AreTimes events at.now times
        → ShowsInterval events result (interval_at times (seen_port port.now)) }
    ensures small { HasSmallInterval (seen_port port.now) → IfSome result (λ interval. interval.to < 2 ^ 32) }
{
    let start = at.get(port.from.event as usize)?;
    let end = at.get(port.to.event as usize)?;
    Some(Interval {
        event: start.event,
        from: start.plus as u128 + port.from.plus as u128,
        to: end.plus as u128 + port.to.plus as u128,
    })
}
