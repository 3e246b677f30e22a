//! The rows in which an argument is given.
ghost use Rattle.std.specs.Prelude.{◌≡◌, ◌<◌, ◌≤◌, List, map, All, IfSome, option_map};
ghost use Rattle.hw_names.specs.Name.{Text};
ghost use Rattle.fil_ast.specs.Limits.{KeepsTimeLimit};
ghost use Rattle.fil_ast.specs.Numbers.{IsNumberOf, TimeHasNumber};
ghost use Rattle.fil_ast.specs.Timeline.{interval_at};
ghost use Rattle.fil_ast.specs.Tree.{time_tree};
ghost use Rattle.fil_sig.specs.Seen.{seen_port};
ghost use Rattle.hw_limits.specs.declared.limits.TheConstants.{MOST_ROWS};
ghost use Rattle.fil_lower.specs.inside.Parts.{IsGoodPort, interval_shown};

use fil_ast::Time;
use fil_sig::SigPort;
use hw_names::NameId;

/// The rows from `from` to before `to` after an event of the component.
#[derive(Clone, Copy)]
pub(crate) struct Interval {
    pub event: NameId,
    pub from: u64,
    pub to: u64,
}

/// The interval of a callee's port, where the callee's events are at these times.
pub(crate) fn interval_at(at: &[Time], port: &SigPort) -> Option<Interval>
    requires times { All KeepsTimeLimit at.now }
    requires port { IsGoodPort (seen_port port.now) }
    ensures shown { (names : List Text) → option_map (interval_shown names) result ≡ interval_at (map (time_tree names) at.now) (seen_port port.now) }
    ensures numbers { (names : List Text) → All (TimeHasNumber names) at.now → IfSome result (λ i. IsNumberOf names i.event) }
    ensures ordered { IfSome result (λ i. i.from < i.to) }
    ensures small { IfSome result (λ i. i.to ≤ MOST_ROWS) }
{
    let start = *at.get(port.from.event as usize)?;
    let end = *at.get(port.to.event as usize)?;
    Some(Interval {
        event: start.event,
        from: start.plus as u64 + port.from.plus,
        to: end.plus as u64 + port.to.plus,
    })
}
