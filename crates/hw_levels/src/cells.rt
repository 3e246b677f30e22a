//! Ports of cells that are made of components.
ghost use Rattle.std.specs.Prelude.{◌≡◌, ◌<◌, ◌↔◌, All, Contains, length, IsTrue};
ghost use Rattle.hw_levels.specs.Levels.{IsBelow, MayReach};
ghost use Rattle.hw_levels.specs.inside.Walk.{inputs_of, IsBefore, Allows, HasGone};
ghost use Rattle.hw_levels.specs.declared.cells.CellPort.{CellPort};

/// A port of a cell that is made of a component.
#[derive(Clone, Copy, Debug, PartialEq, Eq, PartialOrd, Ord)]
pub struct CellPort {
    /// The number of the cell.
    pub cell: usize,
    /// The port's level in the cell's component.
    pub level: usize,
    /// The port's number in the graph of the cell's holder.
    pub node: usize,
    pub is_input: bool,
}

/// How far a walk over such ports has come.
#[derive(Clone, Copy)]
struct Walk {
    cell: usize,
    /// The level of the last port in its cell's component.
    level: usize,
    /// The greatest level in the holder of an input of the cell so far.
    inputs: Option<usize>,
}

impl Walk {
    /// The greatest level of an input so far of this cell.
    fn inputs_of(self, cell: usize) -> Option<usize>
        ensures { result ≡ inputs_of self cell }
    {
        if cell == self.cell { self.inputs } else { None }
    }

    /// Whether the port may come next.
    fn is_before(self, port: CellPort) -> bool
        ensures { IsTrue result ↔ IsBefore self port }
    {
        self.cell < port.cell || self.cell == port.cell && self.level <= port.level
    }

    /// The walk after this port, whose level in the holder is given.
    fn over(self, port: CellPort, level: usize) -> Walk
        ensures { HasGone self result port level }
    {
        let inputs = self.inputs_of(port.cell);
        Walk {
            cell: port.cell,
            level: port.level,
            inputs: if port.is_input {
                Some(inputs.map_or(level, |most| most.max(level)))
            } else {
                inputs
            },
        }
    }

    /// Whether the level of the port in the holder is above those of the inputs so far of its cell; that of an input need not be.
    fn allows(self, port: CellPort, level: usize) -> bool
        ensures { IsTrue result ↔ Allows self port level }
    {
        port.is_input || self.inputs_of(port.cell).is_none_or(|most| most < level)
    }
}

/// Whether these levels have each output of a cell above the inputs of it that it may reach. The ports have to stand cell by
/// cell, and in each by their levels in its component: where they don't, the answer is no.
pub(crate) fn keeps_levels(ports: &[CellPort], levels: &[usize]) -> bool
    requires { All (λ port. port.node < length levels.now) ports.now }
    ensures { IsTrue result → (output input : CellPort) → Contains ports.now output → Contains ports.now input → MayReach output input
        → IsBelow levels.now input.node output.node }
{
    let mut walk = Walk {
        cell: 0,
        level: 0,
        inputs: None,
    };
    for port in ports {
        let level = levels[port.node];
        if !walk.is_before(*port) || !walk.allows(*port, level) {
            return false;
        }
        walk = walk.over(*port, level);
    }
    true
}
