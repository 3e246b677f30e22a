//! The laws, one function each.
ghost use Rattle.ver_runs.specs.Rows.{FirstRowsAreRows, PortsAreDeclared, PortsAreDriven};

/// The module of a netlist declares each port with its width.
pub fn ports_are_declared()
    ensures { PortsAreDeclared }
{}

/// In each cycle of the module a port has the value of the first of its assignments whose guard is true.
pub fn ports_are_driven()
    ensures { PortsAreDriven }
{}

/// Where a row of the netlist has no Conflict, what the first assignments give is that row, port by port.
pub fn first_rows_are_rows()
    ensures { FirstRowsAreRows }
{}
