//! Netlists that are made at random, as texts.
use crate::cells::{GATES, Kind, STATES, Size};
use crate::random::Random;
use std::alloc::{AllocError, Global};
use std::mem;

/// The widths of one netlist's ports, in bits; the first is 1, and the third is greater than the second.
pub(crate) type Widths = [u128; 4];

/// A port.
#[derive(Drop)]
struct Port {
    name: String,
    width: u128,
}

/// A netlist under way: the lines of its ports, its cells and its assignments, what may be read so far, and what is driven last.
#[derive(Drop)]
struct Maker {
    alloc: Global,
    random: Random,
    widths: Widths,
    ports: String,
    cells: String,
    sets: String,
    readable: Vec<Port>,
    late: Vec<Port>,
}

/// The text of the netlist with this number. No port comes from itself.
pub(crate) fn make(alloc: Global, number: u64, widths: Widths) -> Result<String, AllocError> {
    let mut maker = Maker {
        alloc,
        random: Random::new(number),
        widths,
        ports: String::new(alloc),
        cells: String::new(alloc),
        sets: String::new(alloc),
        readable: Vec::new(alloc),
        late: Vec::new(alloc),
    };
    maker.add_inputs()?;
    maker.add_outputs()?;
    maker.add_wires()?;
    maker.add_cells()?;
    maker.drive_late()?;
    let Maker {
        ports,
        cells,
        sets,
        ..
    } = &maker;
    format!(in alloc; "net made\n{ports}{cells}{sets}end\n")
}

impl Maker {
    /// One of the netlist's widths.
    fn width(&mut self) -> u128 {
        let widths = self.widths;
        self.random.pick(&widths).unwrap_or(1)
    }

    /// A number of a cell's line, by the width that is drawn for the cell.
    fn size(&mut self, size: Size, drawn: u128) -> u128 {
        let [_, less, more, _] = self.widths;
        match size {
            Size::Drawn => drawn,
            Size::Less => less,
            Size::More => more,
            Size::Over => more.saturating_sub(less),
            Size::Highest => more.saturating_sub(1),
            Size::Is(number) => number,
            Size::Any => self.random.bits(drawn),
        }
    }

    fn add_inputs(&mut self) -> Result<(), AllocError> {
        for (number, width) in self.widths.iter().enumerate() {
            let line = format!(in self.alloc; "in i{number} {width}\n")?;
            self.ports.push_str(line.as_str())?;
            let name = format!(in self.alloc; "i{number}")?;
            let width = *width;
            self.readable.push(Port { name, width })?;
        }
        Ok(())
    }

    fn add_outputs(&mut self) -> Result<(), AllocError> {
        for (number, width) in self.widths.iter().enumerate() {
            let line = format!(in self.alloc; "out o{number} {width}\n")?;
            self.ports.push_str(line.as_str())?;
            let name = format!(in self.alloc; "o{number}")?;
            let width = *width;
            self.late.push(Port { name, width })?;
        }
        Ok(())
    }

    fn add_wires(&mut self) -> Result<(), AllocError> {
        for number in 0..self.random.below(4) {
            let width = self.width();
            let line = format!(in self.alloc; "wire w{number} {width}\n")?;
            self.ports.push_str(line.as_str())?;
            let name = format!(in self.alloc; "w{number}")?;
            self.drive(name.as_str(), width)?;
            self.readable.push(Port { name, width })?;
        }
        Ok(())
    }

    fn add_cells(&mut self) -> Result<(), AllocError> {
        for number in 0..self.random.below(4) {
            if let Some(kind) = self.random.pick(&STATES) {
                let name = format!(in self.alloc; "s{number}")?;
                self.add_cell(name.as_str(), kind)?;
            }
        }
        for number in 0..self.random.below(12) {
            if let Some(kind) = self.random.pick(&GATES) {
                let name = format!(in self.alloc; "g{number}")?;
                self.add_cell(name.as_str(), kind)?;
            }
        }
        Ok(())
    }

    /// A cell. Its outputs may be read by all that comes after it.
    fn add_cell(&mut self, cell: &str, kind: Kind) -> Result<(), AllocError> {
        let (prim, params, inputs, late, outputs) = kind;
        let drawn = self.width();
        self.add_line(cell, prim, params, drawn)?;
        for (pin, size) in inputs {
            let name = format!(in self.alloc; "{cell}.{pin}")?;
            let width = self.size(*size, drawn);
            self.drive(name.as_str(), width)?;
        }
        for (pin, size) in late {
            let name = format!(in self.alloc; "{cell}.{pin}")?;
            let width = self.size(*size, drawn);
            self.late.push(Port { name, width })?;
        }
        for (pin, size) in outputs {
            let name = format!(in self.alloc; "{cell}.{pin}")?;
            let width = self.size(*size, drawn);
            self.readable.push(Port { name, width })?;
        }
        Ok(())
    }

    /// The line of a cell.
    fn add_line(
        &mut self,
        cell: &str,
        prim: &str,
        params: &[Size],
        drawn: u128,
    ) -> Result<(), AllocError> {
        let word = if prim.contains("mem") { "ext" } else { "cell" };
        let line = format!(in self.alloc; "{word} {cell} {prim}")?;
        self.cells.push_str(line.as_str())?;
        for param in params {
            let number = self.size(*param, drawn);
            let word = format!(in self.alloc; " {number}")?;
            self.cells.push_str(word.as_str())?;
        }
        self.cells.push_str("\n")
    }

    /// Drives the outputs and the inputs of cells that are left.
    fn drive_late(&mut self) -> Result<(), AllocError> {
        let late = mem::replace(&mut self.late, Vec::new(self.alloc));
        for port in late.iter() {
            self.drive(port.name.as_str(), port.width)?;
        }
        Ok(())
    }

    /// A source of a width: a port, or a literal.
    fn source(&mut self, width: u128) -> Result<String, AllocError> {
        for _try in 0..8usize {
            let place = self.random.below(self.readable.len());
            if let Some(port) = self.readable.as_slice().get(place)
                && port.width == width
            {
                return String::from_str(self.alloc, port.name.as_str());
            }
        }
        let value = self.random.bits(width);
        format!(in self.alloc; "{width}'d{value}")
    }

    /// A comparison of two sources, or a source of one bit.
    fn atom(&mut self) -> Result<String, AllocError> {
        if self.random.below(2) == 0 {
            return self.source(1);
        }
        let width = self.width();
        let left = self.source(width)?;
        let right = self.source(width)?;
        let op = self
            .random
            .pick(&["==", "!=", "<", ">", "<=", ">="])
            .unwrap_or("==");
        format!(in self.alloc; "({left} {op} {right})")
    }

    /// A guard, at most two lists deep.
    fn guard(&mut self) -> Result<String, AllocError> {
        let mut guard = self.atom()?;
        for _level in 0..2usize {
            match self.random.below(5) {
                0 => guard = format!(in self.alloc; "!{guard}")?,
                1 => {
                    let other = self.atom()?;
                    guard = format!(in self.alloc; "({guard} & {other})")?;
                }
                2 => {
                    let other = self.atom()?;
                    let third = self.atom()?;
                    guard = format!(in self.alloc; "({other} | !{guard} | {third})")?;
                }
                _ => {}
            }
        }
        Ok(guard)
    }

    /// An assignment to a port, under a guard unless that is empty.
    fn set(&mut self, port: &str, guard: &str, width: u128) -> Result<(), AllocError> {
        let source = self.source(width)?;
        let line = if guard.is_empty() {
            format!(in self.alloc; "set {port} = {source}\n")?
        } else {
            format!(in self.alloc; "set {port} = {guard} ? {source}\n")?
        };
        self.sets.push_str(line.as_str())
    }

    /// Assignments to a port: none, one, one under a guard, two under opposite guards, some by the number that a port has, or
    /// some under any guards, which may have a Conflict.
    fn drive(&mut self, port: &str, width: u128) -> Result<(), AllocError> {
        match self.random.below(12) {
            0 => Ok(()),
            1..=4 => self.set(port, "", width),
            5..=6 => {
                let guard = self.guard()?;
                self.set(port, guard.as_str(), width)
            }
            7..=8 => {
                let guard = self.guard()?;
                let negated = format!(in self.alloc; "!{guard}")?;
                self.set(port, guard.as_str(), width)?;
                self.set(port, negated.as_str(), width)
            }
            9..=10 => self.drive_by_number(port, width),
            _ => self.drive_by_any(port, width),
        }
    }

    /// Assignments to a port by the number that another has; now and then two ask for one number, which may be a Conflict.
    fn drive_by_number(&mut self, port: &str, width: u128) -> Result<(), AllocError> {
        let [_, by, _, _] = self.widths;
        let on = self.source(by)?;
        for number in 0..4usize {
            let asked = if self.random.below(8) == 0 { 2 } else { number };
            let guard = self.asking(on.as_str(), by, asked)?;
            self.set(port, guard.as_str(), width)?;
        }
        Ok(())
    }

    /// A guard that asks a port of this width for a number, and sometimes for more.
    fn asking(&mut self, on: &str, by: u128, number: usize) -> Result<String, AllocError> {
        if self.random.below(3) == 0 {
            let other = self.atom()?;
            format!(in self.alloc; "(({on} == {by}'d{number}) & {other})")
        } else {
            format!(in self.alloc; "({on} == {by}'d{number})")
        }
    }

    fn drive_by_any(&mut self, port: &str, width: u128) -> Result<(), AllocError> {
        for _set in 0..self.random.pick(&[2, 3]).unwrap_or(2) {
            let guard = self.guard()?;
            self.set(port, guard.as_str(), width)?;
        }
        Ok(())
    }
}
