//! Why there is no order.
use hw_bits::Memory;

/// Why there is no order of a graph's ports.
#[derive(Debug, Drop)]
pub enum OrderEnd {
    /// Each of these ports reads the next, and the last reads the first; no port occurs twice.
    /// Where names are asked for, the first is the least, by the bytes of its name, that lies on any loop.
    Loop { ports: Vec<usize> },
    /// There was no memory.
    Memory,
}

impl From<Memory> for OrderEnd {
    ghost use Rattle.std.specs.Prelude.{◌≡◌};
    ghost use Rattle.hw_graph.specs.declared.order_end.OrderEnd.TheVariants as ends;

    ghost from_gives = { λ _ end. end ≡ ends.Memory };

    fn from(_error: Memory) -> OrderEnd {
        OrderEnd::Memory
    }
}
