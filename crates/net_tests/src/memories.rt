//! Shown memories that are loaded, written and read.
ghost use Rattle.std.specs.Prelude.{◌≡◌, length, IsTrue};
ghost use Rattle.net_core.specs.Netlist.{netlist_of};
ghost use Rattle.net_sim.specs.Shown.{shown_cells, HasWord};
ghost use Rattle.net_sim.specs.declared.sim.Phase.TheVariants.{Fresh};

use crate::case::net_of;
use crate::rows::{Row, check_rows};
use hw_bits::Bits;
use net_core::{Net, valid};
use net_sim::{Sim, order};
use std::process::Abort;
use std::test::Fail;

/// Two shown memories, after one that is not shown; the first is written and read.
const MEMORIES: &str = "net memories
in at 2
in data 8
in en 1
out q 8
cell h std_mem_d1 8 2 1
ext m std_mem_d1 8 4 2
ext n std_mem_d2 4 2 2 1 1
set m.addr0 = at
set m.write_data = data
set m.write_en = en
set q = m.read_data
end
";

const ROWS: [Row; 4] = [
    (&[1, 5, 0], "", "q=17"),
    (&[1, 5, 1], "", "q=17"),
    (&[1, 0, 0], "", "q=5"),
    (&[2, 0, 0], "", "q=6"),
];

/// The number of a shown memory, the place of a word, its width in bits, and its value.
type Word = (usize, usize, u8, u128);

/// What is loaded; one word twice.
const LOADS: [Word; 4] = [(0, 1, 8, 17), (1, 3, 4, 9), (0, 2, 8, 4), (0, 2, 8, 6)];

/// The words before the first row, and after the last.
const LOADED: [Word; 5] = [
    (0, 0, 8, 0),
    (0, 1, 8, 17),
    (0, 2, 8, 6),
    (1, 3, 4, 9),
    (1, 0, 4, 0),
];

const LEFT: [Word; 4] = [(0, 0, 8, 0), (0, 1, 8, 5), (0, 2, 8, 6), (1, 3, 4, 9)];

/// How many memories are shown.
fn shown_count(net: &Net) -> usize
    ensures { result ≡ length (shown_cells (netlist_of net.now)) }
{
    net.cells.iter().filter(|cell| cell.shown).count()
}

/// Whether there is such a word, where so many memories are shown.
fn has_word(sim: &Sim, shown: usize, mem: usize, at: usize) -> bool
    requires { shown ≡ length (shown_cells (netlist_of sim.now.net)) }
    ensures { IsTrue result → HasWord (netlist_of sim.now.net) mem at }
{
    mem < shown && at < sim.word_count(mem)
}

/// Loads words before the first row.
fn load_words(rt: &impl Abort, sim: &mut Sim, shown: usize, words: &[Word]) -> Result<(), Fail>
    requires fresh { sim.old.phase ≡ Fresh }
    requires shown { shown ≡ length (shown_cells (netlist_of sim.old.net)) }
    ensures net { sim.new.net ≡ sim.old.net }
    ensures values { length sim.new.values ≡ length sim.old.values }
{
    for (mem, at, width, value) in words {
        let word = Bits::new(*value, *width).ok_or("width")?;
        assert!(rt; has_word(sim, shown, *mem, *at));
        assert!(rt; word.width() == sim.word(*mem, *at).width());
        sim.load(*mem, *at, word);
    }
    Ok(())
}

/// Compares words with what is told.
fn check_words(rt: &impl Abort, sim: &Sim, shown: usize, words: &[Word])
    requires { shown ≡ length (shown_cells (netlist_of sim.now.net)) }
{
    for (mem, at, width, value) in words {
        assert!(rt; has_word(sim, shown, *mem, *at));
        let word = sim.word(*mem, *at);
        assert_eq!(rt; word.width(), *width, "memory {mem}, word {at}");
        assert_eq!(rt; word.value(), *value, "memory {mem}, word {at}");
    }
}

#[test]
fn shown_memories_are_loaded_and_read(rt: HostRuntime) -> Result<(), Fail> {
    let alloc = rt.alloc();
    let net = net_of(alloc, MEMORIES)?;
    let table = valid(alloc, &net)?;
    let order = order(alloc, &net, &table)?;
    let mut sim = Sim::new(alloc, &net, &table, &order)?;
    let shown = shown_count(&net);
    assert_eq!(rt; shown, 2);
    load_words(&rt, &mut sim, shown, &LOADS)?;
    check_words(&rt, &sim, shown, &LOADED);
    check_rows(alloc, &net, &table, &mut sim, &ROWS)?;
    check_words(&rt, &sim, shown, &LEFT);
    Ok(())
}
