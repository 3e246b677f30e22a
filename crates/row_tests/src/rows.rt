//! Both simulations, row by row.
ghost use Rattle.std.specs.Prelude.{◌≡◌, ◌<◌, length, map, IfOk, IsTrue};
ghost use Rattle.hw_bits.specs.Values.{widths_of};
ghost use Rattle.net_core.specs.Netlist.{netlist_of};
ghost use Rattle.net_core.specs.Numbers.{HasNumbers};
ghost use Rattle.net_sim.specs.Shown.{shown_cells, HasWord};
ghost use Rattle.net_sim.specs.declared.sim.Phase.TheVariants.{Fresh};
ghost use Rattle.row_tests.specs.Pairs.{IsPair};

use crate::maker::{Widths, make};
use crate::random::Random;
use hw_bits::Bits;
use net_core::{Net, valid};
use net_row::{Phase, order};
use net_text::read_net;
use std::alloc::Global;
use std::test::Fail;

/// How many rows each netlist has.
const ROWS: usize = 20;

/// Netlists: the number of the first, how many there are, the widths of their ports, how many of them go by steps, and how
/// many at least come to a Conflict.
type Batch = (u64, u64, Widths, usize, usize);

const BATCHES: [Batch; 4] = [
    (0, 600, [1, 3, 8, 64], 600, 60),
    (1000, 600, [1, 2, 5, 1], 600, 60),
    (2000, 300, [1, 3, 63, 64], 300, 30),
    (3000, 300, [1, 3, 100, 128], 0, 30),
];

/// Both simulations of one netlist, the number of its ports, and that of its shown memories.
#[derive(Drop)]
struct Pair<'a> {
    plain: net_sim::Sim<'a>,
    flat: net_row::Sim<'a>,
    ports: usize,
    shown: usize,
}

/// Whether a netlist went by steps, and whether it came to a Conflict.
#[derive(Clone, Copy)]
struct Outcome {
    by_steps: bool,
    stopped: bool,
}

/// The netlist that a text spells.
fn net_of(alloc: Global, text: &str) -> Result<Net, Fail>
    ensures { IfOk result HasNumbers }
{
    if text.len() > 1_000_000 {
        return Err("a text of a megabyte".into());
    }
    Ok(read_net(alloc, text.as_bytes())?)
}

/// A value of this width.
fn bits_of(random: &mut Random, width: u128) -> Result<Bits, Fail>
    ensures { IfOk result (λ bits. bits.width ≡ width) }
{
    if width > 128 {
        return Err("width".into());
    }
    Ok(Bits::new(random.bits(width), width as u8).ok_or("value")?)
}

/// Values of a netlist's inputs.
fn inputs_of(alloc: Global, net: &Net, random: &mut Random) -> Result<Vec<Bits>, Fail>
    ensures { IfOk result (λ inputs. widths_of inputs.items ≡ map (λ port. port.width) (netlist_of net.now).ins) }
{
    let mut inputs = Vec::new(alloc);
    for port in net.ins.iter() {
        inputs.push(bits_of(random, port.width)?)?;
    }
    Ok(inputs)
}

/// How many memories are shown.
fn shown_count(net: &Net) -> usize
    ensures { result ≡ length (shown_cells (netlist_of net.now)) }
{
    net.cells.iter().filter(|cell| cell.shown).count()
}

/// Whether a shown memory of a pair has such a word.
fn has_word(pair: &Pair, mem: usize, at: usize) -> bool
    requires { IsPair pair.now.ports pair.now.shown pair.now.plain pair.now.flat }
    ensures { IsTrue result → HasWord (netlist_of pair.now.plain.net) mem at }
{
    mem < pair.shown && at < pair.plain.word_count(mem)
}

/// Loads a word into each shown memory of both.
fn load_words(pair: &mut Pair, random: &mut Random) -> Result<(), Fail>
    requires pair { IsPair pair.old.ports pair.old.shown pair.old.plain pair.old.flat }
    requires plain { pair.old.plain.phase ≡ Fresh }
    requires flat { pair.old.flat.phase ≡ Fresh }
    ensures pair { IsPair pair.new.ports pair.new.shown pair.new.plain pair.new.flat }
    ensures net { pair.new.plain.net ≡ pair.old.plain.net }
{
    for mem in 0..pair.shown {
        let at = random.below(pair.plain.word_count(mem));
        if has_word(pair, mem, at) {
            let word = bits_of(random, pair.plain.word(mem, at).width() as u128)?;
            pair.plain.load(mem, at, word);
            pair.flat.load(mem, at, word);
        }
    }
    Ok(())
}

/// Whether the words of a shown memory are the same.
fn has_same_words(pair: &Pair, mem: usize) -> bool
    requires pair { IsPair pair.now.ports pair.now.shown pair.now.plain pair.now.flat }
    requires mem { mem < pair.now.shown }
{
    let count = pair.plain.word_count(mem);
    for at in 0..count {
        if !has_word(pair, mem, at) || pair.plain.word(mem, at) != pair.flat.word(mem, at) {
            return false;
        }
    }
    pair.flat.word_count(mem) == count
}

/// Whether the values of all ports are the same.
fn has_same_values(pair: &Pair) -> bool
    requires { IsPair pair.now.ports pair.now.shown pair.now.plain pair.now.flat }
{
    for port in 0..pair.ports {
        if pair.plain.value(port) != pair.flat.value(port) {
            return false;
        }
    }
    true
}

/// Whether all is the same that both show.
fn is_same(pair: &Pair) -> bool
    requires { IsPair pair.now.ports pair.now.shown pair.now.plain pair.now.flat }
{
    for mem in 0..pair.shown {
        if !has_same_words(pair, mem) {
            return false;
        }
    }
    has_same_values(pair) && pair.plain.phase() == pair.flat.phase()
}

/// Makes a row in both, and tells whether both give the same answer.
fn make_rows(pair: &mut Pair, inputs: &[Bits]) -> bool
    requires pair { IsPair pair.old.ports pair.old.shown pair.old.plain pair.old.flat }
    requires inputs { widths_of inputs.now ≡ map (λ port. port.width) (netlist_of pair.old.plain.net).ins }
    ensures pair { IsPair pair.new.ports pair.new.shown pair.new.plain pair.new.flat }
    ensures net { pair.new.plain.net ≡ pair.old.plain.net }
{
    let told = pair.plain.row(inputs);
    let found = pair.flat.row(inputs);
    told == found
}

/// Makes the edge of both.
fn make_edges(pair: &mut Pair)
    requires { IsPair pair.old.ports pair.old.shown pair.old.plain pair.old.flat }
    ensures pair { IsPair pair.new.ports pair.new.shown pair.new.plain pair.new.flat }
    ensures net { pair.new.plain.net ≡ pair.old.plain.net }
{
    pair.plain.edge();
    pair.flat.edge();
}

/// Whether all is the same in a row, after its edge, and after another, which changes nothing.
fn has_same_row(pair: &mut Pair, inputs: &[Bits]) -> bool
    requires pair { IsPair pair.old.ports pair.old.shown pair.old.plain pair.old.flat }
    requires inputs { widths_of inputs.now ≡ map (λ port. port.width) (netlist_of pair.old.plain.net).ins }
    ensures pair { IsPair pair.new.ports pair.new.shown pair.new.plain pair.new.flat }
    ensures net { pair.new.plain.net ≡ pair.old.plain.net }
{
    let answers = make_rows(pair, inputs);
    let rows = is_same(pair);
    make_edges(pair);
    let edges = is_same(pair);
    make_edges(pair);
    answers && rows && edges && is_same(pair)
}

/// Makes rows in both: the first that differs.
fn different_row(
    alloc: Global,
    net: &Net,
    pair: &mut Pair,
    random: &mut Random,
) -> Result<Option<usize>, Fail>
    requires pair { IsPair pair.old.ports pair.old.shown pair.old.plain pair.old.flat }
    requires net { pair.old.plain.net ≡ net.now }
{
    for row in 0..ROWS {
        let inputs = inputs_of(alloc, net, random)?;
        if !has_same_row(pair, &inputs) {
            return Ok(Some(row));
        }
    }
    Ok(None)
}

/// Runs the netlist with this number in both.
fn run(alloc: Global, number: u64, widths: Widths) -> Result<Outcome, Fail> {
    let text = make(alloc, number, widths)?;
    let net = net_of(alloc, text.as_str())?;
    let table = valid(alloc, &net)?;
    let order = order(alloc, &net, &table)?;
    let mut pair = Pair {
        plain: net_sim::Sim::new(alloc, &net, &table, &order)?,
        flat: net_row::Sim::new(alloc, &net, &table, &order)?,
        ports: table.names.len(),
        shown: shown_count(&net),
    };
    let mut random = Random::new(number);
    load_words(&mut pair, &mut random)?;
    if let Some(row) = different_row(alloc, &net, &mut pair, &mut random)? {
        return Err(format!(in alloc; "row {row} of\n{text}")?.into());
    }
    Ok(Outcome {
        by_steps: pair.flat.goes_by_steps(),
        stopped: matches!(pair.plain.phase(), Phase::Stopped(_)),
    })
}

/// What comes of the netlists with these numbers.
fn run_all(alloc: Global, first: u64, count: u64, widths: Widths) -> Result<Vec<Outcome>, Fail> {
    let mut outcomes = Vec::new(alloc);
    for number in first..first.saturating_add(count) {
        outcomes.push(run(alloc, number, widths)?)?;
    }
    Ok(outcomes)
}

#[test]
fn rows_are_those_of_the_plain_simulation(rt: HostRuntime) -> Result<(), Fail> {
    for (first, count, widths, by_steps, stopped) in BATCHES {
        let outcomes = run_all(rt.alloc(), first, count, widths)?;
        let went = outcomes.iter().filter(|outcome| outcome.by_steps).count();
        let ended = outcomes.iter().filter(|outcome| outcome.stopped).count();
        assert_eq!(rt; went, by_steps, "by steps, from {first}");
        assert!(rt;
            ended >= stopped,
            "{ended} come to a Conflict, from {first}"
        );
    }
    Ok(())
}
