//! The netlist of a file, with what its run needs.
ghost use Rattle.std.specs.Prelude.{◌≡◌, ◌≤◌, ◌<◌, List, ℕ, All, IfOk, IfErr, IsErrOf, IsSome, length};
ghost use Rattle.hw_io.specs.Reading.{KeepsFiles, IsReadFault};
ghost use Rattle.net_core.specs.Graph.{HasNoLoop};
ghost use Rattle.net_core.specs.Netlist.{netlist_of};
ghost use Rattle.net_core.specs.Numbers.{HasNumbers};
ghost use Rattle.net_core.specs.Rules.{IsValid, FirstBroken};
ghost use Rattle.net_core.specs.Table.{IsTableOf};
ghost use Rattle.net_core.specs.Weight.{weight_of};
ghost use Rattle.net_core.specs.Words.{word_total};
ghost use Rattle.net_sim.specs.Order.{IsLeastLoopOf};
ghost use Rattle.net_sim.specs.PortOrder.{IsPortOrderOf};
ghost use Rattle.filc_stop.specs.Stops.{IsOfSource};
ghost use Rattle.filc_load.specs.Built.{KnowsFile, IsNetOf, IsReady, IsBuiltFrom, IsUnbuilt, IsUnfit, IsOverweight, IsUnread, AreNamesOf};
ghost use Rattle.filc_load.specs.Source.{FileGivesNet};
ghost use Rattle.hw_limits.specs.declared.limits.TheConstants.{MOST_WEIGHT, MOST_WORDS, MOST_NET_BYTES};

use crate::ports::name_of;
use crate::source::read_source;
use filc_stop::{Language, Refusal, Stop};
use hw_bits::Memory;
use hw_io::Files;
use hw_lex::nesting_of_bytes;
use hw_limits::{MOST_NET_BYTES, MOST_NET_NESTING, MOST_WEIGHT, MOST_WORDS};
use hw_names::Word;
use net_core::{Net, NetEnd, Table, net_weight, net_words, valid};
use net_sim::{OrderEnd, PortOrder, order};
use net_text::{NetTextEnd, read_net};
use std::alloc::Global;

/// A netlist that keeps the rules, with its table and its order.
#[derive(Drop)]
pub struct Built {
    pub net: Net,
    pub table: Table,
    pub order: PortOrder,
}

/// The netlist of this file, ready to run.
pub fn load<F: Files>(alloc: Global, file: &str, files: &mut F) -> Result<Built, Stop>
    ensures files { KeepsFiles F.names F.content F.faults file.now files.old files.new }
    ensures read { IsSome (F.content files.old file.now) → IfOk result (λ b. FileGivesNet (F.content files.old) file.now (netlist_of b.net)) }
    ensures ready { IfOk result IsReady }
    ensures unread { IsSome (F.content files.old file.now) → IfErr result (IsUnread (F.content files.old) Language.Netlists file.now) }
    ensures known { KnowsFile (F.names files.old) file.now result }
    ensures read_fault { IsErrOf result Stop.ReadFault
        → IsReadFault (F.names files.old) file.now (F.faults files.old file.now) (F.faults files.new file.now) }
    ensures stops { IfErr result IsOfSource }
{
    let text = read_source(alloc, Language::Netlists, file, files)?;
    build(alloc, &text)
}

/// The netlist that a text gives, ready to run.
fn build(alloc: Global, text: &[u8]) -> Result<Built, Stop>
    requires { length text.now ≤ MOST_NET_BYTES }
    ensures built { IfOk result (IsBuiltFrom text.now) }
    ensures refused { IfErr result (IsUnbuilt Language.Netlists text.now) }
{
    let net = read(alloc, text)?;
    let table = judge(alloc, &net)?;
    let order = arrange(alloc, &net, &table)?;
    weigh(&net)?;
    Ok(Built { net, table, order })
}

/// The netlist that a text spells.
fn read(alloc: Global, text: &[u8]) -> Result<Net, Stop>
    requires { length text.now ≤ MOST_NET_BYTES }
    ensures read { IfOk result (IsNetOf text.now) }
    ensures refused { IfErr result (IsUnbuilt Language.Netlists text.now) }
{
    let depth = nesting_of_bytes(text) as u64;
    if depth > MOST_NET_NESTING {
        return Err(Stop::Refused(Refusal::NestsTooDeep {
            language: Language::Netlists,
            depth,
        }));
    }
    match read_net(alloc, text) {
        Ok(net) => Ok(net),
        Err(NetTextEnd::Grammar { at }) => Err(Stop::Refused(Refusal::HasNoGrammar {
            at: at as u64,
        })),
        Err(NetTextEnd::Memory) => Err(Stop::Memory),
    }
}

/// The table of a netlist that keeps N1 to N5.
fn judge(alloc: Global, net: &Net) -> Result<Table, Stop>
    requires { HasNumbers net.now }
    ensures valid { IfOk result (λ _. IsValid (netlist_of net.now)) }
    ensures table { IfOk result (IsTableOf (netlist_of net.now)) }
    ensures refused { IfErr result (IsUnfit (netlist_of net.now)) }
{
    match valid(alloc, net) {
        Ok(table) => Ok(table),
        Err(NetEnd::Refused { rule, item }) => Err(broken(alloc, net, rule, item)),
        Err(NetEnd::Memory) => Err(Stop::Memory),
    }
}

/// The refusal of a netlist that breaks this rule at this item.
fn broken(alloc: Global, net: &Net, rule: u8, item: u64) -> Stop
    requires numbers { HasNumbers net.now }
    requires first { FirstBroken (netlist_of net.now) rule item }
    ensures { IsUnfit (netlist_of net.now) result }
{
    match Word::make(alloc, net.names.text(net.name)) {
        Ok(name) => Stop::Refused(Refusal::BreaksRule {
            language: Language::Netlists,
            rule,
            name,
            item,
            ports: Vec::new(alloc),
        }),
        Err(Memory) => Stop::Memory,
    }
}

/// The order of the ports of a netlist without loops.
fn arrange(alloc: Global, net: &Net, table: &Table) -> Result<PortOrder, Stop>
    requires valid { IsValid (netlist_of net.now) }
    requires numbers { HasNumbers net.now }
    requires table { IsTableOf (netlist_of net.now) table.now }
    ensures no_loop { IfOk result (λ _. HasNoLoop (netlist_of net.now)) }
    ensures order { IfOk result (IsPortOrderOf (netlist_of net.now)) }
    ensures refused { IfErr result (IsUnfit (netlist_of net.now)) }
{
    match order(alloc, net, table) {
        Ok(order) => Ok(order),
        Err(OrderEnd::Loop { ports }) => Err(looped(alloc, net, table, &ports)),
        Err(OrderEnd::Memory) => Err(Stop::Memory),
    }
}

/// The refusal of a netlist with this loop of ports.
fn looped(alloc: Global, net: &Net, table: &Table, ports: &[usize]) -> Stop
    requires valid { IsValid (netlist_of net.now) }
    requires numbers { HasNumbers net.now }
    requires table { IsTableOf (netlist_of net.now) table.now }
    requires cycle { IsLeastLoopOf (netlist_of net.now) ports.now }
    ensures { IsUnfit (netlist_of net.now) result }
{
    match loop_names(alloc, net, table, ports) {
        Ok((name, ports)) => Stop::Refused(Refusal::BreaksRule {
            language: Language::Netlists,
            rule: 6,
            name,
            item: 0,
            ports,
        }),
        Err(Memory) => Stop::Memory,
    }
}

/// The netlist's name and those of these ports.
fn loop_names(
    alloc: Global,
    net: &Net,
    table: &Table,
    ports: &[usize],
) -> Result<(Word, Vec<Word>), Memory>
    requires numbers { HasNumbers net.now }
    requires table { IsTableOf (netlist_of net.now) table.now }
    requires within { All (λ port. port < length table.now.names) ports.now }
    ensures name { IfOk result (λ names. names.0 ≡ (netlist_of net.now).name) }
    ensures ports { IfOk result (λ names. AreNamesOf table.now.names ports.now names.1.items) }
{
    let name = Word::make(alloc, net.names.text(net.name))?;
    let mut names = Vec::new(alloc);
    for port in ports {
        names.push(Word::make(alloc, name_of(table, *port))?)?;
    }
    Ok((name, names))
}

/// Judges what a run of a netlist costs.
fn weigh(net: &Net) -> Result<(), Stop>
    requires { HasNumbers net.now }
    ensures light { IfOk result (λ _. weight_of (netlist_of net.now) ≤ MOST_WEIGHT) }
    ensures few_words { IfOk result (λ _. word_total (netlist_of net.now) ≤ MOST_WORDS) }
    ensures refused { IfErr result (IsOverweight (netlist_of net.now)) }
{
    let weight = net_weight(net);
    if weight > MOST_WEIGHT {
        return Err(Stop::Refused(Refusal::IsTooHeavy { weight }));
    }
    let words = net_words(net);
    if words > MOST_WORDS {
        return Err(Stop::Refused(Refusal::HasTooManyWords { words }));
    }
    Ok(())
}
