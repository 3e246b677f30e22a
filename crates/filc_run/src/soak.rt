//! The soak: many transactions through a pipeline of eight multiplications and additions.
ghost use Rattle.std.specs.Prelude.{◌≡◌, ◌≤◌, IfErr, IfOk, IsErrOf};
ghost use Rattle.hw_io.specs.Faults.{Rose};
ghost use Rattle.fil_ast.specs.Tree.{design_of};
ghost use Rattle.stim_read.specs.TxRun.{transaction_seen, tx_run_seen};
ghost use Rattle.hw_limits.specs.declared.limits.TheConstants.{MOST_TRANSACTIONS};
ghost use Rattle.filc_load.specs.Built.{IsFilReady};
ghost use Rattle.filc_stop.specs.Leaving.{Leaves};
ghost use Rattle.filc_stop.specs.Stops.{IsWritingStop};
ghost use Rattle.filc_run.specs.Soaked.{next_number, soak_design, soak_run, soak_transaction, Soaks};
ghost use Rattle.filc_run.specs.inside.Soaking.{AddsUpTo, IsSoak};
ghost use Rattle.filc_run.specs.Traced.{IsMadeOf};

use crate::lowered::Lowered;
use crate::text::with_empty_line;
use fil_ast::{Tx, TxList};
use filc_load::{FilBuilt, fil_file};
use filc_report::{Sums, sum_transactions, write_summary, write_text};
use filc_stop::Stop;
use hw_bits::{Bits, Memory};
use hw_io::Sink;
use std::alloc::Global;

/// The design, in its canonical text.
const SOAK_TEXT: &str =
    "comp Step<G: 1>(@interface[G] go: 1, @[G, G+1] a: 32, @[G, G+1] b: 32, @[G, G+1] c: 32) -> (@[G+2, G+3] out: 32) {
  M := new FastMult[32];
  D1 := new Delay[32];
  D2 := new Delay[32];
  A := new Add[32];
  p := M<G>(a, b);
  c1 := D1<G>(c);
  c2 := D2<G+1>(c1.out);
  s := A<G+2>(p.out, c2.out);
  out = s.out;
}
comp Soak<G: 1>(@interface[G] go: 1, @[G, G+1] a: 32) -> (@[G+16, G+17] out: 32) {
  s0 := new Step<G>(a, 32'd3, 32'd0);
  s1 := new Step<G+2>(s0.out, 32'd5, 32'd1);
  s2 := new Step<G+4>(s1.out, 32'd7, 32'd2);
  s3 := new Step<G+6>(s2.out, 32'd9, 32'd3);
  s4 := new Step<G+8>(s3.out, 32'd11, 32'd4);
  s5 := new Step<G+10>(s4.out, 32'd13, 32'd5);
  s6 := new Step<G+12>(s5.out, 32'd15, 32'd6);
  s7 := new Step<G+14>(s6.out, 32'd17, 32'd7);
  out = s7.out;
}
";

/// What the numbers of transactions are multiplied by, one after another.
const MULTIPLIER: u64 = 6_364_136_223_846_793_005;

/// What is then added to them.
const INCREMENT: u64 = 1_442_695_040_888_963_407;

/// The design, judged as a file with its text is.
fn soak_design(alloc: Global) -> Result<FilBuilt, Stop>
    ensures design { IfOk result (λ built. design_of built.design ≡ soak_design) }
    ensures ready { IfOk result IsFilReady }
    ensures stops { IfErr result (λ why. why ≡ Stop.Memory) }
{
    fil_file::build(alloc, SOAK_TEXT.as_bytes())
}

/// The number of the next transaction.
fn next_number(number: u64) -> u64
    ensures { result ≡ next_number number }
{
    MULTIPLIER.wrapping_mul(number).wrapping_add(INCREMENT)
}

/// The transaction with this number, which starts in this row.
fn soak_transaction(alloc: Global, number: u64, start: u64) -> Result<Tx, Memory>
    ensures { IfOk result (λ tx. transaction_seen tx ≡ soak_transaction number start) }
{
    let mut values = Vec::new(alloc);
    values.push(Bits::wrap(u128::from(number), 32))?;
    Ok(Tx {
        event: 0,
        start,
        values,
    })
}

/// So many transactions; inputs are 0 where none gives a value.
fn soak_transactions(alloc: Global, count: u64) -> Result<TxList, Memory>
    requires { count ≤ MOST_TRANSACTIONS }
    ensures { IfOk result (λ list. tx_run_seen list ≡ soak_run count) }
{
    let mut txs = Vec::new(alloc);
    let mut number = count;
    let mut start = 0u64;
    for _ in 0..count {
        txs.push(soak_transaction(alloc, number, start)?)?;
        number = next_number(number);
        start += 1 + (number >> 63);
    }
    Ok(TxList { txs, idle: 0 })
}

/// The netlist of the design, ready to run, and so many transactions that drive it.
#[derive(Drop)]
struct Soak {
    count: u64,
    lowered: Lowered,
    list: TxList,
}

impl Soak {
    fn make(alloc: Global, count: u64) -> Result<Soak, Stop>
        requires { count ≤ MOST_TRANSACTIONS }
        ensures made { IfOk result IsSoak }
        ensures count { IfOk result (λ soak. soak.count ≡ count) }
        ensures stops { IfErr result (λ why. why ≡ Stop.Memory) }
    {
        let design = soak_design(alloc)?;
        let list = soak_transactions(alloc, count)?;
        let lowered = Lowered::make(alloc, &design, &list.txs)?;
        Ok(Soak {
            count,
            lowered,
            list,
        })
    }

    /// What the rows of its run add up to.
    fn sums(&self, alloc: Global) -> Result<Sums, Memory>
        requires { IsSoak self.now }
        ensures { IfOk result (AddsUpTo self.now) }
    {
        let txs = self.lowered.transactions(&self.list);
        match sum_transactions(alloc, &self.lowered.built, txs)? {
            Some(sums) => Ok(sums),
            None => unreachable!(),
        }
    }
}

/// Writes the text of the design's netlist, an empty line, and what the rows add up to in which so many transactions drive it.
pub fn write_soak<O: Sink>(alloc: Global, count: u64, out: &mut O) -> Result<(), Stop>
    requires { count ≤ MOST_TRANSACTIONS }
    ensures leaves { Leaves (IsMadeOf soak_design) (Soaks count) result (O.written out.old) (O.written out.new) }
    ensures stops { IfErr result IsWritingStop }
    ensures write_fault { IsErrOf result Stop.WriteFault → Rose (O.faults out.old) (O.faults out.new) }
    ensures never_falls { O.faults out.old ≤ O.faults out.new }
{
    let soak = Soak::make(alloc, count)?;
    let head = with_empty_line(alloc, &soak.lowered.built.net)?;
    write_text(&head, out)?;
    let sums = soak.sums(alloc)?;
    write_summary(alloc, count, soak.lowered.rows, sums, out)
}
