//! Dataflow of components on two numbers of 64 bits.
ghost use Rattle.std.specs.Prelude.{◌≡◌, ◌↔◌, IsTrue, All};

use fil_ast::{FilOk, FilPort};
use fil_check::check_fil;
use fil_flow::flow;
use fil_parse::parse_fil;
use hw_bits::Bits;
use std::alloc::{AllocError, Global};
use std::process::Abort;
use std::test::Fail;

/// A component that gives the difference of its inputs and the first of them, and one that invokes it on its inputs, and on
/// them the other way round, and gives the second of the one's outputs and the first of the other's.
const BOTH_WAYS: &str =
    "comp Difference<G: 1>(@[G, G+1] a: 64, @[G, G+1] b: 64) -> (@[G, G+1] d: 64, @[G, G+1] same: 64) {
  s := new Sub[64]<G>(a, b);
  d = s.out;
  same = a;
}
comp BothWays<G: 1>(@[G, G+1] a: 64, @[G, G+1] b: 64) -> (@[G, G+1] p: 64, @[G, G+1] q: 64) {
  one := new Difference<G>(a, b);
  other := new Difference<G>(b, a);
  p = one.same;
  q = other.d;
}
";

/// A component that gives its first input, and so many above it, each with twice what the one below it gives.
fn chain(alloc: Global, height: u64) -> Result<String, AllocError> {
    let ports = "<G: 1>(@[G, G+1] a: 64, @[G, G+1] b: 64) -> (@[G, G+1] o: 64)";
    let mut text = format!(in alloc; "comp C0{ports} {{ o = a; }}\n")?;
    for below in 0..height {
        let number = below.saturating_add(1);
        let comp = format!(in alloc;
            "comp C{number}{ports} {{ x := new C{below}<G>(a, b); s := new Add[64]<G>(x.o, x.o); o = s.out; }}\n"
        )?;
        text.push_str(comp.as_str())?;
    }
    Ok(text)
}

/// Whether each of the ports has 64 bits.
fn are_words(ports: &[FilPort]) -> bool
    ensures { IsTrue result ↔ All (λ (p : FilPort). p.width ≡ 64) ports.now }
{
    ports.iter().all(|port| port.width == 64)
}

/// What the last component of the design gives on these values, where it has two inputs of 64 bits.
fn flow_of_last(alloc: Global, ok: &FilOk, values: [u128; 2]) -> Result<Vec<Bits>, Fail> {
    let design = ok.design();
    let last = design.comps.len().checked_sub(1).ok_or("no component")?;
    let ports = design.comps[last].ins.as_slice();
    if ports.len() != 2 || !are_words(ports) {
        return Err(Fail::from("other inputs"));
    }
    let inputs = [Bits::wrap(values[0], 64), Bits::wrap(values[1], 64)];
    Ok(flow(alloc, ok, last, &inputs)?)
}

/// The last component of the text gives on these values what is wanted.
fn try_flow(
    rt: &impl Abort,
    alloc: Global,
    text: &str,
    values: [u128; 2],
    wanted: &[u128],
) -> Result<(), Fail> {
    let design = parse_fil(alloc, text.as_bytes())?;
    let outs = flow_of_last(alloc, &check_fil(alloc, &design)?, values)?;
    assert_eq!(rt; outs.len(), wanted.len());
    for (out, value) in outs.iter().zip(wanted) {
        assert_eq!(rt; out.value(), *value);
    }
    Ok(())
}

#[test]
fn each_call_of_a_chain_runs_once(rt: HostRuntime) -> Result<(), Fail> {
    let text = chain(rt.alloc(), 60)?;
    try_flow(&rt, rt.alloc(), text.as_str(), [3, 1], &[3 << 60])
}

#[test]
fn outputs_stand_in_their_order(rt: HostRuntime) -> Result<(), Fail> {
    let wanted = [7, u64::MAX as u128 - 1];
    try_flow(&rt, rt.alloc(), BOTH_WAYS, [7, 5], &wanted)
}
