//! What is read of texts with parameters.
use par_parse::{Expression, FilpTextEnd, ParamDesign, ParamStatement, ParamValue, parse_filp};
use std::test::Fail;

const CHAIN: &str =
    "comp Chain[w, n]<G: 1>(@interface[G] go: 1, @[G, G+1] a: w) -> (@[G+n, G+n+1] o: w) {
  v#0 := new Delay[w]<G>(a);
  for i in 1..n { v#i := new Delay[w]<G+i>(v#(i-1).out); }
  o = v#(n-1).out;
}
comp main<G: 1>(@interface[G] go: 1, @[G, G+1] a: 8) -> (@[G+3, G+4] o: 8) {
  c := new Chain[8, 3]<G>(a);
  o = c.o;
}
";

#[test]
fn a_chain_has_a_loop(rt: HostRuntime) -> Result<(), Fail> {
    let design = parse_filp(rt.alloc(), CHAIN.as_bytes())?;
    assert!(rt; design.comps.len() == 2);
    let chain = &design.comps[0];
    assert_eq!(rt; (chain.params.len(), chain.gos.len()), (2, 1));
    assert!(rt; chain.body.len() == 3);
    let ParamStatement::For { from, body, .. } = &chain.body[1] else {
        return Err("no loop".into());
    };
    assert!(rt; matches!(from, Expression::Num(1)) && body.len() == 1);
    let ParamStatement::Both { args, .. } = &body[0] else {
        return Err("no instance with its invocation".into());
    };
    assert!(rt; args.len() == 1);
    let ParamValue::Out(value, _) = &args[0] else {
        return Err("no output".into());
    };
    assert!(rt; matches!(&value.index, Some(Expression::Sum(_))));
    Ok(())
}

/// What an expression is, and how many parts it has.
fn shape(expression: &Expression) -> (&'static str, usize) {
    match expression {
        Expression::Num(_) => ("number", 1),
        Expression::Name(_) => ("name", 1),
        Expression::Sum(terms) => ("sum", terms.len()),
        Expression::Minus(_) => ("minus", 1),
        Expression::Product(factors) => ("product", factors.len()),
    }
}

/// The shape of the delay of the first event.
fn delay_shape(design: &ParamDesign) -> Option<(&'static str, usize)> {
    let [comp, ..] = &design.comps[..] else {
        return None;
    };
    let [event, ..] = &comp.events[..] else {
        return None;
    };
    Some(shape(&event.delay))
}

const SHAPES: &[(&str, (&str, usize))] = &[
    ("comp A<G: 12>() -> () {}", ("number", 1)),
    ("comp A<G: (((n)))>() -> () {}", ("name", 1)),
    ("comp A<G: a-b+c>() -> () {}", ("sum", 3)),
    ("comp A<G: (a-b)+c>() -> () {}", ("sum", 2)),
    ("comp A<G: 1+2*i>() -> () {}", ("sum", 2)),
    ("comp A<G: (1+2)*i>() -> () {}", ("product", 2)),
    ("comp A<G: 2*i*j>() -> () {}", ("product", 3)),
    ("comp A<G: 2*(i*j)>() -> () {}", ("product", 2)),
];

#[test]
fn parentheses_keep_their_own_list(rt: HostRuntime) -> Result<(), Fail> {
    for (text, wanted) in SHAPES {
        let design = parse_filp(rt.alloc(), text.as_bytes())?;
        assert_eq!(rt; delay_shape(&design), Some(*wanted), "of {text:?}");
    }
    Ok(())
}

const REFUSED: &[(&str, FilpTextEnd)] = &[
    ("comp A<G: 2/3>() -> () {}", FilpTextEnd::Token { at: 11 }),
    ("comp A[]<G: 1>() -> () {}", FilpTextEnd::Grammar { at: 7 }),
    ("comp A<G: -1>() -> () {}", FilpTextEnd::Grammar { at: 10 }),
    (
        "comp A<G: 8'd3>() -> () {}",
        FilpTextEnd::Grammar { at: 10 },
    ),
    (
        "comp A<G: 1>() -> () { v#1#2 = a; }",
        FilpTextEnd::Grammar { at: 26 },
    ),
    (
        "comp A<G: 1>() -> () { for i in 0..4 { } else { } }",
        FilpTextEnd::Grammar { at: 41 },
    ),
    (
        "comp A<G: 1>() -> () { if a < 4 { o = lit(4, a",
        FilpTextEnd::Grammar { at: 46 },
    ),
];

#[test]
fn refusals_have_their_byte(rt: HostRuntime) {
    for (text, end) in REFUSED {
        let refused = parse_filp(rt.alloc(), text.as_bytes()).err();
        assert_eq!(rt; refused, Some(*end), "of {text:?}");
    }
}
