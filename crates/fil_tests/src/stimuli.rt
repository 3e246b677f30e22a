//! What a stimulus says besides its transactions.
use fil_sig::TimeSig;
use std::test::Fail;
use stim_read::read_txs;

/// A text, and the number whose low bits stand where no transaction gives a value.
const IDLE: &[(&str, u128)] = &[
    (r#"{"version":1,"transactions":[]}"#, 0),
    (r#"{"version":1,"transactions":[],"idle":7}"#, 7),
    (r#"{"version":2,"transactions":[],"idle":"7"}"#, 7),
    (
        r#"{"version":2,"transactions":[],"idle":"340282366920938463463374607431768211455"}"#,
        u128::MAX,
    ),
];

#[test]
fn the_idle_number_is_told(rt: HostRuntime) -> Result<(), Fail> {
    let alloc = rt.alloc();
    let sig = TimeSig {
        events: Vec::new(alloc),
        ins: Vec::new(alloc),
        outs: Vec::new(alloc),
    };
    for (text, idle) in IDLE {
        let list = read_txs(alloc, text.as_bytes(), &sig)?;
        assert_eq!(rt; list.idle, *idle, "of {text}");
        assert!(rt; list.txs.is_empty(), "of {text}");
    }
    Ok(())
}
