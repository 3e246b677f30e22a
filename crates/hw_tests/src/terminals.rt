//! Terminals of texts, and the byte at which a text is refused.
use hw_grammar::{
    ReadEnd, Sort, Special, read_one, refused_byte, starts, starts_any, terminals_of,
};
use hw_lex::{Dialect, lex};
use hw_names::{NameId, Names};
use std::test::Fail;

const SORTS: [Sort; 14] = [
    Sort::Component,
    Sort::Name,
    Sort::LeftAngle,
    Sort::Text,
    Sort::Equals,
    Sort::Number,
    Sort::RightAngle,
    Sort::At,
    Sort::Name,
    Sort::Not,
    Sort::Name,
    Sort::Literal,
    Sort::AtMost,
    Sort::Name,
];

#[test]
fn each_token_gives_a_terminal(rt: HostRuntime) -> Result<(), Fail> {
    let text = b"component main<\"external\"=7> @clk !comp 8'xfF<=clk";
    let tokens = lex(rt.alloc(), text, Dialect::Cal)?;
    let mut names = Names::new(rt.alloc());
    let ts = terminals_of(rt.alloc(), &tokens, &mut names)?;
    assert_eq!(rt; names.len(), 3);
    assert!(rt; ts.len() == SORTS.len());
    for i in 0..SORTS.len() {
        assert_eq!(rt; ts[i].sort, SORTS[i], "at {i}");
    }
    assert_eq!(rt; ts[3].special, Special::External);
    assert_eq!(rt; ts[5].value, 7);
    assert_eq!(rt; (ts[8].name, ts[8].special), (NameId(1), Special::Clock));
    assert_eq!(rt; (ts[10].name, ts[10].special), (NameId(2), Special::Plain));
    assert_eq!(rt; (ts[11].width, ts[11].value), (8, 255));
    assert_eq!(rt; ts[13].name, NameId(1));
    Ok(())
}

#[test]
fn refusals_have_their_byte(rt: HostRuntime) -> Result<(), Fail> {
    let text = b"a := 1 // end";
    let tokens = lex(rt.alloc(), text, Dialect::Fil)?;
    let mut names = Names::new(rt.alloc());
    let ts = terminals_of(rt.alloc(), &tokens, &mut names)?;
    assert!(rt; starts(&ts, Sort::Name) && starts_any(&ts, &[Sort::Plus, Sort::Name]));
    assert!(rt; !starts(&ts, Sort::Number) && !starts_any(&ts, &[Sort::Plus, Sort::Number]));
    let (first, rest) = read_one(&ts, Sort::Name)?;
    assert_eq!(rt; first.name, NameId(0));
    let Err(ReadEnd::Refused(refused)) = read_one(rest, Sort::Equals) else {
        return Err("`:=` is no `=`".into());
    };
    assert!(rt; refused.len() == 2 && tokens.len() == 3);
    assert_eq!(rt; refused_byte(&tokens, refused), 2);
    assert_eq!(rt; refused_byte(&tokens, &[]), 13);
    Ok(())
}
