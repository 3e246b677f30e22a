//! Texts and their tokens.
use hw_lex::{Dialect, Kind, LexEnd, Literal, Span, Token, lex};
use std::test::Fail;

const CUT: [(Dialect, &str, &[&str]); 7] = [
    (
        Dialect::Fil,
        " p := M<G+1>(a, 8'd1); // one\r\n",
        &[
            "p", ":=", "M", "<", "G", "+", "1", ">", "(", "a", ",", "8'd1", ")", ";",
        ],
    ),
    (
        Dialect::Fil,
        "a==12abc/*x**/->\"/*\"",
        &["a", "=", "=", "12", "abc", "->", "\"/*\""],
    ),
    (Dialect::Fil, "1..n", &["1", ".", ".", "n"]),
    (
        Dialect::Filp,
        "v#(i-1).o 1..n==2*k:==->-",
        &[
            "v", "#", "(", "i", "-", "1", ")", ".", "o", "1", "..", "n", "==", "2", "*", "k", ":=",
            "=", "->", "-",
        ],
    ),
    (
        Dialect::Cal,
        "x$1<=!y/* /* */>=4'xFf",
        &["x$1", "<=", "!", "y", ">=", "4'xFf"],
    ),
    (Dialect::Cal, "8'b12 0'o7", &["8'b1", "2", "0'o7"]),
    (Dialect::Cal, "", &[]),
];

#[test]
fn cuts_texts_into_tokens(rt: HostRuntime) -> Result<(), Fail> {
    for (dialect, text, words) in CUT {
        let tokens = lex(rt.alloc(), text.as_bytes(), dialect)?;
        assert_eq!(rt; tokens.len(), words.len(), "in {text:?}");
        for i in 0..words.len() {
            assert!(rt; i < tokens.len());
            assert_eq!(rt; tokens.text(i), words[i].as_bytes(), "in {text:?}");
        }
    }
    Ok(())
}

const FAULTS: [(Dialect, &str, usize); 11] = [
    (Dialect::Fil, "a ! b", 2),
    (Dialect::Fil, "a - b", 2),
    (Dialect::Fil, "x$", 1),
    (Dialect::Filp, "a/b$", 1),
    (Dialect::Cal, "a + b", 2),
    (Dialect::Fil, "8'd", 1),
    (Dialect::Cal, " 8'q1", 2),
    (Dialect::Cal, "a /*/", 2),
    (Dialect::Fil, "\"a\nb\"", 0),
    (Dialect::Fil, "a 340282366920938463463374607431768211456", 2),
    (Dialect::Cal, "8'x100000000000000000000000000000000", 0),
];

#[test]
fn faults_where_nothing_starts(rt: HostRuntime) {
    for (dialect, text, at) in FAULTS {
        let end = lex(rt.alloc(), text.as_bytes(), dialect).err();
        assert_eq!(rt; end, Some(LexEnd::Fault { at }), "in {text:?}");
    }
}

#[test]
fn tells_numbers_and_nesting(rt: HostRuntime) -> Result<(), Fail> {
    let text = b"340282366920938463463374607431768211455 ((!!8'xfF < [) 16'b0101";
    let tokens = lex(rt.alloc(), text, Dialect::Cal)?;
    assert_eq!(rt; tokens.nesting(), 4);
    assert!(rt; tokens.len() == 10);
    let first = Token {
        kind: Kind::Number,
        span: Span { from: 0, to: 39 },
    };
    assert_eq!(rt; tokens.token(0), first);
    assert!(rt; tokens.token(0).kind == Kind::Number);
    assert_eq!(rt; tokens.number(0), u128::MAX);
    assert!(rt; tokens.token(9).kind == Kind::Literal);
    assert_eq!(rt;
        tokens.literal(9),
        Literal {
            width: 16,
            value: 5
        }
    );
    Ok(())
}
