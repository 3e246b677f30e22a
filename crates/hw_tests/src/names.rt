//! Names and their numbers, and words that own their bytes.
use hw_names::{NameId, Names, Word};
use std::test::Fail;

#[test]
fn numbers_go_by_first_appearance(rt: HostRuntime) -> Result<(), Fail> {
    let mut names = Names::new(rt.alloc());
    for (text, number, len) in [
        ("clk", 0, 1),
        ("go", 1, 2),
        ("clk", 0, 2),
        ("", 2, 3),
        ("clk.go", 3, 4),
        ("go", 1, 4),
        ("", 2, 4),
    ] {
        assert!(rt; names.len() < 5);
        let id = names.intern(text.as_bytes())?;
        assert_eq!(rt; id, NameId(number), "at {text:?}");
        assert_eq!(rt; names.len(), len, "after {text:?}");
        assert_eq!(rt; names.find(text.as_bytes()), Some(id), "at {text:?}");
        assert!(rt; (id.0 as usize) < names.len());
        assert_eq!(rt; names.text(id), text.as_bytes(), "at {text:?}");
    }
    assert_eq!(rt; names.find(b"done".as_slice()), None);
    Ok(())
}

#[test]
fn words_own_their_bytes(rt: HostRuntime) -> Result<(), Fail> {
    for text in ["", "a", "main.adder.left"] {
        let word = Word::make(rt.alloc(), text.as_bytes())?;
        let copy = word.copy()?;
        assert_eq!(rt; word.bytes(), text.as_bytes());
        assert_eq!(rt; copy.bytes(), text.as_bytes());
    }
    Ok(())
}
