//! Tokens of code texts.

use kh_lex::{Kind, LexStop, Symbol, Token, tokens};
use kh_types::INPUT_BYTES;
use std::test::Fail;

#[test]
fn cuts_a_text_into_tokens(rt: HostRuntime) -> Result<(), Fail> {
    let found = tokens(rt.alloc(), b"Loop,\t-007")?;
    let wanted = [
        token(Kind::Word, 0, 4, 0),
        token(Kind::Comma, 4, 1, 0),
        token(Kind::Number, 6, 4, -7),
    ];
    assert!(rt; found.as_slice() == wanted.as_slice());
    Ok(())
}

fn token(kind: Kind, place: u32, length: u32, value: i32) -> Token {
    Token {
        kind,
        place,
        length,
        value,
    }
}

#[test]
fn stops_at_the_first_fault(rt: HostRuntime) {
    let rows = [
        ("\u{c}", LexStop::Bad { place: 0 }),
        ("X \u{a0}", LexStop::Bad { place: 2 }),
        ("\u{feff}PD", LexStop::Bad { place: 0 }),
        ("\r\n\0", LexStop::Bad { place: 2 }),
        ("- 2", LexStop::Bad { place: 0 }),
        ("[--2", LexStop::Bad { place: 1 }),
        ("65535,65536", LexStop::Number { place: 6 }),
        ("-65535,-65536", LexStop::Number { place: 7 }),
        ("4294967297 ?", LexStop::Number { place: 0 }),
        ("? 4294967297", LexStop::Bad { place: 0 }),
    ];
    for (text, wanted) in rows {
        let stop = tokens(rt.alloc(), text.as_bytes()).err();
        assert!(rt; stop == Some(wanted));
    }
}

#[test]
fn cuts_the_longest_texts(rt: HostRuntime) -> Result<(), Fail> {
    let commas = vec![in rt.alloc(); b','; INPUT_BYTES]?;
    assert!(rt; tokens(rt.alloc(), &commas)?.len() == INPUT_BYTES);
    let zeros = vec![in rt.alloc(); b'0'; INPUT_BYTES]?;
    assert!(rt; tokens(rt.alloc(), &zeros)?.len() == 1);
    let nines = vec![in rt.alloc(); b'9'; INPUT_BYTES]?;
    let stop = tokens(rt.alloc(), &nines).err();
    assert!(rt; stop == Some(LexStop::Number { place: 0 }));
    Ok(())
}

#[test]
fn values_that_differ_are_not_equal(rt: HostRuntime) {
    let word = token(Kind::Word, 1, 2, 0);
    assert!(rt; word != token(Kind::Number, 1, 2, 0));
    assert!(rt; word != token(Kind::Word, 0, 2, 0));
    assert!(rt; word != token(Kind::Word, 1, 3, 0));
    assert!(rt; word != token(Kind::Word, 1, 2, 1));
    assert!(rt; LexStop::Bad { place: 1 } != LexStop::Bad { place: 2 });
    assert!(rt; LexStop::Bad { place: 1 } != LexStop::Number { place: 1 });
    assert!(rt; Symbol::Number(1) != Symbol::Number(-1));
    assert!(rt; Symbol::Pd != Symbol::OtherWord);
}
