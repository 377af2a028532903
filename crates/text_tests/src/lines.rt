//! Numbers, lines and words worked out by hand.
use rl_text::{Line, Lines, Refusal, TextErr, Why, number, put_refusal};
use std::alloc::AllocError;
use std::test::*;

#[test]
fn words_that_are_numbers(rt: HostRuntime) {
    for (word, want) in [
        (b"0".as_slice(), Some(0)),
        (b"7", Some(7)),
        (b"10", Some(10)),
        (b"18446744073709551615", Some(u64::MAX)),
        (b"18446744073709551616", None),
        (b"99999999999999999999", None),
        (b"00", None),
        (b"007", None),
        (b"+1", None),
        (b"-1", None),
        (b"1.0", None),
        (b"1\r", None),
        (b"x", None),
        (b"", None),
    ] {
        assert_eq!(rt; number(word), want);
    }
}

fn is_line(line: Option<Line<'_>>, text: &[u8], number: u32, ended: bool) -> bool {
    match line {
        Some(line) => line.text == text && line.number == number && line.ended == ended,
        None => false,
    }
}

#[test]
fn lines_and_their_words(rt: HostRuntime) {
    let mut lines = Lines::new(b"rank  0\n\nend\r\nlast");
    let first = lines.next_line();
    assert!(rt; is_line(first, b"rank  0", 1, true));
    if let Some(line) = first {
        let mut words = line.words();
        assert_eq!(rt; words.next_word(), Some(b"rank".as_slice()));
        assert!(rt; words.is_next(b""));
        assert_eq!(rt; words.next_word(), Some(b"".as_slice()));
        assert_eq!(rt; words.below(1), Ok(0));
        assert_eq!(rt; words.next_word(), None);
    }
    let second = lines.next_line();
    assert!(rt; is_line(second, b"", 2, true));
    if let Some(line) = second {
        let mut words = line.words();
        assert_eq!(rt; words.next_word(), Some(b"".as_slice()));
        assert_eq!(rt; words.next_word(), None);
    }
    assert!(rt; lines.next_begins(b"end\r"));
    assert!(rt; is_line(lines.next_line(), b"end\r", 3, true));
    assert!(rt; is_line(lines.next_line(), b"last", 4, false));
    assert!(rt; lines.next_line().is_none());
}

#[test]
fn a_refusal_as_it_is_printed(rt: HostRuntime) {
    let refusal = Refusal {
        line: 9,
        word: 0,
        why: Why::NoEnd,
    };
    let mut out = Vec::new(rt.alloc());
    put_refusal(&mut out, refusal).expect(&rt, "memory");
    assert_eq!(rt; out.as_slice(), b"9 0 noend".as_slice());
    assert_eq!(rt; Why::Version.name(), "version");
    match TextErr::from(AllocError) {
        TextErr::Memory => {}
        TextErr::Refused(_) => panic!(rt; "want of memory is no refusal"),
    }
}
