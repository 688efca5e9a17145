// Each class of token and each escape with its spans, each fault with its place, and each byte at each place.

use lp_base::Place;
use lp_lexer::{LexFault, Token, TokenKind, end_place, tokens};
use std::alloc::Global;

fn is_span(token: &Token, wanted: &(TokenKind, usize, usize)) -> bool {
    token.kind == wanted.0 && token.from == wanted.1 && token.to == wanted.2
}

// The text has exactly the tokens of these kinds and spans.
fn reads(alloc: Global, text: &[u8], wanted: &[(TokenKind, usize, usize)]) -> bool {
    let Ok(found) = tokens(alloc, text) else {
        return false;
    };
    if found.len() != wanted.len() {
        return false;
    }
    for (token, span) in found.iter().zip(wanted.iter()) {
        if !is_span(token, span) {
            return false;
        }
    }
    true
}

// The last token of the text is at this place.
fn ends_at(alloc: Global, text: &[u8], line: u64, column: u64) -> bool {
    match tokens(alloc, text) {
        Err(_) => false,
        Ok(found) => match found.last() {
            None => false,
            Some(token) => token.at == Place { line, column },
        },
    }
}

fn refuses(alloc: Global, text: &[u8], wanted: LexFault) -> bool {
    match tokens(alloc, text) {
        Ok(_) => false,
        Err(fault) => fault == wanted,
    }
}

fn at(line: u64, column: u64) -> Place {
    Place { line, column }
}

#[test]
fn classes_and_spans(rt: HostRuntime) {
    use TokenKind::{
        Backslash, Bar, Close, CloseList, Dot, Lower, Number, Open, OpenList, Real, Symbol, Text,
        Upper,
    };
    let alloc = rt.alloc();
    assert!(rt; reads(alloc, b"", &[]), "empty");
    assert!(rt;
        reads(
            alloc,
            b"xY_9'?z X _a",
            &[(Lower, 0, 7), (Upper, 8, 9), (Upper, 10, 12)]
        ),
        "names"
    );
    assert!(rt;
        reads(
            alloc,
            b":-,;!&",
            &[
                (Symbol, 0, 2),
                (Symbol, 2, 3),
                (Symbol, 3, 4),
                (Symbol, 4, 5),
                (Symbol, 5, 6)
            ]
        ),
        "symbols"
    );
    assert!(rt;
        reads(alloc, b"=<~1", &[(Symbol, 0, 3), (Number(1), 3, 4)]),
        "longest symbol"
    );
    assert!(rt;
        reads(alloc, b"+-*/^<>=~@#$&:", &[(Symbol, 0, 14)]),
        "every symbol byte"
    );
    assert!(rt;
        reads(
            alloc,
            b"()[]|.\\",
            &[
                (Open, 0, 1),
                (Close, 1, 2),
                (OpenList, 2, 3),
                (CloseList, 3, 4),
                (Bar, 4, 5),
                (Dot, 5, 6),
                (Backslash, 6, 7)
            ]
        ),
        "marks"
    );
    assert!(rt;
        reads(
            alloc,
            b"007 9223372036854775807",
            &[(Number(7), 0, 3), (Number(9223372036854775807), 4, 23)]
        ),
        "numbers"
    );
    assert!(rt;
        reads(
            alloc,
            b"1.5.6 1. 5",
            &[
                (Real, 0, 3),
                (Dot, 3, 4),
                (Number(6), 4, 5),
                (Number(1), 6, 7),
                (Dot, 7, 8),
                (Number(5), 9, 10)
            ]
        ),
        "reals"
    );
    assert!(rt;
        reads(alloc, b"99999999999999999999.5", &[(Real, 0, 22)]),
        "a long real"
    );
    assert!(rt;
        reads(
            alloc,
            b"\"\" \"a\\\\\\\"\\n\\t%/*\"x",
            &[(Text, 0, 2), (Text, 3, 17), (Lower, 17, 18)]
        ),
        "strings"
    );
    assert!(rt;
        reads(alloc, b"\"\t\r ~\"", &[(Text, 0, 6)]),
        "blanks in a string"
    );
    assert!(rt;
        reads(
            alloc,
            b"a%b\"\nc/*/*\x00*/\"%*/d",
            &[(Lower, 0, 1), (Lower, 5, 6), (Lower, 17, 18)]
        ),
        "comments"
    );
    assert!(rt;
        reads(
            alloc,
            b"+/*-*/- */**/",
            &[(Symbol, 0, 1), (Symbol, 6, 7), (Symbol, 8, 9)]
        ),
        "a symbol before a comment"
    );
    assert!(rt; ends_at(alloc, b"a\n\t\"b\" c", 2, 6), "columns in bytes");
    assert!(rt; end_place(b"a\nbc") == at(2, 3), "behind a text");
}

#[test]
fn faults_and_places(rt: HostRuntime) {
    let alloc = rt.alloc();
    assert!(rt;
        refuses(alloc, b"a\n {", LexFault::BadByte(at(2, 2))),
        "a byte of no token"
    );
    assert!(rt;
        refuses(alloc, b"\x00", LexFault::BadByte(at(1, 1))),
        "zero"
    );
    assert!(rt;
        refuses(alloc, b"'", LexFault::BadByte(at(1, 1))),
        "a quote of no string"
    );
    assert!(rt;
        refuses(alloc, b"\xc3\xa9", LexFault::BadByte(at(1, 1))),
        "past 126"
    );
    assert!(rt;
        refuses(alloc, b"\"a\\q\"", LexFault::BadByte(at(1, 3))),
        "no escape"
    );
    assert!(rt;
        refuses(alloc, b"\"a\x80\\\"\"", LexFault::BadByte(at(1, 3))),
        "a bad byte in a string"
    );
    assert!(rt;
        refuses(alloc, b"X = \"abc", LexFault::OpenText(at(1, 5))),
        "open at the end"
    );
    assert!(rt;
        refuses(alloc, b"\"a\\", LexFault::OpenText(at(1, 1))),
        "ends in an escape"
    );
    assert!(rt;
        refuses(alloc, b"\"a\\q\x00\n\"", LexFault::OpenText(at(1, 1))),
        "open goes before bad"
    );
    assert!(rt;
        refuses(alloc, b"\"a\\q\\\"", LexFault::OpenText(at(1, 1))),
        "the last quote is escaped"
    );
    assert!(rt;
        refuses(alloc, b"/* /* */", LexFault::OpenComment(at(1, 1))),
        "the outermost opening"
    );
    assert!(rt;
        refuses(alloc, b"\n/*/", LexFault::OpenComment(at(2, 1))),
        "no byte of two pairs"
    );
    assert!(rt;
        refuses(
            alloc,
            b" 9223372036854775808",
            LexFault::BigNumber(at(1, 2))
        ),
        "past 64 bits"
    );
    assert!(rt;
        refuses(alloc, b"{ \"", LexFault::BadByte(at(1, 1))),
        "the first of two"
    );
}

// What a byte is by itself.
fn is_as_listed(alloc: Global, b: u8) -> bool {
    use TokenKind::{
        Backslash, Bar, Close, CloseList, Dot, Lower, Number, Open, OpenList, Symbol, Upper,
    };
    let text = [b];
    let kind = match b {
        9 | 10 | 13 | 32 | 37 => return reads(alloc, &text, &[]),
        34 => return refuses(alloc, &text, LexFault::OpenText(at(1, 1))),
        48..=57 => Number((b - 48) as i64),
        65..=90 | 95 => Upper,
        97..=122 => Lower,
        33 | 35 | 36 | 38 | 42..=45 | 47 | 58..=62 | 64 | 94 | 126 => Symbol,
        40 => Open,
        41 => Close,
        91 => OpenList,
        93 => CloseList,
        124 => Bar,
        46 => Dot,
        92 => Backslash,
        _ => return refuses(alloc, &text, LexFault::BadByte(at(1, 1))),
    };
    reads(alloc, &text, &[(kind, 0, 1)])
}

// What a byte does in a string, behind a \ in a string, in a comment, and behind a name.
fn is_as_placed(alloc: Global, b: u8) -> bool {
    let string = [34, b, 34];
    let inside = match b {
        10 | 92 => refuses(alloc, &string, LexFault::OpenText(at(1, 1))),
        34 => refuses(alloc, &string, LexFault::OpenText(at(1, 3))),
        9 | 13 | 32..=126 => reads(alloc, &string, &[(TokenKind::Text, 0, 3)]),
        _ => refuses(alloc, &string, LexFault::BadByte(at(1, 2))),
    };
    let escape = [34, 92, b, 34];
    let escaped = match b {
        34 | 92 | 110 | 116 => reads(alloc, &escape, &[(TokenKind::Text, 0, 4)]),
        10 => refuses(alloc, &escape, LexFault::OpenText(at(1, 1))),
        _ => refuses(alloc, &escape, LexFault::BadByte(at(1, 2))),
    };
    let comment = [47, 42, b, 42, 47];
    let skipped = match b {
        47 => refuses(alloc, &comment, LexFault::OpenComment(at(1, 1))),
        _ => reads(alloc, &comment, &[]),
    };
    let name = [97, b];
    let goes_on = match b {
        39 | 48..=57 | 63 | 65..=90 | 95 | 97..=122 => true,
        _ => false,
    };
    inside && escaped && skipped && reads(alloc, &name, &[(TokenKind::Lower, 0, 2)]) == goes_on
}

#[test]
fn every_byte(rt: HostRuntime) {
    let alloc = rt.alloc();
    for b in 0..256u32 {
        assert!(rt; is_as_listed(alloc, b as u8), "by itself");
        assert!(rt; is_as_placed(alloc, b as u8), "at its place");
    }
}
