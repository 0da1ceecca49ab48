//! Tables of runs and texts, worked out by hand from the rules of the profile.
use base_names::{FaultWord, OrMemory};
use frac128::Frac;
use lp_lex::{LexFault, Lexer, Place, SectionWord, Token, TokenKind, tokens};
use model_data::Sense;
use std::alloc::Global;

/// The tokens of a short text.
fn read(alloc: Global, text: &[u8]) -> Result<Vec<Token>, OrMemory<LexFault>> {
    if text.len() < 1_000 {
        tokens(alloc, text)
    } else {
        Err(OrMemory::NoMemory)
    }
}

/// The text has so many tokens.
fn has_tokens(alloc: Global, text: &str, count: usize) -> bool {
    match read(alloc, text.as_bytes()) {
        Ok(found) => found.len() == count,
        Err(_) => false,
    }
}

/// The run alone is a token of the kind.
fn is_token(alloc: Global, run: &[u8], kind: &TokenKind) -> bool {
    let token = Token {
        line: 1,
        column: 1,
        start: 0,
        end: u32::try_from(run.len()).unwrap_or(0),
        kind: *kind,
    };
    match read(alloc, run) {
        Ok(found) => found.as_slice() == [token].as_slice(),
        Err(_) => false,
    }
}

fn number(num: i128, den: i128) -> Option<TokenKind> {
    Frac::make(num, den).map(TokenKind::Number)
}

fn is_number(alloc: Global, run: &[u8], num: i128, den: i128) -> bool {
    match &number(num, den) {
        Some(kind) => is_token(alloc, run, kind),
        None => false,
    }
}

/// Each of the runs, which blanks part.
fn are_tokens(alloc: Global, runs: &str, kind: &TokenKind) -> bool {
    for run in runs.split(' ') {
        if !is_token(alloc, run.as_bytes(), kind) {
            return false;
        }
    }
    true
}

fn is_fault(alloc: Global, text: &[u8], line: u32, column: u32, fault: FaultWord) -> bool {
    let wanted = LexFault {
        line,
        column,
        fault,
    };
    match read(alloc, text) {
        Err(OrMemory::Fault(found)) => found == wanted,
        _ => false,
    }
}

/// Each of the runs, which blanks part, at its first byte.
fn are_faults(alloc: Global, runs: &str, fault: FaultWord) -> bool {
    for run in runs.split(' ') {
        if !is_fault(alloc, run.as_bytes(), 1, 1, fault) {
            return false;
        }
    }
    true
}

const NUMBERS: &[(&str, i128, i128)] = &[
    ("7", 7, 1),
    (".5", 1, 2),
    ("+3/6", 1, 2),
    ("-2.5e1", -25, 1),
    ("0e9999", 0, 1),
];

#[test]
fn symbols_and_numbers(rt: HostRuntime) {
    let symbols = [
        ("+", TokenKind::Sign { negative: false }),
        ("-", TokenKind::Sign { negative: true }),
        (":", TokenKind::Colon),
        ("<", TokenKind::Comparison(Sense::Less)),
        ("<=", TokenKind::Comparison(Sense::Less)),
        ("=<", TokenKind::Comparison(Sense::Less)),
        (">", TokenKind::Comparison(Sense::Greater)),
        (">=", TokenKind::Comparison(Sense::Greater)),
        ("=>", TokenKind::Comparison(Sense::Greater)),
        ("=", TokenKind::Comparison(Sense::Equal)),
        ("inf", TokenKind::Infinite { negative: false }),
        ("+INF", TokenKind::Infinite { negative: false }),
        ("-Infinity", TokenKind::Infinite { negative: true }),
        (
            "1e39",
            TokenKind::TooWide {
                negative: false,
                huge: true,
            },
        ),
        (
            "-8e-39",
            TokenKind::TooWide {
                negative: true,
                huge: false,
            },
        ),
    ];
    for (run, kind) in &symbols {
        assert!(rt; is_token(rt.alloc(), run.as_bytes(), kind), "{run}");
    }
    for (run, num, den) in NUMBERS {
        assert!(rt; is_number(rt.alloc(), run.as_bytes(), *num, *den), "{run}");
    }
}

const WORDS: &[(SectionWord, &str)] = &[
    (SectionWord::Minimize, "minimize Minimise MINIMUM min"),
    (SectionWord::Maximize, "maximize maximise maximum mAx"),
    (SectionWord::Subject, "subject Subject"),
    (SectionWord::Such, "such SUCH"),
    (SectionWord::Constraints, "st ST. s.t."),
    (SectionWord::Bounds, "Bounds bound"),
    (SectionWord::General, "general Generals gen"),
    (SectionWord::Binary, "binary binaries Bin"),
    (SectionWord::Free, "free FREE"),
    (SectionWord::End, "end End"),
];

const NAMES: &str =
    "x x<=5 x*y a^2 x+y x[1] lazy user constraints to that infx e5 _ !#$% a,b minimal s b g f e i m p S.T st.. subjects mine";

#[test]
fn words(rt: HostRuntime) {
    for (word, runs) in WORDS {
        assert!(rt;
            are_tokens(rt.alloc(), runs, &TokenKind::Section(*word)),
            "{runs}"
        );
    }
    assert!(rt; are_tokens(rt.alloc(), NAMES, &TokenKind::Name));
    assert!(rt; are_tokens(rt.alloc(), "x: lazy: to: x<=5: #:", &TokenKind::Label));
}

const NO_TOKENS: &[(FaultWord, &str)] = &[
    (
        FaultWord::Unsupported,
        "-> [x] [ [a]: semi-continuous Semis semi SOS pwlobj multi-objectives scenario",
    ),
    (
        FaultWord::Number,
        "2x 3: -x +y . 1/0 --5 -- +inf: -end 1e 0x10",
    ),
    (
        FaultWord::Word,
        ":x x:y a:: :: end: INF: infinity: semis: <=5 >=-1 == <> <: *x ^ ( )x ] ,a =x:",
    ),
];

#[test]
fn runs_that_are_no_tokens(rt: HostRuntime) {
    for (fault, runs) in NO_TOKENS {
        assert!(rt; are_faults(rt.alloc(), runs, *fault), "{runs}");
    }
}

/// Runs of 256 bytes, of which most may be left out.
#[test]
fn long_runs(rt: HostRuntime) {
    let alloc = rt.alloc();
    let mut name = [b'n'; 258];
    assert!(rt; is_token(alloc, &name[..255], &TokenKind::Name));
    assert!(rt; is_fault(alloc, &name[..256], 1, 1, FaultWord::NameLength));
    name[256] = b':';
    name[257] = b':';
    assert!(rt; is_token(alloc, &name[1..257], &TokenKind::Label));
    assert!(rt; is_fault(alloc, &name[..257], 1, 1, FaultWord::NameLength));
    assert!(rt; is_fault(alloc, &name, 1, 1, FaultWord::Word));
    let digits = [b'0'; 256];
    assert!(rt; is_number(alloc, &digits[..255], 0, 1));
    assert!(rt; is_fault(alloc, &digits, 1, 1, FaultWord::Number));
}

const PLACES: &[(&[u8], u32, u32, FaultWord)] = &[
    (b"x\n  y\t<=5", 2, 5, FaultWord::Word),
    (b"x [ ==", 1, 3, FaultWord::Unsupported),
    // A byte that no token has is looked for before the kind.
    (b"Max 2x\x01 st end", 1, 7, FaultWord::Word),
    (b"[\x7F", 1, 2, FaultWord::Word),
    (b"Max caf\xE9\xE9 st end", 1, 8, FaultWord::Word),
    (b"\\ \x00\xFF [ \r x\x01\n\x0Bx", 2, 1, FaultWord::Word),
    // Two words on one line.
    (b" Generals lazy constraints", 1, 11, FaultWord::Unsupported),
    (b"\nLAZY\r\tConstraints", 2, 1, FaultWord::Unsupported),
    (b"user  cuts", 1, 1, FaultWord::Unsupported),
    (b"General constraints", 1, 1, FaultWord::Unsupported),
    (b"lazy constraints\x01", 1, 17, FaultWord::Word),
];

#[test]
fn places_of_faults(rt: HostRuntime) {
    for (text, line, column, fault) in PLACES {
        assert!(rt;
            is_fault(rt.alloc(), text, *line, *column, *fault),
            "{line} {column}"
        );
    }
}

/// Texts of two tokens.
const TOGETHER: &[&str] = &[
    "lazy\nconstraints",
    "lazy \\ constraints\n constraints",
    "generals constraints",
    "gen constraints",
    "general cuts",
    "user constraints",
    "lazy constraints:",
    "constraints lazy",
];

const EMPTY: &[&str] = &["", " \t\r\n", "\\", "\\ x\r y\\z", "\n\\a\n\n"];

#[test]
fn counts_of_tokens(rt: HostRuntime) {
    for text in TOGETHER {
        assert!(rt; has_tokens(rt.alloc(), text, 2), "{text}");
    }
    for text in EMPTY {
        assert!(rt; has_tokens(rt.alloc(), text, 0), "{text}");
    }
}

fn token((line, column, start, end): (u32, u32, u32, u32), kind: TokenKind) -> Token {
    Token {
        line,
        column,
        start,
        end,
        kind,
    }
}

fn are_those_of_the_text(found: &[Token], two: TokenKind, five: TokenKind) -> bool {
    let expected = [
        token((1, 1, 0, 3), TokenKind::Section(SectionWord::Maximize)),
        token((1, 5, 4, 5), TokenKind::Name),
        token((2, 2, 9, 11), TokenKind::Section(SectionWord::Constraints)),
        token((2, 5, 12, 15), TokenKind::Label),
        token((2, 9, 16, 17), two),
        token((2, 11, 18, 19), TokenKind::Name),
        token((2, 13, 20, 22), TokenKind::Comparison(Sense::Less)),
        token((2, 16, 23, 24), five),
        token((3, 1, 26, 29), TokenKind::Section(SectionWord::End)),
    ];
    found == expected.as_slice()
}

fn text_is_split(alloc: Global) -> bool {
    match (
        &read(alloc, b"Max x\\c\n st\tR1: 2 x <= 5\r\nend"),
        &number(2, 1),
        &number(5, 1),
    ) {
        (Ok(found), Some(two), Some(five)) => {
            are_those_of_the_text(found.as_slice(), *two, *five)
        }
        _ => false,
    }
}

#[test]
fn a_text(rt: HostRuntime) {
    assert!(rt; text_is_split(rt.alloc()));
}

/// A fault comes again, and its place isn't the end's.
fn stays_at_a_fault() -> bool {
    let mut lexer = Lexer::new(b"a\n[ b");
    let fault = LexFault {
        line: 2,
        column: 1,
        fault: FaultWord::Unsupported,
    };
    let end = Place {
        line: 2,
        column: 4,
        offset: 5,
    };
    lexer.next_token() == Ok(Some(token((1, 1, 0, 1), TokenKind::Name)))
        && lexer.next_token() == Err(fault)
        && lexer.next_token() == Err(fault)
        && lexer.end() == end
}

fn stays_at_the_end() -> bool {
    let mut lexer = Lexer::new(b" \\ no more\n");
    let end = Place {
        line: 2,
        column: 1,
        offset: 11,
    };
    lexer.next_token() == Ok(None) && lexer.next_token() == Ok(None) && lexer.end() == end
}

#[test]
fn one_at_a_time(rt: HostRuntime) {
    assert!(rt; stays_at_a_fault());
    assert!(rt; stays_at_the_end());
}
