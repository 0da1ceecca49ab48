//! Command lines, and what each of them asks for.

use command_words::{Words, read_words};
use std::test::Fail;

/// What the words ask for, as a short text.
fn asked(rt: HostRuntime, line: &str) -> Result<String, Fail> {
    let alloc = rt.alloc();
    let mut words = Vec::new(alloc);
    for word in line.split('|') {
        words.push(String::from_str(alloc, word)?)?;
    }
    let Ok(found) = read_words(alloc, &words) else {
        return Ok(String::from_str(alloc, "refused")?);
    };
    let text = match &found {
        Words::Session(owner, role, journal) => format!(in alloc;
            "session {owner} {role:?} {journal}"
        )?,
        Words::Work(journal) => format!(in alloc; "work {journal}")?,
        Words::Replay => format!(in alloc; "replay")?,
        Words::Solve(p) => format!(in alloc; "solve {} {} {}", p.iterations, p.nodes, p.work)?,
        Words::Verify => format!(in alloc; "verify")?,
        Words::Limits => format!(in alloc; "limits")?,
        Words::Load(seed) => format!(in alloc; "load {seed}")?,
        Words::Serve(s) => format!(in alloc;
            "serve {} {} {} {} {} {} {}",
            s.keys, s.port, s.journal, s.nodes, s.limit, s.hard, s.workers
        )?,
    };
    Ok(text)
}

static ROWS: [(&str, &str); 55] = [
    ("p|solve|--nodes=5", "solve 100000 5 1000000000000"),
    ("p|solve|--nodes|5", "solve 100000 5 1000000000000"),
    ("p|solve|--nodes|-1", "refused"),
    ("p|solve|--nodes=-1", "refused"),
    ("p|solve|--nodes", "refused"),
    ("p|solve|--nodes=", "refused"),
    ("p|solve|--nodes=5=5", "refused"),
    ("p|solve|--nodes=5|--nodes=5", "refused"),
    ("p|solve|--node=5", "refused"),
    ("p|solve|--nodes=+5", "refused"),
    ("p|solve|--nodes=005|--work|7", "solve 100000 5 7"),
    ("p|solve|--iterations=100000000000000000000000", "refused"),
    ("p|solve|5", "refused"),
    ("p|solve|", "refused"),
    ("p|session|Ada", "refused"),
    ("p|session", "refused"),
    ("p|session|", "refused"),
    ("p|session|ada", "session ada Standard cluster.journal"),
    (
        "p|session|--admin|ada|--journal=a=b",
        "session ada Admin a=b",
    ),
    ("p|session|--journal|f|--admin|ada", "session ada Admin f"),
    ("p|session|ada|--adm", "refused"),
    ("p|session|ada|--admin=1", "refused"),
    ("p|session|ada|--admin|--admin", "refused"),
    ("p|session|ada|bob", "refused"),
    ("p|session|--|ada", "refused"),
    ("p|session|ada|--", "refused"),
    ("p|session|ada|--journal=", "refused"),
    ("p|session|ada|--journal|", "refused"),
    ("p|session|ada|--journal=-x", "refused"),
    ("p|session|ada|--journal|-", "refused"),
    ("p|session|ada|-j|x", "refused"),
    ("p|help", "refused"),
    ("p|--help", "refused"),
    ("p|--version", "refused"),
    ("p|session|--help", "refused"),
    ("p|-|replay", "refused"),
    ("p|replay", "replay"),
    ("p", "refused"),
    ("p|load|007", "load 7"),
    ("p|load|18446744073709551616", "refused"),
    ("p|work", "work cluster.journal"),
    ("p|verify", "verify"),
    ("p|limits", "limits"),
    ("p|limits|x", "refused"),
    ("p|limits|--nodes=5", "refused"),
    ("p|serve|--keys|k", "serve k 61000 cluster.journal 1 2 0 2"),
    (
        "p|serve|--port=65535|--keys=k|--journal|j|--nodes=16|--joblimit=1000|--hardlimit=1000|--workers=16",
        "serve k 65535 j 16 1000 1000 16",
    ),
    ("p|serve", "refused"),
    ("p|serve|--keys=", "refused"),
    ("p|serve|--keys=k|--port=0", "refused"),
    ("p|serve|--keys=k|--port=65536", "refused"),
    ("p|serve|--keys=k|--nodes=17", "refused"),
    ("p|serve|--keys=k|--workers=0", "refused"),
    ("p|serve|--keys=k|--joblimit=1001", "refused"),
    ("p|serve|--keys=k|--hardlimit=1", "refused"),
];

#[test]
fn command_lines(rt: HostRuntime) -> Result<(), Fail> {
    for (line, want) in ROWS.iter() {
        assert_eq!(rt; asked(rt, line)?.as_str(), *want);
    }
    Ok(())
}
