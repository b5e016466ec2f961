//! The words of the command line, and the bench, through the top call in memory.

use crate::run::run;
use local_std::{Status, cert_path};
use std::alloc::Global;
use std::test::Fail;
use std::thread::Threads;

const USAGE: &[u8] =
    b"usage: lstd solve [--workers W] [--cert PATH] | lstd check | lstd bench K [--workers W] [--cert PATH]\n";

/// Lists of words that ask for nothing.
const NOTHING: [&[&str]; 63] = [
    &[],
    &[""],
    &["solve", ""],
    &["solve "],
    &["Solve"],
    &["solve", "solve"],
    &["solve", "x"],
    &["solve", "0"],
    &["solve", "bench", "0"],
    &["solve", "--workers", "17"],
    &["solve", "--workers", "04"],
    &["solve", "--workers=0"],
    &["solve", "--workers="],
    &["solve", "--workers"],
    &["solve", "--workers", "+1"],
    &["solve", "--workers", "1x"],
    &["solve", "--workers", "-1"],
    &["solve", "--workers", "65537"],
    &["solve", "--workers", "2", "--workers=2"],
    &["bench", "--workers", "5"],
    &["check", "--workers", "2"],
    &["check", "--workers=2"],
    &["solve", "--cert="],
    &["solve", "--cert"],
    &["solve", "--cert", ""],
    &["solve", "--cert", "-"],
    &["solve", "--cert", "-p"],
    &["solve", "--cert", "--cert=p"],
    &["solve", "--cert", "p", "--cert", "q"],
    &["solve", "--cert=p", "--cert", "p"],
    &["solve", "--cert=p", "x"],
    &["solve", "--certificate=p"],
    &["solve", "-cert=p"],
    &["solve", "--cert =p"],
    &["--cert=p", "solve"],
    &["solve", "--"],
    &["solve", "-"],
    &["--help"],
    &["-h"],
    &["check", "x"],
    &["check", "--cert", "p"],
    &["check", "0"],
    &["bench"],
    &["Bench", "0"],
    &["bench", ""],
    &["bench", "04095"],
    &["bench", "4096"],
    &["bench", "00"],
    &["bench", "+0"],
    &["bench", "-0"],
    &["bench", "-1"],
    &["bench", " 0"],
    &["bench", "0x1"],
    &["bench", "65536"],
    &["bench", "18446744073709551616"],
    &["bench", "0", "0"],
    &["bench", "0", "--cert=p", "1"],
    &["bench", "--cert", "5"],
    &["bench", "--cert", "-p", "0"],
    &["bench", "0", "--cert="],
    &["bench", "--workers", "17", "0"],
    &["bench=0"],
    &["0", "bench"],
];

/// A list of words that names the path of a certificate, and the path.
struct Named {
    words: &'static [&'static str],
    path: &'static str,
}

const NAMED: [Named; 16] = [
    Named {
        words: &["solve", "--cert", "p"],
        path: "p",
    },
    Named {
        words: &["solve", "--cert=p"],
        path: "p",
    },
    Named {
        words: &["solve", "--cert=-p"],
        path: "-p",
    },
    Named {
        words: &["solve", "--cert=="],
        path: "=",
    },
    Named {
        words: &["solve", "--cert", "p=q"],
        path: "p=q",
    },
    Named {
        words: &["solve", "--cert=--cert"],
        path: "--cert",
    },
    Named {
        words: &["solve", "--cert", "solve"],
        path: "solve",
    },
    Named {
        words: &["solve", "--cert", " "],
        path: " ",
    },
    Named {
        words: &["bench", "--cert", "5", "7"],
        path: "5",
    },
    Named {
        words: &["bench", "7", "--cert", "5"],
        path: "5",
    },
    Named {
        words: &["bench", "--cert=5", "7"],
        path: "5",
    },
    Named {
        words: &["bench", "7", "--cert=5"],
        path: "5",
    },
    Named {
        words: &["bench", "4095", "--cert", "bench"],
        path: "bench",
    },
    Named {
        words: &["bench", "--cert", "a/b", "0"],
        path: "a/b",
    },
    Named {
        words: &["solve", "--workers", "3", "--cert", "p"],
        path: "p",
    },
    Named {
        words: &["bench", "--cert=p", "7", "--workers=16"],
        path: "p",
    },
];

/// A list of words that asks for a bench, and what answers it.
struct Bench {
    words: &'static [&'static str],
    answer: &'static [u8],
}

const BENCHES: [Bench; 6] = [
    Bench {
        words: &["bench", "0"],
        answer: b"bench 0\n1 milnor f\nmilnor 14\n2 highcorner j\ncorner z^6\n",
    },
    Bench {
        words: &["bench", "--cert", "5", "0"],
        answer: b"bench 0\n1 milnor f\nmilnor 14\n2 highcorner j\ncorner z^6\n",
    },
    Bench {
        words: &["bench", "0", "--cert=p"],
        answer: b"bench 0\n1 milnor f\nmilnor 14\n2 highcorner j\ncorner z^6\n",
    },
    Bench {
        words: &["bench", "--workers", "2", "0"],
        answer: b"bench 0\n1 milnor f\nmilnor 14\n2 highcorner j\ncorner z^6\n",
    },
    Bench {
        words: &["bench", "0", "--workers=16", "--cert", "p"],
        answer: b"bench 0\n1 milnor f\nmilnor 14\n2 highcorner j\ncorner z^6\n",
    },
    Bench {
        words: &["bench", "15"],
        answer: b"bench 15\n1 milnor f\nmilnor 29\n2 highcorner j\ncorner x^19\n",
    },
];

/// Whether the words are answered by this status and text, over a source of which the first read fails.
fn is_answered_unread<R: Threads + Sync>(
    rt: &R,
    alloc: Global,
    words: &[&str],
    status: Status,
    answer: &[u8],
) -> Result<bool, Fail> {
    let (found, out) = run(rt, alloc, words, b"", &[0], 1000)?;
    Ok(found == status && out.bytes() == answer)
}

#[test]
fn words_that_ask_for_nothing(rt: HostRuntime) -> Result<(), Fail> {
    for words in NOTHING {
        assert!(rt; is_answered_unread(&rt, rt.alloc(), words, Status::Usage, USAGE)?);
    }
    Ok(())
}

#[test]
fn words_that_ask_to_solve(rt: HostRuntime) -> Result<(), Fail> {
    assert!(rt; is_answered_unread(&rt, rt.alloc(), &["solve"], Status::ReadFault, b"")?);
    Ok(())
}

#[test]
fn words_that_ask_for_a_bench(rt: HostRuntime) -> Result<(), Fail> {
    for bench in &BENCHES {
        assert!(rt; is_answered_unread(&rt, rt.alloc(), bench.words, Status::Fits, bench.answer)?);
    }
    Ok(())
}

#[test]
fn greatest_bench(rt: HostRuntime) -> Result<(), Fail> {
    let answer = b"bench 4095\n1 milnor f\nmilnor 59\n2 highcorner j\ncorner z^21\n";
    assert!(rt; is_answered_unread(&rt, rt.alloc(), &["bench", "4095"], Status::Fits, answer)?);
    Ok(())
}

/// Whether these words name this path.
fn is_named(alloc: Global, words: &[&str], path: Option<&str>) -> Result<bool, Fail> {
    let mut given = Vec::new(alloc);
    for word in words {
        given.push(String::from_str(alloc, *word)?)?;
    }
    Ok(cert_path(&given) == path)
}

#[test]
fn words_that_name_a_path(rt: HostRuntime) -> Result<(), Fail> {
    for named in &NAMED {
        assert!(rt; is_named(rt.alloc(), named.words, Some(named.path))?);
    }
    Ok(())
}

#[test]
fn words_that_name_no_path(rt: HostRuntime) -> Result<(), Fail> {
    for words in NOTHING {
        assert!(rt; is_named(rt.alloc(), words, None)?);
    }
    assert!(rt; is_named(rt.alloc(), &["solve"], None)?);
    assert!(rt; is_named(rt.alloc(), &["bench", "0"], None)?);
    Ok(())
}
