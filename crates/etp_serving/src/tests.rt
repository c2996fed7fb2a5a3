// Whole sessions over the forms in memory, however reads and writes are cut and wherever one fails.
mod bodies;

use crate::session;
use etp_io::{MemoryShelf, MemorySink, MemorySource};
use std::alloc::{AllocError, Global};

const MOST: u64 = 134_217_728;

// A session: its limit, its input, the names on the shelf and their bytes, the greatest piece of a
// read and of a write, the read, the write and the read of the shelf that fail (0: none), and what
// it must write and answer.
#[derive(Clone, Copy)]
struct Case<'a> {
    limit: u64,
    input: &'a str,
    names: &'a [(&'a str, &'a str)],
    read: usize,
    write: usize,
    failing_read: u32,
    failing_write: u32,
    failing_load: u32,
    output: &'a str,
    status: u8,
}

fn plain<'a>(input: &'a str, output: &'a str, status: u8) -> Case<'a> {
    Case {
        limit: MOST,
        input,
        names: &[],
        read: 4096,
        write: 4096,
        failing_read: 0,
        failing_write: 0,
        failing_load: 0,
        output,
        status,
    }
}

fn shelf_of(alloc: Global, case: &Case<'_>) -> Result<MemoryShelf, AllocError> {
    let failing = Vec::from_slice(alloc, &[case.failing_load])?;
    let mut shelf = MemoryShelf::of(alloc, case.read.max(1), failing);
    for (name, bytes) in case.names {
        let name = Vec::from_slice(alloc, name.as_bytes())?;
        let bytes = Vec::from_slice(alloc, bytes.as_bytes())?;
        shelf.put(name, bytes)?;
    }
    Ok(shelf)
}

// Serves the session, and answers its status and the sink.
fn served(alloc: Global, case: &Case<'_>) -> Result<(u8, MemorySink), AllocError> {
    let bytes = Vec::from_slice(alloc, case.input.as_bytes())?;
    let failing_reads = Vec::from_slice(alloc, &[case.failing_read])?;
    let failing_writes = Vec::from_slice(alloc, &[case.failing_write])?;
    let mut source = MemorySource::of(bytes, case.read.max(1), failing_reads);
    let mut sink = MemorySink::of(alloc, 10000, case.write.max(1), failing_writes)?;
    let mut shelf = shelf_of(alloc, case)?;
    let limit = case.limit.min(MOST);
    let status = session(alloc, limit, &mut source, &mut sink, &mut shelf);
    Ok((status, sink))
}

fn is_right(alloc: Global, case: &Case<'_>) -> Result<bool, AllocError> {
    let (status, sink) = served(alloc, case)?;
    Ok(status == case.status && sink.taken() == case.output.as_bytes())
}

// Whether the session ends as it must, or with this status and a front of what it must write.
fn is_cut(alloc: Global, case: &Case<'_>, early: u8) -> Result<bool, AllocError> {
    let (status, sink) = served(alloc, case)?;
    let output = case.output.as_bytes();
    Ok(
        status == case.status && sink.taken() == output
            || status == early && output.starts_with(sink.taken()),
    )
}

#[test]
fn sessions_write_their_text(rt: HostRuntime) {
    let cases = [
        plain("", "", 0),
        plain("# none\n\n", "", 0),
        plain("law 4512\n", "4512 x ◇ (y ◇ z) = (x ◇ y) ◇ z\n", 0),
        plain(
            "law 99\r\nlaw 677",
            "99 x = x ◇ ((x ◇ x) ◇ x)\n677 x = y ◇ (x ◇ ((y ◇ x) ◇ y))\n",
            0,
        ),
        plain(
            "law 1\nlaw 4694\nlaw 0\nlaw 4695\n",
            "1 x = x\n4694 (x ◇ y) ◇ z = (w ◇ u) ◇ v\nrefused 3: unknown law 0\nrefused 4: unknown law 4695\n",
            1,
        ),
        plain("why 1 1\nlwa 1\n", "1 1 implied\nrefused 2: bad line\n", 1),
        plain(
            "\norder 5\nlaw 62577\norder 4\n",
            "refused 3: unknown law 62577\nrefused 4: bad line\n",
            1,
        ),
        plain("law 2\norder 5\n", "2 x = y\nrefused 2: bad line\n", 1),
    ];
    for case in &cases {
        for piece in [1, 7, 4096] {
            let cut = Case {
                read: piece,
                write: piece,
                ..*case
            };
            assert!(rt;
                is_right(rt.alloc(), &cut).expect(&rt, "memory"),
                "{}",
                case.input
            );
        }
    }
}

const PROOF: &str = "file p1\nproof 4 3\nlemma x\nstep 0 > . x * x\nend\n";

#[test]
fn files_are_accepted_cited_and_withdrawn(rt: HostRuntime) {
    let cases = [
        plain(
            "file p1\nproof 4 3\nlemma x\nstep 0 > . x * x\nend\nask 4 3\nask 5 3\nask 3 4\ncounts\n",
            "accepted p1: implies 4 3\n4 3 implied\n5 3 implied\n3 4 open\nimplied 4696 refuted 0 open 22028940\n",
            0,
        ),
        plain(
            "file p\nproof 4 43\nlemma x * y\nstep 0 > . y * x\nend\nfile p\nproof 4 3\nlemma x\nstep 0 > . x * x\nend\nfile p\nend\nfiles\n",
            "refused 1: p: no match lemma 1 step 1\naccepted p: implies 4 3\nrefused 11: name taken p\np proof 4 3\nfiles 1\n",
            1,
        ),
        plain(
            "file a\nproof 4 3\nlemma x\nstep 0 > . x * x\nend\nfile b\nproof2 4 8\ncite a\nlemma x\nstep c1 > . x * x\nstep c1 > r x * (x * x)\nend\nwithdraw a\nwithdraw b\nwithdraw a\nask 4 3\nwithdraw a\n",
            "accepted a: implies 4 3\naccepted b: implies 4 8\nrefused 13: cited a by b\nwithdrawn b\nwithdrawn a\n4 3 open\nrefused 17: no such name a\n",
            1,
        ),
    ];
    for case in &cases {
        for piece in [1, 7, 4096] {
            let cut = Case {
                read: piece,
                write: piece,
                ..*case
            };
            assert!(rt;
                is_right(rt.alloc(), &cut).expect(&rt, "memory"),
                "{}",
                case.input
            );
        }
    }
}

#[test]
fn a_file_that_is_not_closed_is_refused_where_the_source_ends(rt: HostRuntime) {
    let cases = [
        plain(
            "file p1\nproof 4 3\nlemma x",
            "refused 1: p1: unfinished at 3\n",
            1,
        ),
        plain("file .\nlemma x", "refused 1: bad line\n", 1),
        Case {
            read: 8,
            failing_read: 2,
            ..plain(PROOF, "", 3)
        },
        Case {
            write: 1,
            failing_write: 3,
            ..plain("file p1\n", "re", 4)
        },
    ];
    for case in &cases {
        assert!(rt;
            is_right(rt.alloc(), case).expect(&rt, "memory"),
            "{}",
            case.input
        );
    }
}

#[test]
fn sessions_that_end_early_write_what_was_whole(rt: HostRuntime) {
    let two = "law 1\nlaw 2\n";
    let cases = [
        Case {
            read: 6,
            failing_read: 2,
            ..plain(two, "1 x = x\n", 3)
        },
        Case {
            read: 9,
            failing_read: 2,
            ..plain(two, "1 x = x\n", 3)
        },
        Case {
            limit: 8,
            read: 3,
            ..plain(two, "1 x = x\n", 6)
        },
        Case {
            limit: 8,
            read: 12,
            ..plain(two, "", 6)
        },
        Case {
            failing_write: 1,
            ..plain("law 1\n", "", 4)
        },
        Case {
            write: 1,
            failing_write: 3,
            ..plain("law 1\n", "1 ", 4)
        },
        Case {
            limit: 5,
            ..plain("law 1\n", "", 6)
        },
    ];
    for case in &cases {
        assert!(rt;
            is_right(rt.alloc(), case).expect(&rt, "memory"),
            "{}",
            case.input
        );
    }
}

const SQUARE: &str = "proof 4 3\nlemma x\nstep 0 > . x * x\n";

#[test]
fn files_are_loaded_from_the_shelf(rt: HostRuntime) {
    let names = [
        ("p4", SQUARE),
        ("cut", "proof 4 3\r\n\nlemma x\nstep 0 > . x * x"),
        ("closed", "proof 4 3\nlemma x\nstep 0 > . x * x\nend\n"),
        ("empty", ""),
        ("t", "# no table\nrules 1 1 1\n"),
    ];
    let cases = [
        plain(
            "load p4\nask 4 3\nload p4\nfiles\n",
            "accepted p4: implies 4 3\n4 3 implied\nrefused 3: name taken p4\np4 proof 4 3\nfiles 1\n",
            1,
        ),
        plain(
            "load cut\nload closed\nload empty\nload t\n",
            "accepted cut: implies 4 3\nrefused 2: closed: bad line 4\nrefused 3: empty: unfinished at 1\nrefused 4: t: bad line 2\n",
            1,
        ),
        plain(
            "load\nload p4 p4\nload no/slash\nload .p4\n",
            "refused 1: bad line\nrefused 2: bad line\nrefused 3: bad line\nrefused 4: bad line\n",
            1,
        ),
        plain("law 1\nload none\nlaw 2\n", "1 x = x\n", 3),
        plain(
            "order 5\nload p4\nload none",
            "accepted p4: implies 4 3\n",
            3,
        ),
        Case {
            limit: 35,
            ..plain("law 1\nload closed\nlaw 2\n", "1 x = x\n", 6)
        },
        Case {
            limit: 35,
            ..plain("load p4\n", "accepted p4: implies 4 3\n", 0)
        },
    ];
    for case in &cases {
        for piece in [1, 7, 4096] {
            let cut = Case {
                names: &names,
                read: piece,
                write: piece,
                ..*case
            };
            assert!(rt;
                is_right(rt.alloc(), &cut).expect(&rt, "memory"),
                "{}",
                case.input
            );
        }
    }
}

#[test]
fn a_session_ends_at_the_first_call_that_fails(rt: HostRuntime) {
    let names = [("p4", SQUARE)];
    let case = Case {
        names: &names,
        read: 7,
        write: 7,
        ..plain(
            "load p4\nfile b\nproof 4 43\nend\nask 4 3\nwithdraw p4\nask 4 3\nlwa\n",
            "accepted p4: implies 4 3\nrefused 2: b: unfinished at 2\n4 3 implied\nwithdrawn p4\n4 3 open\nrefused 8: bad line\n",
            1,
        )
    };
    for at in 1..=24 {
        let faults = [
            (
                Case {
                    failing_read: at,
                    ..case
                },
                3,
            ),
            (
                Case {
                    failing_write: at,
                    ..case
                },
                4,
            ),
            (
                Case {
                    failing_load: at,
                    ..case
                },
                3,
            ),
        ];
        for (failing, status) in &faults {
            assert!(rt;
                is_cut(rt.alloc(), failing, *status).expect(&rt, "memory"),
                "{at}"
            );
        }
    }
}
