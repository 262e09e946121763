use sn_list::Seq;
use sn_words::{Command, WordsFault, read_words};
use std::alloc::Global;
use std::process::Abort;

fn read(rt: &impl Abort, alloc: Global, words: &[&str]) -> Result<Command, WordsFault> {
    let mut owned = Vec::new(alloc);
    for word in words {
        let word = String::from_str(alloc, word).expect(rt, "memory");
        owned.push(word).expect(rt, "memory");
    }
    read_words(alloc, &owned)
}

/// Whether the words are this command.
fn is_read(rt: &impl Abort, alloc: Global, words: &[&str], wanted: &Command) -> bool {
    matches!(&read(rt, alloc, words), Ok(found) if found == wanted)
}

/// The name of a file.
fn file(rt: &impl Abort, alloc: Global, name: &str) -> Seq<u8> {
    Seq::from_slice(alloc, name.as_bytes()).expect(rt, "memory")
}

/// Whether the words run a source of this name on one thread.
fn is_once(
    rt: &impl Abort,
    alloc: Global,
    words: &[&str],
    name: &str,
    fuel: u64,
    depth: u32,
) -> bool {
    let wanted = Command::Once {
        source: file(rt, alloc, name),
        input: file(rt, alloc, "i"),
        fuel,
        depth,
    };
    is_read(rt, alloc, words, &wanted)
}

#[test]
fn gives_commands(rt: HostRuntime) {
    let table: [(&[&str], &str, u64, u32); 6] = [
        (&["once", "s", "i"], "s", 1_000_000, 1_000),
        (&["once", "--", "-s", "i"], "-s", 1_000_000, 1_000),
        (&["once", "-", "--fuel", "5", "i"], "-", 5, 1_000),
        (
            &["once", "--fuel=0000000005", "s", "--", "i"],
            "s",
            5,
            1_000,
        ),
        (
            &["once", "--depth", "2000", "s", "i"],
            "s",
            1_000_000,
            2_000,
        ),
        (&["once", "--depth=1", "s", "--fuel=5", "i"], "s", 5, 1),
    ];
    for (words, name, fuel, depth) in table {
        assert!(rt;
            is_once(&rt, rt.alloc(), words, name, fuel, depth),
            "{words:?}"
        );
    }
}

/// Whether the words run the source `s` with these numbers.
fn is_run(
    rt: &impl Abort,
    alloc: Global,
    words: &[&str],
    workers: u32,
    fuel: u64,
    depth: u32,
    queue: u32,
    plan: u32,
) -> bool {
    let wanted = Command::Run {
        source: file(rt, alloc, "s"),
        input: file(rt, alloc, "i"),
        workers,
        fuel,
        depth,
        queue,
        plan,
    };
    is_read(rt, alloc, words, &wanted)
}

#[test]
fn gives_runs(rt: HostRuntime) {
    let table: [(&[&str], u32, u64, u32, u32, u32); 5] = [
        (&["run", "s", "i"], 4, 1_000_000, 1_000, 16, 0),
        (
            &["run", "--workers=8", "s", "--", "i"],
            8,
            1_000_000,
            1_000,
            16,
            0,
        ),
        (
            &["run", "s", "--queue", "1024", "i", "--workers=0064"],
            64,
            1_000_000,
            1_000,
            1_024,
            0,
        ),
        (
            &["run", "--queue=1", "--fuel=5", "s", "i", "--depth", "7"],
            4,
            5,
            7,
            1,
            0,
        ),
        (
            &["run", "s", "--plan", "1", "i"],
            4,
            1_000_000,
            1_000,
            16,
            1,
        ),
    ];
    for (words, workers, fuel, depth, queue, plan) in table {
        assert!(rt;
            is_run(&rt, rt.alloc(), words, workers, fuel, depth, queue, plan),
            "{words:?}"
        );
    }
}

fn is_check(rt: &impl Abort, alloc: Global, words: &[&str]) -> bool {
    let source = file(rt, alloc, "s");
    is_read(rt, alloc, words, &Command::Check { source })
}

fn is_print(rt: &impl Abort, alloc: Global, words: &[&str]) -> bool {
    let source = file(rt, alloc, "s");
    is_read(rt, alloc, words, &Command::Print { source })
}

fn is_plan(rt: &impl Abort, alloc: Global, words: &[&str]) -> bool {
    let source = file(rt, alloc, "s");
    is_read(rt, alloc, words, &Command::Plan { source })
}

fn is_sample(rt: &impl Abort, alloc: Global, words: &[&str], number: u32, count: u32) -> bool {
    is_read(rt, alloc, words, &Command::Sample { number, count })
}

#[test]
fn gives_commands_of_a_source(rt: HostRuntime) {
    assert!(rt; is_check(&rt, rt.alloc(), &["check", "s"]));
    assert!(rt; is_print(&rt, rt.alloc(), &["print", "--", "s"]));
    assert!(rt; is_plan(&rt, rt.alloc(), &["plan", "s"]));
}

#[test]
fn gives_samples(rt: HostRuntime) {
    let words = ["sample", "--", "2147483647", "0000050000"];
    assert!(rt; is_sample(&rt, rt.alloc(), &words, 2_147_483_647, 50_000));
}

/// Whether the words are refused.
fn is_refused(rt: &impl Abort, alloc: Global, words: &[&str]) -> bool {
    matches!(read(rt, alloc, words), Err(WordsFault::Usage))
}

#[test]
fn refuses_words(rt: HostRuntime) {
    let table: [&[&str]; 39] = [
        &[],
        &["help"],
        &["--help"],
        &["--", "run", "s", "i"],
        &["run", "s", "i", "--workers", "0"],
        &["run", "s", "i", "--workers", "65"],
        &["run", "s", "i", "--fuel", "5", "--fuel", "5"],
        &["run", "s", "i", "--queue=1025"],
        &["run", "s", "i", "--work", "5"],
        &["run", "s", "i", "--plan=2"],
        &["plan", "s", "--plan=1"],
        &["run", "s", "i", "-h"],
        &["once", "s", "i", "--workers", "2"],
        &["check", "s", "--workers=2"],
        &["once", "s"],
        &["once", "s", "i", "t"],
        &["once", "--x", "s", "i"],
        &["once", "s", ""],
        &["check", "s", "t"],
        &["check", "--depth=5", "s"],
        &["print", "s", "t"],
        &["print", "s", "--fuel", "5"],
        &["once", "s", "i", "--fuel"],
        &["once", "--fuel", "0", "s", "i"],
        &["once", "--fuel=00000000005", "s", "i"],
        &["once", "--fuel=+5", "s", "i"],
        &["once", "--fuel=5", "--fuel", "5", "s", "i"],
        &["once", "s", "i", "--depth"],
        &["once", "--depth", "0", "s", "i"],
        &["once", "--depth=2001", "s", "i"],
        &["once", "--depth=00000000005", "s", "i"],
        &["once", "--depth=5", "--depth", "5", "s", "i"],
        &["print", "--depth=5", "s"],
        &["sample", "2147483648", "3"],
        &["sample", "1", "50001"],
        &["sample", "1"],
        &["sample", "1", "-3"],
        &["sample", "1", ""],
        &["sample", "1", "3", "--fuel=5"],
    ];
    for words in table {
        assert!(rt; is_refused(&rt, rt.alloc(), words), "{words:?}");
    }
}
