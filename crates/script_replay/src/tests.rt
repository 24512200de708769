use crate::{Replay, ScriptEnd};
use script_lines::LineFault;
use std::alloc::Global;
use std::process::Abort;
use std::test::Fail;

/// Runs lines one after another, and tells their answers and how they end.
fn run_lines(alloc: Global, lines: &str) -> Result<(Vec<u8>, ScriptEnd), LineFault> {
    let mut replay = Replay::new(alloc);
    let mut text = Vec::new(alloc);
    for line in lines.split('\n') {
        match replay.take_line(line.as_bytes(), &mut text) {
            Ok(()) => {}
            Err(LineFault::Refused) => {
                let line = replay.next_number();
                return Ok((text, ScriptEnd::Refused { line }));
            }
            Err(LineFault::NoMemory) => return Err(LineFault::NoMemory),
        }
    }
    let next = replay.next_number();
    let entries = replay.entries();
    Ok((text, ScriptEnd::Answered { next, entries }))
}

/// What a script says in the end: how many entries the journal has, or which line is refused.
enum Last {
    Entries(u64),
    Refused(u64),
}

/// Scripts, the answers to their lines, and how they end.
const SCRIPTS: [(&str, &str, Last); 15] = [
    // A late answer frees its reference, and ends nothing.
    (
        "table 2 8 1 64 60000 60000\nask 1 0\nsubmit 1 1 0 1000 AA\nsend\ncancel 1 1\nsubmit 1 1 0 1000 AA\nsend\nframe 00050001BB\ncollect 1 1\nsubmit 1 1 0 1000 AA",
        "granted 1\nstarted 1 1\nsent 1 00050001aa\ncancelled\nstarted 2 2\nsent 2 00050002aa\nlate 1\ncancelled\nstarted 3 1\n",
        Last::Entries(9),
    ),
    (
        "table 2 8 1 64 60000 60000\nask 1 0\nsubmit 1 1 0 1000 AA\nsend\nframe 00050001BB\ncancel 1 1\ncollect 1 1",
        "granted 1\nstarted 1 1\nsent 1 00050001aa\nended 1 done\nended done\ndone 187\n",
        Last::Entries(5),
    ),
    (
        "table 1 8 1 64 60000 60000\nask 1 0\nsubmit 1 1 0 1000 AA\nsend\ncancel 1 1\nsubmit 1 1 0 1000 AA\nframe 00050001BB\nsubmit 1 1 0 1000 AA",
        "granted 1\nstarted 1 1\nsent 1 00050001aa\ncancelled\nno reference\nlate 1\nstarted 2 1\n",
        Last::Entries(6),
    ),
    (
        "table 1 8 1 64 60000 60000\nask 1 0\nsubmit 1 1 0 1000 AA\ncancel 1 1\nsubmit 1 1 0 1000 AA\nsend",
        "granted 1\nstarted 1 1\ncancelled\nstarted 2 1\nsent 2 00050001aa\n",
        Last::Entries(5),
    ),
    (
        "table 2 8 1 64 60000 60000\nask 1 0\nsubmit 1 1 0 1000 AA\nframe 00050001BB\nsend\nframe 00050001BB",
        "granted 1\nstarted 1 1\nstray 1\nsent 1 00050001aa\nended 1 done\n",
        Last::Entries(5),
    ),
    // A tick in which nothing is due is no entry.
    (
        "table 2 8 1 64 60000 60000\nask 1 0\nsubmit 1 1 0 1000 AA\nsend\ntick 999\ntick 1000\nframe 00050001BB\ncollect 1 1",
        "granted 1\nstarted 1 1\nsent 1 00050001aa\nticked 0 0 0\nticked 1 0 0\nlate 1\nexpired\n",
        Last::Entries(6),
    ),
    (
        "table 2 8 1 64 100 50\nask 1 0\nask 2 0\ntick 50\npoll 2 2\nask 2 60\ntick 100\npoll 2 3\npoll 1 1",
        "granted 1\nwaiting 2 0\nticked 0 0 1\nno lease\nwaiting 3 0\nticked 0 1 0\nheld\nno lease\n",
        Last::Entries(5),
    ),
    ("table 2 8 1 64 100 50\nasks 1 0", "", Last::Refused(2)),
    ("table 2 8 1 64 100 50", "", Last::Entries(0)),
    (
        "table 2 8 1 64 60000 60000\nask 1 0\nsubmit 1 2 0 1000 AA\ncollect 1 1\nsend",
        "granted 1\nno lease\nno request\nnothing\n",
        Last::Entries(1),
    ),
    (
        "table 2 8 1 64 60000 60000\nask 1 0\nsubmit 1 1 0 1000 AA\ncollect 1 1\nsend\nframe 00040001\ncollect 1 1",
        "granted 1\nstarted 1 1\npending\nsent 1 00050001aa\nended 1 mismatch 1 0\nmismatch 1 0\n",
        Last::Entries(5),
    ),
    // A frame that can't be read closes the connection.
    (
        "table 2 8 1 64 60000 60000\nask 1 0\nsubmit 1 1 0 1000 AA\nsend\nframe 0003\ncollect 1 1\nask 2 0",
        "granted 1\nstarted 1 1\nsent 1 00050001aa\nundecodable 0 length 3\nlost undecodable 0 length 3\nclosed undecodable 0 length 3\n",
        Last::Entries(5),
    ),
    (
        "table 2 8 1 64 60000 60000\nask 1 0\nsubmit 1 1 0 1000 AA\nshutdown 1\nshutdown 1\ncollect 1 1",
        "granted 1\nstarted 1 1\nstopping\nclosed asked\nlost asked\n",
        Last::Entries(4),
    ),
    // A lease that is given back goes to the waiter, and takes its requests with it.
    (
        "table 2 8 1 64 60000 60000\nask 1 0\nask 2 0\npoll 2 2\nsubmit 1 1 7 1000 AA\nrelease 2 1 8\nrelease 1 1 9\npoll 2 2\ncollect 1 1\nrelease 2 2 9\nrelease 2 2 9",
        "granted 1\nwaiting 2 0\nwaiting 0\nstarted 1 1\nno lease\nreleased\nheld\nlease gone\nreleased\nno lease\n",
        Last::Entries(6),
    ),
    // A second table is refused, as is each line that is no command, and nothing is run behind it.
    (
        "table 2 8 1 64 60000 60000\nask 1 0\ntable 2 8 1 64 60000 60000\nask 1 0",
        "granted 1\n",
        Last::Refused(3),
    ),
];

fn check_script(
    rt: &impl Abort,
    alloc: Global,
    lines: &str,
    answers: &str,
    last: &Last,
) -> Result<(), Fail> {
    let (text, end) = run_lines(alloc, lines).map_err(|_| "no memory")?;
    assert_eq!(rt; text.as_slice(), answers.as_bytes(), "{lines}");
    let want = match *last {
        Last::Entries(entries) => {
            let next = answers.lines().count() as u64 + 2;
            ScriptEnd::Answered { next, entries }
        }
        Last::Refused(line) => ScriptEnd::Refused { line },
    };
    assert_eq!(rt; end, want, "{lines}");
    Ok(())
}

#[test]
fn scripts_are_answered_up_to_a_refused_line(rt: HostRuntime) -> Result<(), Fail> {
    for (lines, answers, last) in &SCRIPTS {
        check_script(&rt, rt.alloc(), lines, answers, last)?;
    }
    Ok(())
}

#[test]
fn a_full_journal_closes_the_connection(rt: HostRuntime) -> Result<(), Fail> {
    let alloc = rt.alloc();
    let mut lines = format!(in alloc; "table 2 8 1 64 60000 60000\nask 1 0")?;
    let mut answers = format!(in alloc; "granted 1\n")?;
    for id in 1..=20u32 {
        let reference = 2 - id % 2;
        write!(
            lines,
            "\nsubmit 1 1 0 1000 AA\ncancel 1 {id}\ncollect 1 {id}"
        )?;
        write!(answers, "started {id} {reference}\ncancelled\ncancelled\n")?;
    }
    lines.push_str(
        "\nsubmit 1 1 0 1000 AA\nsubmit 1 1 0 1000 AA\ncancel 1 21\ncollect 1 21\ncollect 1 22\nsubmit 1 1 0 1000 AA",
    )?;
    answers.push_str("started 21 1\nstarted 22 2\ncancelled\ncancelled\nlost worn\nclosed worn\n")?;
    check_script(
        &rt,
        alloc,
        lines.as_str(),
        answers.as_str(),
        &Last::Entries(67),
    )
}

#[test]
fn at_most_64_callers_wait(rt: HostRuntime) -> Result<(), Fail> {
    let alloc = rt.alloc();
    let mut lines = format!(in alloc; "table 2 8 1 256 100 50\nask 1 0")?;
    let mut answers = format!(in alloc; "granted 1\n")?;
    for place in 0..64u32 {
        let lease = place + 2;
        lines.push_str("\nask 1 0")?;
        write!(answers, "waiting {lease} {place}\n")?;
    }
    lines.push_str("\nask 1 0")?;
    answers.push_str("queue full\n")?;
    check_script(
        &rt,
        alloc,
        lines.as_str(),
        answers.as_str(),
        &Last::Entries(65),
    )
}

#[test]
fn at_most_1024_requests_are_kept(rt: HostRuntime) -> Result<(), Fail> {
    let alloc = rt.alloc();
    let mut lines = format!(in alloc; "table 2000 8 1 262144 60000 60000\nask 1 0")?;
    let mut answers = format!(in alloc; "granted 1\n")?;
    for id in 1..=1024u32 {
        lines.push_str("\nsubmit 1 1 0 1000 AA")?;
        write!(answers, "started {id} {id}\n")?;
    }
    lines.push_str("\nsubmit 1 1 0 1000 AA")?;
    answers.push_str("table full\n")?;
    check_script(
        &rt,
        alloc,
        lines.as_str(),
        answers.as_str(),
        &Last::Entries(1025),
    )
}
