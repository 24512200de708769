use crate::{Call, Command, LineFault, read_command};
use conn_core::Settings;
use std::alloc::{AllocError, Global};
use std::test::Fail;

/// A call as a line spells it, its bytes in small digits.
fn spell_call(alloc: Global, call: &Call) -> Result<String, AllocError> {
    match call {
        Call::AskLease { caller, now } => format!(in alloc; "ask {caller} {now}"),
        Call::PollLease { caller, lease } => format!(in alloc; "poll {caller} {lease}"),
        Call::Release { caller, lease, now } => {
            format!(in alloc; "release {caller} {lease} {now}")
        }
        Call::Submit {
            caller,
            lease,
            now,
            timeout_ms,
            payload,
        } => {
            let digits = hex::encode(alloc, payload.as_slice())?;
            format!(in alloc; "submit {caller} {lease} {now} {timeout_ms} {digits}")
        }
        Call::TakeSend => format!(in alloc; "send"),
        Call::Frame { bytes } => {
            let digits = hex::encode(alloc, bytes.as_slice())?;
            format!(in alloc; "frame {digits}")
        }
        Call::Cancel { caller, id } => format!(in alloc; "cancel {caller} {id}"),
        Call::Collect { caller, id } => format!(in alloc; "collect {caller} {id}"),
        Call::Tick { now } => format!(in alloc; "tick {now}"),
        Call::Shutdown { caller } => format!(in alloc; "shutdown {caller}"),
    }
}

/// A command as a line spells it, without leading zeros.
fn spell(alloc: Global, command: &Command) -> Result<String, AllocError> {
    match command {
        Command::Table(
            Settings {
                references,
                window,
                share,
                journal,
                lease_ms,
                wait_ms,
            },
        ) => {
            format!(in alloc; "table {references} {window} {share} {journal} {lease_ms} {wait_ms}")
        }
        Command::Calls(call) => spell_call(alloc, call),
    }
}

/// Lines, and how each is spelled in small digits and without leading zeros.
const LINES: [(u64, &str, &str); 18] = [
    (1, "table 1 1 1 64 1 1", "table 1 1 1 64 1 1"),
    (
        1,
        "table 65535 64 064 262144 86400000 0086400000",
        "table 65535 64 64 262144 86400000 86400000",
    ),
    (2, "ask 001 0", "ask 1 0"),
    (
        3,
        "ask 1000 18446744073709551615",
        "ask 1000 18446744073709551615",
    ),
    (4, "poll 2 3", "poll 2 3"),
    (5, "release 1 2 3", "release 1 2 3"),
    (6, "submit 1 1 0 1000 AA", "submit 1 1 0 1000 aa"),
    (
        7,
        "submit 1000 18446744073709551615 18446744073709551614 3600000 fFa0",
        "submit 1000 18446744073709551615 18446744073709551614 3600000 ffa0",
    ),
    (8, "submit 2 0 7 1 00", "submit 2 0 7 1 00"),
    (9, "send", "send"),
    (10, "frame 00040001", "frame 00040001"),
    (11, "frame 00", "frame 00"),
    (12, "frame 0005ffFEab", "frame 0005fffeab"),
    (13, "cancel 2 3", "cancel 2 3"),
    (
        14,
        "collect 1 00000000000000000000000000000000018446744073709551615",
        "collect 1 18446744073709551615",
    ),
    (15, "tick 0", "tick 0"),
    (64, "shutdown 0999", "shutdown 999"),
    (18_446_744_073_709_551_615, "send", "send"),
];

#[test]
fn each_kind_of_line_is_the_command_that_it_spells(rt: HostRuntime) -> Result<(), Fail> {
    for (number, line, want) in LINES {
        let command = read_command(rt.alloc(), number, line.as_bytes())?;
        let spelled = spell(rt.alloc(), &command)?;
        assert_eq!(rt; spelled.as_str(), want, "line {line}");
    }
    Ok(())
}

/// Lines that are refused at their number, each with an end but the last.
const REFUSED: [(u64, &str); 3] = [
    (0, "send\ntable 2 8 1 64 60000 60000"),
    (
        1,
        "\
         table 0 8 1 64 60000 60000\n\
         table 65536 8 1 64 60000 60000\n\
         table 18446744073709551618 8 1 64 60000 60000\n\
         table 2 0 1 64 60000 60000\n\
         table 2 65 1 64 60000 60000\n\
         table 2 18446744073709551624 1 64 60000 60000\n\
         table 2 8 0 64 60000 60000\n\
         table 2 8 65 64 60000 60000\n\
         table 2 8 18446744073709551617 64 60000 60000\n\
         table 2 8 1 63 60000 60000\n\
         table 2 8 1 262145 60000 60000\n\
         table 2 8 1 18446744073709551680 60000 60000\n\
         table 2 8 1 64 0 60000\n\
         table 2 8 1 64 86400001 60000\n\
         table 2 8 1 64 18446744073709611616 60000\n\
         table 2 8 1 64 60000 0\n\
         table 2 8 1 64 60000 86400001\n\
         table 2 8 1 64 60000 18446744073709611616\n\
         table 2 8 1 64 60000\n\
         table 2 8 1 64 60000 60000 1\n\
         table 2 8 1 64 60000 60000\r\n\
         ask 1 0",
    ),
    (
        2,
        "\
         table 2 8 1 64 60000 60000\n\
         ask 0 0\n\
         ask 1001 0\n\
         ask 18446744073709551617 0\n\
         ask 1 18446744073709551616\n\
         ask +1 0\n\
         ask 1 -0\n\
         ask 1 \n\
         ask 1 0x0\n\
         ask \u{0661} 0\n\
         ask 1\n\
         ask 1 0 0\n\
         asks 1 0\n\
         poll 0 1\n\
         poll 1 18446744073709551616\n\
         poll 1\n\
         release 1001 1 0\n\
         release 1 18446744073709551616 0\n\
         release 1 1 18446744073709551616\n\
         release 1 1\n\
         submit 0 1 0 1000 AA\n\
         submit 18446744073709551617 1 0 1000 AA\n\
         submit 1 18446744073709551616 0 1000 AA\n\
         submit 1 1 18446744073709551616 1000 AA\n\
         submit 1 1 0 0 AA\n\
         submit 1 1 0 3600001 AA\n\
         submit 1 1 0 18446744073709552616 AA\n\
         submit 1 1 0 1000 AAA\n\
         submit 1 1 0 1000\n\
         submit 1 1 0 1000 \n\
         submit 1 1 0 1000 AG\n\
         submit 1 1 0 1000 AA BB\n\
         cancel 1001 1\n\
         cancel 1 18446744073709551616\n\
         collect 18446744073709551617 1\n\
         collect 1 18446744073709551616\n\
         tick\n\
         tick 18446744073709551616\n\
         tick 1 1\n\
         shutdown\n\
         shutdown 0\n\
         shutdown 1 1\n\
         \n\
         \x20\n\
         \x20send\n\
         send \n\
         send 1\n\
         send\r\n\
         Send\n\
         cancel  1 1\n\
         cancel\t1 1\n\
         cancel 1\t1\n\
         frame 000400010\n\
         frame\n\
         frame \n\
         frame 00 00\n\
         hold 1\n\
         1 2 3 4 5 6 7 8 9",
    ),
];

#[test]
fn refuses_what_leaves_the_grammar(rt: HostRuntime) {
    for (number, lines) in REFUSED {
        for line in lines.split('\n') {
            let fault = read_command(rt.alloc(), number, line.as_bytes()).err();
            assert_eq!(rt; fault, Some(LineFault::Refused), "line {number}: {line}");
        }
    }
}
