//! Runs a script on an ordered index: 64 pairs a segment, 16 places for sessions, 4,096 slots.
#![tactic(auto)]

use index_script::run::{outcome, run};
use std::io::{self, IsTerminal};
use std::process::ExitCode;

// What a terminal shows before anything is typed. It is written to standard error: standard output has replies only.
const HELP: &str =
    "index_run: type lines such as 'insert 1 ten' and 'commit -'; docs/SCRIPT.md lists all. Ctrl-D ends.\n";

fn main(rt: HostRuntime) -> ExitCode {
    let mut reader = rt.reader();
    if reader.is_terminal() {
        let _ = eprint!(rt; "{HELP}");
    }
    let ended = run::<64, _, _>(rt.alloc(), &mut reader, &mut io::writer(&rt), 16, 4096);
    let (status, text) = outcome(&ended);
    let _ = eprint!(rt; "{text}");
    ExitCode::from(status)
}
