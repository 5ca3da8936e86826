//! A configuration service: one thread changes two settings together, a hundred times, while four others read both in
//! sessions. Whatever the schedule, each session finds settings that belong together, none older than those of the session
//! before it, and an audit finds each receipt right.
#![tactic(auto)]

mod service;

use ordered_index::run_tasks;
use std::process::ExitCode;

fn main(rt: HostRuntime) -> ExitCode {
    let Ok(jobs) = service::jobs(rt.alloc()) else {
        return ExitCode::FAILURE;
    };
    let Ok(ran) = run_tasks(&rt, rt.alloc(), 512, jobs) else {
        return ExitCode::FAILURE;
    };
    let commits = ran.number;
    let sessions = service::sessions(&ran);
    match println!(rt; "{commits} commits, {sessions} sessions of which each read one list") {
        Ok(()) => ExitCode::SUCCESS,
        Err(_) => ExitCode::FAILURE,
    }
}
