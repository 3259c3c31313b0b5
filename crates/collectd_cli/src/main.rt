//! The command `collectd`: words in, one call of the library, the exit status out.
#![tactic(auto)]

mod commands;
mod guides;

use clap::ArgMatches;
use cli_inputs::{Arguments, read_arguments};
use cli_words::{Chosen, matches_of, show};
use command_record::{finish, record};
use command_tables::tables;
use report_writing::Status;
use std::process::ExitCode;
use std::rt::Clock;
use std::sync::Wait;
use std::thread::Threads;
use std::{env, io};

fn main(rt: HostRuntime) -> ExitCode {
    let status = match run(&rt, &rt) {
        Ok(status) => status,
        Err(error) => {
            let _ = eprintln!(rt; "error: {error}");
            Status::NotOpened
        }
    };
    ExitCode::from(status.number())
}

// Reads the words and runs the command that they name. The first handle may start threads.
fn run<R: Clock + Threads + Wait + Sync>(threads: &R, rt: &HostRuntime) -> io::Result<Status> {
    let mut words = Vec::new(rt.alloc());
    for word in env::args(rt)? {
        words.push(word)?;
    }
    match matches_of(rt.alloc(), words.as_slice()) {
        Ok(matches) => Ok(run_matches(threads, rt, &matches)),
        Err(error) => Ok(show(rt, &error)),
    }
}

// Runs the command that the parser found.
fn run_matches<R: Clock + Threads + Wait + Sync>(
    threads: &R,
    rt: &HostRuntime,
    matches: &ArgMatches,
) -> Status {
    match Chosen::of(matches) {
        Some(chosen) => run_command(threads, rt, chosen),
        // (the parser asks for a command)
        None => Status::NotOpened,
    }
}

// Runs the command that was chosen.
fn run_command<R: Clock + Threads + Wait + Sync>(
    threads: &R,
    rt: &HostRuntime,
    chosen: Chosen,
) -> Status {
    let ended = match read_arguments(chosen) {
        Some(Arguments::Dump(arguments)) => commands::dump(rt, &arguments),
        Some(Arguments::Files(arguments)) => commands::files(threads, rt, &arguments),
        Some(Arguments::Tcp(arguments)) => commands::tcp(threads, rt, &arguments),
        Some(Arguments::Record(arguments)) => record(threads, rt, &arguments),
        Some(Arguments::Finish(arguments)) => finish(rt, &arguments),
        Some(Arguments::Tables(arguments)) => tables(threads, rt, &arguments),
        Some(Arguments::Merge(arguments)) => commands::merge(rt, &arguments),
        Some(Arguments::Verify(arguments)) => commands::verify(threads, rt, &arguments),
        Some(Arguments::Elements(arguments)) => guides::elements(rt, &arguments),
        Some(Arguments::Explain(arguments)) => Ok(guides::explain(rt, &arguments)),
        // (the parser lets no other words through)
        None => Err(Status::NotOpened),
    };
    match ended {
        Ok(status) => status,
        Err(status) => status,
    }
}
