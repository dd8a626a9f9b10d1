//! `vmemd` leases ranges of whole numbers to clients, over lines of text.
//!
//! `vmemd script` reads lines from standard input and writes the replies to standard output
//! (scripts). It reads the setup lines first and opens a lease desk from the setup; the desk
//! answers all other lines.
//!
//! `vmemd serve` answers clients over TCP (running). It reads the setup from a file and makes a
//! running system of it. Without options each worker is a thread with a CPU of its own, and serves
//! one connection after another (workers). With `--connections` each connection has a thread, and
//! the threads share the CPUs (sharing). With `--metrics` the server shows itself over HTTP
//! (watching, looking). Meanwhile the server answers the lines of standard input (attending), by
//! which an operator grows roots (operators). When standard input ends, it shuts the system down
//! (stopping) and retries as long as something can't be put back (retrying). Its listening socket
//! is in listeners, the flags that its threads share in signals, the wait for workers to start in
//! musters, the wait for an input that doesn't block in inputs, and the runtime that it requires in
//! hosts.
//!
//! The crate `vmemd_setup` has the command line with its help, the setup lines, the faults that end
//! a run, and the exit statuses.
//!
//! specs/Scripts.antt states what a script writes, for every setup and desk, and specs/Desks.antt
//! for those used here; specs/Laws.antt what holds after each script, and specs/RuleLaws.antt the
//! rules of leases over a script. specs/Operators.antt states what a server answers its operator,
//! specs/Running.antt what it writes and how it ends, and specs/Retrying.antt what it retries when
//! it ends. The crate `lease_tcp` states what it answers clients.
//!
//! A script costs what its setup and its desk do for each line, and one read for each 16,384 bytes
//! or less. A server has a thread for each worker, at most `MOST_WORKERS`, or for each connection,
//! at most `MOST_CONNECTIONS`, and costs what its system does for each line.
#![tactic(auto)]

ghost use Rattle.std.specs.Prelude.{◌≤◌, ◌≢◌, Some};
ghost use Rattle.vmemd_setup.specs.declared.commands.TheConstants.{MOST_WORKERS};

mod attending;
pub mod hosts;
pub mod inputs;
pub mod laws;
pub mod listeners;
pub mod looking;
pub mod musters;
pub mod operators;
pub mod retrying;
pub mod running;
pub mod scripts;
pub mod sharing;
pub mod signals;
mod stopping;
#[cfg(test)]
mod tests;
pub mod watching;
mod workers;

use crate::inputs::PatientReader;
use crate::listeners::Listener;
use crate::running::{Console, Plan, run_serve};
use crate::scripts::run_script;
use crate::watching::Watching;
use arena_tree::Setup;
use lease_server::Watched;
use lease_tcp::Pace;
use log::{Log, info};
use std::fs::File;
use std::hash::RandomState;
use std::io;
use std::io::ErrorKind;
use std::net::{Net, TcpListener, TcpStream};
use std::process::ExitCode;
use std::random::RandomSource;
use std::rt::Files;
use std::sync::Wait;
use std::thread::Threads;
use std::time::{Clock, Duration};
use vmemd_setup::{
    GivenWords, RunFault, ScriptFault, ServeWords, WordsFault, end_run, end_script, end_words,
    read_config, read_words,
};

/// Does what the words of the command line ask for; how that ended is its exit status.
fn main(rt: HostRuntime) -> ExitCode {
    match read_arguments(&rt) {
        Ok(texts) => answer_words(&rt, texts.as_slice()),
        Err(fault) => end_words(&rt, &mut Watched::new(io::writer(&rt)), &fault),
    }
}

/// The words of the command line. Its texts call the program `vmemd`, whatever it was called by.
fn read_arguments(rt: &HostRuntime) -> Result<Vec<String>, WordsFault> {
    let arguments = match std::env::args(rt) {
        Ok(arguments) => arguments,
        Err(error) if error.kind() == ErrorKind::OutOfMemory => return Err(WordsFault::Memory),
        Err(_) => return Err(WordsFault::NotText),
    };
    let mut texts = Vec::new(rt.alloc());
    for text in arguments.skip(1) {
        texts.push(text)?;
    }
    Ok(texts)
}

/// Does what the words ask for.
fn answer_words<
    R: Input
        + Print
        + Eprint
        + Log
        + Files
        + RandomSource
        + Net<Listener = TcpListener, Stream = TcpStream>
        + Threads
        + Wait
        + Clock
        + Sync
        + AllocGlobal,
>(rt: &R, texts: &[String]) -> ExitCode {
    let words = match words_of(rt, texts) {
        Ok(words) => words,
        Err(fault) => return end_words(rt, &mut Watched::new(io::writer(rt)), &fault),
    };
    match read_words(rt.alloc(), words.as_slice()) {
        Ok(GivenWords::Script) => end_script(rt, answer_input(rt)),
        Ok(GivenWords::Serve(asked)) => serve(rt, &asked),
        Err(fault) => end_words(rt, &mut Watched::new(io::writer(rt)), &fault),
    }
}

/// The words as the parser takes them, the program's name before them.
fn words_of<'a, R: AllocGlobal>(rt: &R, texts: &'a [String]) -> Result<Vec<&'a str>, WordsFault> {
    let mut words: Vec<&'a str> = Vec::new(rt.alloc());
    words.push("vmemd")?;
    for text in texts {
        words.push(text.as_str())?;
    }
    Ok(words)
}

/// Answers standard input on standard output.
fn answer_input<R: Input + Print + AllocGlobal>(rt: &R) -> Result<(), ScriptFault> {
    let mut reader = Watched::new(rt.reader());
    let mut writer = Watched::new(io::writer(rt));
    run_script(rt.alloc(), &mut reader, &mut writer)
}

/// Reads CONFIG, and serves until standard input ends.
fn serve<
    R: Input
        + Print
        + Eprint
        + Log
        + Files
        + RandomSource
        + Net<Listener = TcpListener, Stream = TcpStream>
        + Threads
        + Wait
        + Clock
        + Sync
        + AllocGlobal,
>(rt: &R, asked: &ServeWords<'_>) -> ExitCode
    requires workers { (1 ≤ asked.now.workers) × (asked.now.workers ≤ MOST_WORKERS) }
    requires connections { asked.now.connections ≢ Some 0 }
{
    let setup = match setup_of(rt, asked.config) {
        Ok(setup) => setup,
        Err(fault) => return end_script(rt, Err(fault)),
    };
    let console = Console {
        input: Watched::new(PatientReader::new(rt, rt.reader())),
        out: Watched::new(io::writer(rt)),
    };
    let plan = Plan {
        workers: asked.workers,
        connections: asked.connections,
        pace: Pace {
            line: Duration::from_secs(u64::from(asked.line_limit)),
            idle: Duration::from_secs(u64::from(asked.idle_limit)),
        },
        grace: asked.grace,
    };
    let watching = match watching_at(rt, asked.metrics) {
        Ok(watching) => watching,
        Err(fault) => return end_run(rt, Err(fault)),
    };
    let ended = run_serve(rt, asked.address, setup, plan, watching, console).ended;
    if matches!(ended, Ok(()) | Err(RunFault::Shut)) {
        info!(rt; "vmemd closed");
    }
    end_run(rt, ended)
}

/// Listens for those who watch, where they may.
fn watching_at<R: Net<Listener = TcpListener, Stream = TcpStream> + RandomSource + AllocGlobal>(
    rt: &R,
    address: Option<&str>,
) -> Result<Option<Watching>, RunFault> {
    let Some(address) = address else {
        return Ok(None);
    };
    let Ok(keys) = RandomState::new(rt) else {
        return Err(RunFault::Listen);
    };
    let listener = Listener::open(rt, address)?;
    Ok(Some(Watching { listener, keys }))
}

/// The setup whose lines stand in the file CONFIG.
fn setup_of<R: Files + AllocGlobal>(rt: &R, config: &str) -> Result<Setup, ScriptFault> {
    match File::open(rt, config) {
        Ok(file) => read_config(rt.alloc(), &mut Watched::new(file)),
        Err(_) => Err(ScriptFault::Read),
    }
}
