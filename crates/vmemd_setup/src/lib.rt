//! How `vmemd` is started and told what to do: its command line, its setup lines, and how a run of
//! the program ends. Nothing here opens a file or a socket, starts a thread or waits.
//!
//! `read_words` (commands) parses the command line; the help texts and the limits of the options
//! stand beside it. A script begins with setup lines, which `take_setup` (setting_up) reads; a
//! configuration file has nothing else, and `read_config` (configs) reads it. Both pass the lines
//! to a `SetupBuilder`, and the `Setup` of `arena_tree` is one (settings). If a run ends early, a
//! fault says why (faults): a `WordsFault` for the command line, a `ScriptFault` for a script or a
//! configuration file, a `RunFault` for a server. `end_words`, `end_script` and `end_run` (endings)
//! report it on standard error and return the exit status.
//!
//! specs/Commands.antt states which words are accepted and what they ask for, and how the program
//! ends for all other words. specs/Setups.antt states which setup lines are taken and what is left
//! of the input, specs/Settings.antt for which reason a setup rejects a line, specs/Configs.antt
//! what a configuration file sets up, and specs/Endings.antt the exit statuses. The crate
//! `lease_proto` states which bytes are a setup line.
//!
//! Reading setup lines costs what the setup does for each line, and one read for each 16,384 bytes
//! or less.
#![tactic(auto)]

mod commands;
mod configs;
mod endings;
mod faults;
mod setting_up;
mod settings;

pub use commands::{
    GivenWords, IDLE_LIMIT, LINE_LIMIT, MOST_CONNECTIONS, MOST_SECONDS, MOST_WORKERS, ServeWords,
    VERSION, WordsFault, read_words, worker_law,
};
pub use configs::read_config;
pub use endings::{end_run, end_script, end_words, tell_fault};
pub use faults::{ConfigFault, RunFault, ScriptFault, SettingFault};
pub use setting_up::{SetupBuilder, take_setup};
