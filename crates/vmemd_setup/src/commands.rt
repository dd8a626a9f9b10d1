//! The words of the command line.

ghost use Rattle.std.specs.Prelude.{◌≡◌, ◌≢◌, ◌≤◌, [], IfOk, IfErr, OnOk, false, map};
ghost use Rattle.clap.specs.Words.{app_of, fault_of, found_of, kind_of, rows_of, rule_of};
ghost use Rattle.clap.specs.Words.{subcommand_of, subcommand_rows_of};
ghost use Rattle.vmemd_setup.specs.Commands.{program, script_words, FailsWords, IsGivenBy};
ghost use Rattle.vmemd_setup.specs.Commands.{required_word, seconds_word, workers_word};
ghost use Rattle.vmemd_setup.specs.Commands.{connections_word, metrics_word, serve_command};
ghost use Rattle.vmemd_setup.specs.Commands.{ShowsError};
ghost use Rattle.vmemd_setup.specs.Commands.{AsksToServe, GivesNumber, GivesOption};
ghost use Rattle.vmemd_setup.specs.declared.commands.TheConstants.{MOST_WORKERS};
ghost use Rattle.lease_proto.specs.declared.limits.TheConstants.{MOST_CPUS};

use clap::error::ErrorKind;
use clap::{Arg, ArgAction, ArgMatches, Command, Error};
use lease_proto::MOST_CPUS;
use std::alloc::{AllocError, AllocFailed, Global};

/// How many workers a server has at most: each goes by a CPU of its own.
pub const MOST_WORKERS: u32 = MOST_CPUS;

/// How many connections a server serves at a time at most, each with a thread of its own.
pub const MOST_CONNECTIONS: u32 = 4096;

/// How many seconds an option takes at most: a day.
pub const MOST_SECONDS: u32 = 86_400;

/// How many seconds a peer of a server has for a line, and for taking an answer.
pub const LINE_LIMIT: u32 = 10;

/// How many seconds it may be silent between two lines.
pub const IDLE_LIMIT: u32 = 600;

/// That many are all CPUs.
pub fn worker_law()
    ensures { MOST_WORKERS ≡ MOST_CPUS }
{}

/// What the words after the program's name ask for.
#[derive(Clone, Copy, Debug, PartialEq, Eq)]
pub enum GivenWords<'a> {
    /// `script`: answer standard input on standard output.
    Script,
    /// `serve ADDRESS CONFIG WORKERS`: answer connections to the address.
    Serve(ServeWords<'a>),
}

/// What the words of `serve` ask for.
#[derive(Clone, Copy, Debug, PartialEq, Eq)]
pub struct ServeWords<'a> {
    pub address: &'a str,
    pub config: &'a str,
    /// 1 to `MOST_WORKERS`.
    pub workers: u32,
    /// In seconds, 1 to `MOST_SECONDS`, as the next two.
    pub line_limit: u32,
    pub idle_limit: u32,
    pub grace: Option<u32>,
    /// 1 to `MOST_CONNECTIONS`.
    pub connections: Option<u32>,
    /// Where it is watched.
    pub metrics: Option<&'a str>,
}

/// Why the words are for no part of the program.
#[derive(Drop)]
pub enum WordsFault {
    /// Help or the version, which they ask for: a text for standard output.
    Asked(String),
    /// What is wrong with them, or the help where there are none: a text for standard error.
    Mistaken(String),
    /// A word isn't text.
    NotText,
    /// Out of memory.
    Memory,
}

impl From<AllocError> for WordsFault {
    ghost use Rattle.std.specs.Prelude.{◌≡◌};
    ghost use Rattle.vmemd_setup.specs.declared.commands.WordsFault.TheVariants.{Memory};

    ghost from_gives = { λ _ fault. fault ≡ Memory };

    fn from(_error: AllocError) -> WordsFault {
        WordsFault::Memory
    }
}

impl<T: Drop> From<AllocFailed<T>> for WordsFault {
    ghost use Rattle.std.specs.Prelude.{◌≡◌};
    ghost use Rattle.vmemd_setup.specs.declared.commands.WordsFault.TheVariants.{Memory};

    ghost from_gives = { λ _ fault. fault ≡ Memory };

    fn from(_error: AllocFailed<T>) -> WordsFault {
        WordsFault::Memory
    }
}

/// The program's version, which `--version` tells.
pub const VERSION: &str = "0.1.0";

/// What the program does, for its help.
const PROGRAM_HELP: &str = "\
Leases ranges of whole numbers to clients, over lines of text. What lines there are, and how they
are answered, is told by: vmemd script --help";

/// The lines of a script, for its help.
const SCRIPT_HELP: &str = "\
Answers the lines of standard input on standard output, one line at a time.

A line is at most 255 bytes before the line feed that ends it: words of a to z and 0 to 9 with one
space between them. Words in capitals stand here for what you write. Numbers are decimal, without a
leading zero, from 0 to 2^62. A name begins with a letter and has at most 16 characters.

Setup lines come first, and print nothing. The first other line ends the setup, also an empty one;
there are no comments. A setup line after that is answered by error word.
  root NAME BASE LEN QUANTUM POLICY QMAX   an arena: its units are the numbers from BASE to
                                           BASE + LEN - 1, leased in whole quanta. QUANTUM is a
                                           power of two, BASE and LEN are multiples of it
  span NAME BASE LEN                       a further span of that root, of whole quanta too
  child NAME SOURCE QUANTUM POLICY QMAX IMPORTMIN
                                           an arena that imports from arena SOURCE what leases
                                           with no option need, IMPORTMIN units at least at a
                                           time, and gives each import back once it is wholly
                                           free. QUANTUM is a power of two, at most that of
                                           SOURCE
QMAX is 0, or a multiple of QUANTUM and at most 16 of it: then a lease of at most QMAX units with no
option comes from a cache of its size. A cache cuts slabs into chunks, and keeps chunks that came
back in magazines of CPUs and in a depot, from which they are leased again. Where no slab fits any
more, the lease comes from the arena itself, as a larger one does.

POLICY says which units a lease or a slab gets, of all free ones that fit it:
  best     the lowest in the shortest free range (measured whole), of equally short ones the lowest
           range
  next     the lowest from the end of what the arena gave last, be it given back or not: a lease, a
           slab or an import of another arena, but no chunk of a cache. Where there is none, and at
           first, the lowest of all. So numbers come round before they are used again
  instant  for a lease with no option: a free range of 2^i quanta or more, but below 2^(i+1), is of
           kind i. The lease gets the front of the newest range of the least kind that has one and
           whose 2^i quanta are enough. Where no kind is so, and for a lease with an option, as best

Then the lines of clients. Clients C are 1 to 65536; I and N are 1 to 2^62:
  hello C I                  client C begins as its incarnation I, which may skip numbers. A client
                             that restarts takes a greater I, and loses the leases of its older
                             ones. Its present I is welcome again, and changes nothing: whoever
                             doesn't know its I goes on to a greater one
  hello C I 2                the same by the second protocol, with which up to 8 requests may wait
                             for their answers. The first hello of an I says which it speaks, and
                             the answers to all of them
  lease C I N NAME SIZE ..   its request N asks for SIZE units of arena NAME, with the options below
  release C I N NAME BASE    its request N gives back its whole lease that begins at BASE
The requests of an incarnation count 1, 2, 3, .., leases and releases together. A client sends one
at a time, and the next once it has the answer: the last N, sent again, gets its first answer,
whatever else the line says, and does nothing else. By the second protocol it sends N, in any order,
once it has the answers to all up to N - 8, and any of the 8 numbers up to the last gets its first
answer again. A new incarnation begins at 1 again.

The options of a lease, each at most once and in this order (in another, the line is answered by
error badline, and its N isn't used). A lease is the LEN units from BASE on, in one span; LEN is
SIZE rounded up to whole quanta, and BASE a multiple of QUANTUM:
  align A     BASE is a multiple of A, or P above one where phase P follows
  phase P     with an align A before it, as said there
  nocross X   the lease lies between two neighbouring multiples of X, and may begin or end on them:
              with nocross 8 it may be the units 3 to 7, or 8 to 15, but not 6 to 9
  min L       BASE is at least L
  max H       the lease ends at H or before: unit H itself isn't in it
Without an option, or where A, P, X or L is 0 or H is 2^62, there is no such condition: so phase 0
may stand without align. A lease with a condition gets units that are free in its arena: nothing is
imported for it, and no cache is asked.

A request is bad where one of these is so:
  SIZE or H is 0
  A isn't 0, and is no power of two, or no multiple of QUANTUM
  P isn't 0, and isn't below A (without align none is), or is no multiple of QUANTUM
  X isn't 0, and is no power of two, no multiple of QUANTUM, or below LEN
  L isn't below H, which is 2^62 without max
L and H need be no multiples of QUANTUM.

Answers to clients:
  welcome C I                   the hello is taken
  welcome C I 2                 the hello is taken, and I speaks the second protocol
  granted C I N NAME BASE LEN   the lease has LEN units from BASE on
  released C I N                the lease is given back
  refused C I N WORD            noarena: no arena has this name; badrequest: the request is bad;
                                nofit: no free units fit it, nor, for a lease with no option,
                                what would be imported for it;
                                leases: the client has 1024 leases;
                                notyours: incarnation I has no lease that begins at BASE
  old C V                       the client's incarnation is V, not I: it says hello with an I above
                                V. V is 0 before its first hello
  stale C I N V                 N was used already, and its answer isn't kept: the last request was
                                V, which is above N, or by the second protocol 8 or more above N
  gap C I N V                   N is too high: all up to V were used, and V + 1 is next. N is above
                                V + 1, or by the second protocol above V + 8
  again C I N                   out of memory; send the line once more. In a script nothing was
                                done; a server may have done it, and the line sent once more gets
                                its answer. N is 0 for a hello
Each refused answer counts as the answer to its N; old, stale, gap, again and error don't. Where
several are so, the first of these is the answer: old; stale, gap or the first answer to N; noarena;
badrequest or notyours; nofit; leases. Wherever memory runs out on the way, it is again.

Lines of operators, which are answered by error memory when out of memory:
  cpu N           the lines that follow go through the magazines of CPU N, from 0 to 63, and no more
                  through those of another. At first they go through those of CPU 0. Answer: ok
  offline N       what is in the magazines of CPU N goes back to the slabs. Answer: ok
  tick            an interval begins, after which depots know what they needed in it. Answer: ok
  resize NAME M   the magazines of arena NAME take M chunks from now on: 3, 7, 15 or 31; at first
                  they take 3. Answer: ok, error noarena, or error size where they take as many or
                  more already or there is no cache
  grow NAME BASE LEN
                  root NAME gets a further span, the LEN units from BASE on, in whole quanta.
                  Answer: ok, or the first of these: error noarena where no root has the name; error
                  range where LEN is 0, or the span ends above 2^62, overlaps another of its arena
                  or isn't of whole quanta; error many where it would be the 65537th
  reap            depots give what they didn't need back to the slabs, and slabs that are whole
                  again go back to their arenas. Answer: reaped U, the units of those slabs
  audit           for each arena: arena NAME free F slab S magazine M exported E leased L hand H, in
                  units: F are free, S in slabs, M in magazines, E imported by others, L leased, and
                  H on the way, which are none between two lines
  clients         for each client: client C I LAST LEASES, the greatest number of its requests and
                  how many leases it has

A line that is none of these is answered by error and a word, and does nothing. The word is the
first of these that is so:
  toolong  there are more than 255 bytes
  badline  there is a space too many, another byte, or no line feed
  word     no line begins by its first word
  badline  there are too few words or too many, one that is no name where a name stands, a POLICY
           that is none of the three, or an option that is unknown, out of order, twice or without
           its number
  number   a word isn't the number that stands there, or is out of its range

A refused setup line ends the program with vmemd: line K: WORD, and nothing is written. WORD is the
first of these that is so:
  toolong, badline, word or number where the line is no setup line, as above
  name     the name is taken
  many     it would be the 33rd arena, or the 65537th span of its root
  noarena  there is no such source, or no such root for a span
  chain    the arena, its source, that one's source, and so on, would be more than 4 arenas
  quantum  it is no power of two, or above the source's
  cache    QMAX isn't as above, or is above a third of 2^62
  range    LEN is 0, or the span ends above 2^62, isn't of whole quanta or overlaps another of its
           arena

Example: the lines
  root m 0 64 1 best 0
  hello 1 1
  lease 1 1 1 m 8 align 16 min 20
  lease 1 1 2 m 5 align 8 phase 3 nocross 8 min 8 max 32
are answered by
  welcome 1 1
  granted 1 1 1 m 32 8
  granted 1 1 2 m 11 5
since 32 is the first multiple of 16 from 20 on, and 11 the first number from 8 on that is 3 above a
multiple of 8; the units 11 to 15 lie between 8 and 16.";

/// What `serve` does, for its help.
const SERVE_HELP: &str = "\
Answers clients over TCP, until standard input ends.

ADDRESS is an address and a port, as 127.0.0.1:7070; with port 0 the system chooses one. CONFIG is a
file of setup lines, as vmemd script --help tells them. WORKERS, 1 to 64, is how many connections
are served at a time: a client that stays connected holds a worker, and more connections than
workers wait until one ends. With --connections up to N are served at a time, 1 to 4096, each by a
thread of its own: their lines go by WORKERS CPUs, the first that is free, and one connection more
is answered error busy and ended.

Once it listens it prints listening ADDRESS, with the real port. The lines of clients and their
answers are those of a script; lines of operators are answered by error word. A connection that
fails ends alone, and leases don't end with it. It is ended where its first line isn't whole in time
once it is served, or the rest of a line that was begun, or where what is answered at once isn't
taken in time (--line-limit); and where no other line is begun in time (--idle-limit). SECONDS are 1
to 86400.

Standard input is its operator's. A line grow NAME BASE LEN there gives a root a further span while
clients are served, and is answered on standard output as in a script, or by error misplaced, which
tells of a fault of the program; any other line there is answered by its error. When standard input
ends, no further connection is served, those being served end when their clients end them, all
leases end, and it prints closed. With --grace it ends them itself: what was sent by then is
answered, and those that haven't ended in time are cut off. So keep standard input open as long as
the server is to run. Where a number can't be put back at once then, it says vmemd: shut, tries
until it can, and ends with status 1.";

/// What `--line-limit` sets, for the help of `serve`.
const LINE_LIMIT_HELP: &str = "How long a line and taking an answer may take (10 without it)";

/// What `--idle-limit` sets, for the help of `serve`.
const IDLE_LIMIT_HELP: &str = "How long a client may be silent between lines (600 without it)";

/// What `--grace` does, for the help of `serve`.
const GRACE_HELP: &str = "Ends connections at the end of the input, the last after so long";

/// What `--metrics` does, for the help of `serve`.
const METRICS_HELP: &str = "Shows the server and its leases to all who ask here, over HTTP";

/// What `--connections` does, for the help of `serve`.
const CONNECTIONS_HELP: &str = "Serves so many connections at a time, with a thread each";

/// What the exit status says, for the end of each help.
const STATUS_HELP: &str = "\
Exit status: 0 at the end of the input, and after help or the version; 1 where reading, writing or
listening fails, or out of memory; 2 for other words than these and for a refused setup line.";

/// The whole command.
fn command<'a>(alloc: Global) -> Result<Command<'a>, AllocError>
    ensures { IfOk result (λ c. app_of c ≡ program) }
{
    let script = Command::new(alloc, "script")
        .about("Answer standard input on standard output")
        .long_about(SCRIPT_HELP)
        .after_help(STATUS_HELP);
    let serve = serve(alloc)?;
    Command::new(alloc, "vmemd")
        .version(VERSION)
        .about(PROGRAM_HELP)
        .after_help(STATUS_HELP)
        .subcommand_required(true)
        .arg_required_else_help(true)
        .disable_help_subcommand(true)
        .subcommand(script)?
        .subcommand(serve)
}

/// The subcommand `serve`.
fn serve<'a>(alloc: Global) -> Result<Command<'a>, AllocError>
    ensures { IfOk result (λ c. app_of c ≡ serve_command) }
{
    let address = required(alloc, "ADDRESS", "Where to listen, as 127.0.0.1:7070");
    let config = required(alloc, "CONFIG", "A file of setup lines");
    let line = seconds(alloc, "line-limit", LINE_LIMIT_HELP);
    let idle = seconds(alloc, "idle-limit", IDLE_LIMIT_HELP);
    let grace = seconds(alloc, "grace", GRACE_HELP);
    Command::new(alloc, "serve")
        .about("Answer clients over TCP")
        .long_about(SERVE_HELP)
        .after_help(STATUS_HELP)
        .arg(address)?
        .arg(config)?
        .arg(workers(alloc))?
        .arg(line)?
        .arg(idle)?
        .arg(grace)?
        .arg(connections(alloc))?
        .arg(metrics(alloc))
}

/// How many workers serve.
fn workers<'a>(alloc: Global) -> Arg<'a>
    ensures rule { rule_of result ≡ workers_word }
    ensures local { result.global ≡ false }
{
    required(
        alloc,
        "WORKERS",
        "How many connections are served at a time, 1 to 64",
    )
    .value_parser(clap::value_parser!(u32).range(1..=i64::from(MOST_WORKERS)))
}

/// A word that has to stand in its place.
fn required<'a>(alloc: Global, id: &'a str, help: &'a str) -> Arg<'a>
    ensures rule { rule_of result ≡ required_word id.entry.now }
    ensures local { result.global ≡ false }
{
    Arg::new(alloc, id)
        .required(true)
        .action(ArgAction::Set)
        .help(help)
}

/// An option of so many seconds.
fn seconds<'a>(alloc: Global, id: &'a str, help: &'a str) -> Arg<'a>
    ensures rule { rule_of result ≡ seconds_word id.entry.now }
    ensures local { result.global ≡ false }
{
    Arg::new(alloc, id)
        .long(id)
        .value_name("SECONDS")
        .action(ArgAction::Set)
        .help(help)
        .value_parser(clap::value_parser!(u32).range(1..=i64::from(MOST_SECONDS)))
}

/// The option of so many connections.
fn connections<'a>(alloc: Global) -> Arg<'a>
    ensures rule { rule_of result ≡ connections_word }
    ensures local { result.global ≡ false }
{
    Arg::new(alloc, "connections")
        .long("connections")
        .value_name("N")
        .action(ArgAction::Set)
        .help(CONNECTIONS_HELP)
        .value_parser(clap::value_parser!(u32).range(1..=i64::from(MOST_CONNECTIONS)))
}

/// The option of where the server is watched.
fn metrics<'a>(alloc: Global) -> Arg<'a>
    ensures rule { rule_of result ≡ metrics_word }
    ensures local { result.global ≡ false }
{
    Arg::new(alloc, "metrics")
        .long("metrics")
        .value_name("ADDRESS")
        .action(ArgAction::Set)
        .help(METRICS_HELP)
}

/// Reads the words, of which the first is the program's name.
pub fn read_words<'a>(alloc: Global, words: &'a [&'a str]) -> Result<GivenWords<'a>, WordsFault>
    // `vmemd script` is refused only when out of memory.
    ensures script { map (λ w. w.now) words.now ≡ script_words
        → IfErr result (λ fault. fault ≡ WordsFault.Memory) }
    // What is taken is without fault, as clap reads a program with these commands.
    ensures ok { OnOk result (fault_of program (map (λ w. w.now) words.now) ≡ []) }
    // It is the command that clap finds in them; the workers of `serve` are 1 to `MOST_WORKERS`.
    ensures given { IfOk result (IsGivenBy (subcommand_of program (map (λ w. w.now) words.now))) }
    // What isn't taken has the fault that clap finds.
    ensures err { IfErr result (FailsWords (fault_of program (map (λ w. w.now) words.now))) }
{
    match command(alloc)?.try_get_matches_from(words) {
        Ok(matches) => Ok(given(&matches)),
        Err(error) => Err(words_fault(alloc, error)),
    }
}

/// What matches ask for.
fn given<'a>(matches: &ArgMatches<'a>) -> GivenWords<'a>
    ensures { IsGivenBy (subcommand_rows_of matches.now) result }
{
    match matches.subcommand() {
        Some(("serve", of)) => GivenWords::Serve(serve_given(of)),
        _ => GivenWords::Script,
    }
}

/// What the matches of `serve` ask for. clap has seen that its words are there, and that its
/// numbers are in range.
fn serve_given<'a>(of: &ArgMatches<'a>) -> ServeWords<'a>
    ensures { AsksToServe (rows_of (found_of of.now)) result }
{
    ServeWords {
        address: of.get_str("ADDRESS").unwrap_or(""),
        config: of.get_str("CONFIG").unwrap_or(""),
        workers: number_given(of, "WORKERS", MOST_WORKERS, 1),
        line_limit: number_given(of, "line-limit", MOST_SECONDS, LINE_LIMIT),
        idle_limit: number_given(of, "idle-limit", MOST_SECONDS, IDLE_LIMIT),
        grace: option_given(of, "grace", MOST_SECONDS),
        connections: option_given(of, "connections", MOST_CONNECTIONS),
        metrics: of.get_str("metrics"),
    }
}

/// The number that a word gives, or the other one where it gives none.
fn number_given(of: &ArgMatches<'_>, id: &str, most: u32, otherwise: u32) -> u32
    requires { (1 ≤ otherwise) × (otherwise ≤ most) }
    ensures { GivesNumber (rows_of (found_of of.now)) id.now most otherwise result }
{
    option_given(of, id, most).unwrap_or(otherwise)
}

/// The number that a word gives.
fn option_given(of: &ArgMatches<'_>, id: &str, most: u32) -> Option<u32>
    ensures { GivesOption (rows_of (found_of of.now)) id.now most result }
{
    let number = of.get_one::<u32>(id)?;
    if 1 <= number && number <= most {
        Some(number)
    } else {
        None
    }
}

/// What comes of words that aren't taken: the text that they ask for, or what is wrong with them.
fn words_fault(alloc: Global, error: Error) -> WordsFault
    ensures memory { kind_of error ≡ ErrorKind.OutOfMemory → result ≡ WordsFault.Memory }
    ensures told { ShowsError error result }
{
    if error.kind() == ErrorKind::OutOfMemory {
        return WordsFault::Memory;
    }
    match format!(in alloc; "{error}") {
        Err(_) => WordsFault::Memory,
        Ok(text) if error.use_stderr() => WordsFault::Mistaken(text),
        Ok(text) => WordsFault::Asked(text),
    }
}
