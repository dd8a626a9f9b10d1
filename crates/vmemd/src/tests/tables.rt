//! Scripts, setup lines and words of the command line, with what they have to give.

/// A script and what it writes.
pub struct Row {
    pub shows: &'static str,
    pub input: &'static [u8],
    pub output: &'static [u8],
}

pub const ROWS: [Row; 19] = [
    Row {
        shows: "nothing in, nothing out",
        input: b"",
        output: b"",
    },
    Row {
        shows: "a lease and its release",
        input: b"root m 0 64 1 best 0\n\
              hello 1 1\n\
              lease 1 1 1 m 8\n\
              release 1 1 2 m 0\n",
        output: b"welcome 1 1\n\
              granted 1 1 1 m 0 8\n\
              released 1 1 2\n",
    },
    Row {
        shows: "next: numbers cycle before they are used again",
        input: b"root pid 1 8 1 next 0\n\
              hello 1 1\n\
              lease 1 1 1 pid 1\n\
              lease 1 1 2 pid 1\n\
              lease 1 1 3 pid 1\n\
              release 1 1 4 pid 2\n\
              lease 1 1 5 pid 1\n\
              lease 1 1 6 pid 1\n\
              lease 1 1 7 pid 1\n\
              lease 1 1 8 pid 1\n\
              lease 1 1 9 pid 1\n\
              lease 1 1 10 pid 1\n\
              lease 1 1 11 pid 1\n",
        output: b"welcome 1 1\n\
              granted 1 1 1 pid 1 1\n\
              granted 1 1 2 pid 2 1\n\
              granted 1 1 3 pid 3 1\n\
              released 1 1 4\n\
              granted 1 1 5 pid 4 1\n\
              granted 1 1 6 pid 5 1\n\
              granted 1 1 7 pid 6 1\n\
              granted 1 1 8 pid 7 1\n\
              granted 1 1 9 pid 8 1\n\
              granted 1 1 10 pid 2 1\n\
              refused 1 1 11 nofit\n",
    },
    Row {
        shows: "a lease may end on a nocross boundary, and none may straddle one",
        input: b"root m 0 64 1 best 0\n\
              hello 1 1\n\
              lease 1 1 1 m 5 align 8 phase 3 nocross 8\n\
              lease 1 1 2 m 6 align 8 phase 3 nocross 8\n",
        output: b"welcome 1 1\n\
              granted 1 1 1 m 3 5\n\
              refused 1 1 2 nofit\n",
    },
    Row {
        shows: "min and max, of which max is exclusive",
        input: b"root m 0 64 1 best 0\n\
              hello 1 1\n\
              lease 1 1 1 m 5 min 10 max 15\n\
              lease 1 1 2 m 5 min 10 max 15\n",
        output: b"welcome 1 1\n\
              granted 1 1 1 m 10 5\n\
              refused 1 1 2 nofit\n",
    },
    Row {
        shows: "instant: a list whose every member serves before an exact fit, then the best range",
        input: b"root x 0 15 1 instant 0\n\
              hello 1 1\n\
              lease 1 1 1 x 5\n\
              lease 1 1 2 x 1\n\
              lease 1 1 3 x 8\n\
              lease 1 1 4 x 1\n\
              release 1 1 5 x 0\n\
              release 1 1 6 x 6\n\
              lease 1 1 7 x 5\n\
              lease 1 1 8 x 5\n",
        output: b"welcome 1 1\n\
              granted 1 1 1 x 0 5\n\
              granted 1 1 2 x 5 1\n\
              granted 1 1 3 x 6 8\n\
              granted 1 1 4 x 14 1\n\
              released 1 1 5\n\
              released 1 1 6\n\
              granted 1 1 7 x 6 5\n\
              granted 1 1 8 x 0 5\n",
    },
    Row {
        shows: "instant: a power of two is served by its own list",
        input: b"root x 0 15 1 instant 0\n\
              hello 1 1\n\
              lease 1 1 1 x 5\n\
              lease 1 1 2 x 1\n\
              lease 1 1 3 x 8\n\
              lease 1 1 4 x 1\n\
              release 1 1 5 x 0\n\
              release 1 1 6 x 6\n\
              lease 1 1 7 x 4\n",
        output: b"welcome 1 1\n\
              granted 1 1 1 x 0 5\n\
              granted 1 1 2 x 5 1\n\
              granted 1 1 3 x 6 8\n\
              granted 1 1 4 x 14 1\n\
              released 1 1 5\n\
              released 1 1 6\n\
              granted 1 1 7 x 0 4\n",
    },
    Row {
        shows: "freed ranges merge with both neighbours",
        input: b"root t 0 12 1 instant 0\n\
              hello 1 1\n\
              lease 1 1 1 t 4\n\
              lease 1 1 2 t 4\n\
              lease 1 1 3 t 4\n\
              release 1 1 4 t 0\n\
              release 1 1 5 t 8\n\
              release 1 1 6 t 4\n\
              lease 1 1 7 t 12\n",
        output: b"welcome 1 1\n\
              granted 1 1 1 t 0 4\n\
              granted 1 1 2 t 4 4\n\
              granted 1 1 3 t 8 4\n\
              released 1 1 4\n\
              released 1 1 5\n\
              released 1 1 6\n\
              granted 1 1 7 t 0 12\n",
    },
    Row {
        shows: "spans that touch stay two",
        input: b"root r 0 8 1 best 0\n\
              span r 8 8\n\
              hello 1 1\n\
              lease 1 1 1 r 12\n\
              audit\n",
        output: b"welcome 1 1\n\
              refused 1 1 1 nofit\n\
              arena r free 16 slab 0 magazine 0 exported 0 leased 0 hand 0\n",
    },
    Row {
        shows: "a repeat gets the first reply, and no second grant",
        input: b"root m 0 64 1 best 0\n\
              hello 1 1\n\
              lease 1 1 1 m 8\n\
              lease 1 1 1 m 8\n\
              audit\n",
        output: b"welcome 1 1\n\
              granted 1 1 1 m 0 8\n\
              granted 1 1 1 m 0 8\n\
              arena m free 56 slab 0 magazine 0 exported 0 leased 8 hand 0\n",
    },
    Row {
        shows: "the leases of an older incarnation are freed, and a late repeat of it gets nothing",
        input: b"root p 1 4 1 best 0\n\
              hello 1 1\n\
              lease 1 1 1 p 4\n\
              hello 1 2\n\
              hello 2 1\n\
              lease 2 1 1 p 4\n\
              lease 1 1 1 p 4\n",
        output: b"welcome 1 1\n\
              granted 1 1 1 p 1 4\n\
              welcome 1 2\n\
              welcome 2 1\n\
              granted 2 1 1 p 1 4\n\
              old 1 2\n",
    },
    Row {
        shows: "no client releases another's lease",
        input: b"root p 1 4 1 best 0\n\
              hello 1 1\n\
              lease 1 1 1 p 2\n\
              hello 2 1\n\
              release 2 1 1 p 1\n\
              release 2 1 1 p 1\n\
              audit\n",
        output: b"welcome 1 1\n\
              granted 1 1 1 p 1 2\n\
              welcome 2 1\n\
              refused 2 1 1 notyours\n\
              refused 2 1 1 notyours\n\
              arena p free 2 slab 0 magazine 0 exported 0 leased 2 hand 0\n",
    },
    Row {
        shows: "a range may end at 2^62",
        input: b"root top 4611686018427387888 16 1 best 0\n\
              hello 1 1\n\
              lease 1 1 1 top 16\n",
        output: b"welcome 1 1\n\
              granted 1 1 1 top 4611686018427387888 16\n",
    },
    Row {
        shows: "sizes are rounded up; bad requests and unknown arenas",
        input: b"root q 0 64 4 best 0\n\
              hello 1 1\n\
              lease 1 1 1 q 5\n\
              lease 1 1 2 q 0\n\
              lease 1 1 3 q 4 align 2\n\
              lease 1 1 4 z 4\n",
        output: b"welcome 1 1\n\
              granted 1 1 1 q 0 8\n\
              refused 1 1 2 badrequest\n\
              refused 1 1 3 badrequest\n\
              refused 1 1 4 noarena\n",
    },
    Row {
        shows: "refused lines, and numbers out of turn",
        input: b"root m 0 64 1 best 0\n\
              lease 1 1 1 m\n\
              lease 1 1 01 m 4\n\
              frob\n\
              hello 1  1\n\
              hello 1 1\n\
              lease 1 1 3 m 4\n\
              lease 1 1 1 m 4\n\
              lease 1 1 2 m 4\n\
              lease 1 1 1 m 4\n",
        output: b"error badline\n\
              error number\n\
              error word\n\
              error badline\n\
              welcome 1 1\n\
              gap 1 1 3 0\n\
              granted 1 1 1 m 0 4\n\
              granted 1 1 2 m 4 4\n\
              stale 1 1 1 2\n",
    },
    Row {
        shows: "by the second protocol eight numbers may be under way, in any order",
        input: b"root m 0 64 1 best 0\n\
              hello 1 1 2\n\
              hello 1 1\n\
              hello 2 1 3\n\
              lease 1 1 2 m 4\n\
              lease 1 1 9 m 4\n\
              lease 1 1 8 m 4\n\
              lease 1 1 1 m 8\n\
              lease 1 1 2 m 4\n\
              lease 1 1 10 m 4\n\
              lease 1 1 11 m 4\n\
              lease 1 1 2 m 4\n",
        output: b"welcome 1 1 2\n\
              welcome 1 1 2\n\
              error number\n\
              granted 1 1 2 m 0 4\n\
              gap 1 1 9 0\n\
              granted 1 1 8 m 4 4\n\
              granted 1 1 1 m 8 8\n\
              granted 1 1 2 m 0 4\n\
              granted 1 1 10 m 16 4\n\
              gap 1 1 11 2\n\
              stale 1 1 2 10\n",
    },
    Row {
        shows: "an arena imports at least so much, and gives it back once it is free",
        input: b"root s 0 64 1 best 0\n\
              child c s 1 best 0 16\n\
              hello 1 1\n\
              lease 1 1 1 c 4\n\
              audit\n\
              release 1 1 2 c 0\n\
              audit\n",
        output: b"welcome 1 1\n\
              granted 1 1 1 c 0 4\n\
              arena s free 48 slab 0 magazine 0 exported 16 leased 0 hand 0\n\
              arena c free 12 slab 0 magazine 0 exported 0 leased 4 hand 0\n\
              released 1 1 2\n\
              arena s free 64 slab 0 magazine 0 exported 0 leased 0 hand 0\n\
              arena c free 0 slab 0 magazine 0 exported 0 leased 0 hand 0\n",
    },
    Row {
        shows: "a released unit waits in the CPU's magazine, goes back to its slab, and is reaped",
        input: b"root m 0 64 1 best 4\n\
              hello 1 1\n\
              lease 1 1 1 m 4\n\
              audit\n\
              release 1 1 2 m 0\n\
              audit\n\
              offline 0\n\
              audit\n\
              reap\n\
              audit\n",
        output: b"welcome 1 1\n\
              granted 1 1 1 m 0 4\n\
              arena m free 48 slab 12 magazine 0 exported 0 leased 4 hand 0\n\
              released 1 1 2\n\
              arena m free 48 slab 12 magazine 4 exported 0 leased 0 hand 0\n\
              ok\n\
              arena m free 48 slab 16 magazine 0 exported 0 leased 0 hand 0\n\
              reaped 16\n\
              arena m free 64 slab 0 magazine 0 exported 0 leased 0 hand 0\n",
    },
    Row {
        shows: "what operators are refused",
        input: b"root m 0 64 1 best 4\n\
              root p 0 8 1 best 0\n\
              cpu 63\n\
              cpu 64\n\
              tick\n\
              resize m 7\n\
              resize m 7\n\
              resize m 8\n\
              resize p 7\n\
              resize q 7\n\
              offline 5\n\
              reap\n",
        output: b"ok\n\
              error number\n\
              ok\n\
              ok\n\
              error size\n\
              error number\n\
              error size\n\
              error noarena\n\
              ok\n\
              reaped 0\n",
    },
];

/// Setup lines, the number of the one that is refused, and its word.
pub const REFUSED: [(&[u8], u64, &str); 31] = [
    (
        b"root top 4611686018427387888 17 1 best 0\nhello 1 1\n",
        1,
        "range",
    ),
    (b"root a 0 8 1 best 0\nroot a 0 8 3 best 0\n", 2, "name"),
    (b"root a 0 8 1 best 0\nspan b 8 8\n", 2, "noarena"),
    (b"span b 8 8\n", 1, "noarena"),
    (b"root a 0 8 3 best 5\n", 1, "quantum"),
    (b"root a 0 8 0 best 0\n", 1, "quantum"),
    (b"root a 0 9 2 best 3\n", 1, "cache"),
    (b"root a 0 8 2 best 34\n", 1, "cache"),
    (
        b"root a 0 8 288230376151711744 best 1729382256910270464\n",
        1,
        "cache",
    ),
    (b"root a 0 8 1 best 0\nroot a 0 8 1 best 5\n", 2, "name"),
    (b"root a 0 9 2 best 0\n", 1, "range"),
    (b"root a 1 8 2 best 0\n", 1, "range"),
    (b"root a 0 0 1 best 0\n", 1, "range"),
    (
        b"root a 0 8 1 best 0\nspan a 8 4\nspan a 11 4\n",
        3,
        "range",
    ),
    (b"root a 0 9 2 best 4\n", 1, "range"),
    (b"root a 0 8 1 best 0\nchild a c 1 best 0 0\n", 2, "name"),
    (
        b"root a 0 8 1 best 0\nchild b c 3 best 17 0\n",
        2,
        "noarena",
    ),
    (
        b"root a 0 8 1 best 0\nchild b a 1 best 0 0\nchild c b 1 best 0 0\n\
          child d c 1 best 0 0\nchild e d 2 best 0 0\n",
        5,
        "chain",
    ),
    (b"root a 0 8 2 best 0\nchild b a 4 best 3 0\n", 2, "quantum"),
    (b"root a 0 8 2 best 0\nchild b a 1 best 17 0\n", 2, "cache"),
    (
        b"root a 0 8 1 best 0\nchild b a 1 best 0 0\nspan b 8 8\n",
        3,
        "noarena",
    ),
    (b"child b a 1 best 0\n", 1, "badline"),
    (b"root a 0 8 1 worst 0\n", 1, "badline"),
    (b"root a 0 8 1 best\n", 1, "badline"),
    (b"root 1a 0 8 01 best 0\n", 1, "badline"),
    (b"root a 0 8 01 best 0\n", 1, "number"),
    (b"root a 0 4611686018427387905 1 best 0\n", 1, "number"),
    (b"root  a 0 8 1 best 0\n", 1, "badline"),
    (b"root", 1, "badline"),
    (b"root\n", 1, "badline"),
    (b"root a 0 8 1 best 0\nspan a 8 8", 2, "badline"),
];

/// Words of the command line that ask for a text, and the text.
pub const ASKED: [(&[&str], &str); 4] = [
    (&["vmemd", "--help"], PROGRAM_HELP),
    (&["vmemd", "-h"], PROGRAM_HELP),
    (&["vmemd", "--version"], "vmemd 0.1.0\n"),
    (&["vmemd", "-V"], "vmemd 0.1.0\n"),
];

/// Words of the command line that are a mistake, and what is told of them.
pub const MISTAKEN: [(&[&str], &str); 4] = [
    (
        &["vmemd", "frob"],
        "error: unrecognized subcommand 'frob'\n\n\
         Usage: vmemd <COMMAND>\n\n\
         For more information, try '--help'.\n",
    ),
    (
        &["vmemd", "script", "frob"],
        "error: unexpected argument 'frob' found\n\n\
         Usage: vmemd script\n\n\
         For more information, try '--help'.\n",
    ),
    (
        &["vmemd", "script", "--version"],
        "error: unexpected argument '--version' found\n\n\
         Usage: vmemd script\n\n\
         For more information, try '--help'.\n",
    ),
    (&["vmemd"], PROGRAM_HELP),
];

const PROGRAM_HELP: &str = "\
Leases ranges of whole numbers to clients, over lines of text. What lines there are, and how they
are answered, is told by: vmemd script --help

Usage: vmemd <COMMAND>

Commands:
  script  Answer standard input on standard output
  serve   Answer clients over TCP

Options:
  -h, --help     Print help
  -V, --version  Print version

Exit status: 0 at the end of the input, and after help or the version; 1 where reading, writing or
listening fails, or out of memory; 2 for other words than these and for a refused setup line.
";
