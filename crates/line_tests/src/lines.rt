//! Every form of line and reply, lines that are none, and streams cut at every byte.
ghost use Rattle.std.specs.Prelude.{◌≡◌, ◌++◌, false};

use lease_proto::{
    ErrorWord, Granted, HelloLine, LeaseLine, LeaseOptions, Line, LineFault, LineReader, Op,
    PolicyWord, RefusedRequest, ReleaseLine, Reply, RootLine, ServedLine, SetupLine, Welcome,
};
use lease_terms::{ArenaName, ClientId, Ordinal, Protocol, Quantity, Refusal, RequestId};
use std::alloc::{AllocError, Global};
use std::process::Abort;
use std::test::Fail;

/// Lines that are written as they are read.
const LINES: &str = "hello 1 1\n\
    hello 65536 4611686018427387904\n\
    hello 1 1 2\n\
    hello 65536 4611686018427387904 2\n\
    lease 1 2 3 m 8\n\
    lease 1 2 3 m 8 align 16\n\
    lease 1 2 3 m 8 phase 4\n\
    lease 1 2 3 m 8 nocross 64\n\
    lease 1 2 3 m 8 min 1\n\
    lease 1 2 3 m 8 max 0\n\
    lease 1 2 3 m 8 align 16 phase 4 nocross 64 min 8 max 4096\n\
    lease 1 2 3 m 0\n\
    lease 65536 4611686018427387904 4611686018427387904 abcdefghijklmno9 4611686018427387904 \
    align 4611686018427387904 phase 4611686018427387904 nocross 4611686018427387904 \
    min 4611686018427387904 max 4611686018427387903\n\
    release 1 2 3 m 0\n\
    release 7 1 1 a0 4611686018427387904";

const REPLIES: &str = "welcome 65536 1\n\
    welcome 65536 1 2\n\
    granted 1 2 3 m 0 8\n\
    granted 65536 4611686018427387904 4611686018427387904 abcdefghijklmno9 \
    4611686018427387904 4611686018427387904\n\
    released 1 2 3\n\
    refused 1 2 3 nofit\n\
    refused 1 2 3 badrequest\n\
    refused 1 2 3 noarena\n\
    refused 1 2 3 notyours\n\
    refused 1 2 3 leases\n\
    old 1 0\n\
    stale 1 2 3 4\n\
    gap 1 2 3 0\n\
    again 1 2 0\n\
    error toolong\n\
    error badline\n\
    error word\n\
    error number\n\
    error memory\n\
    error noarena\n\
    error size\n\
    error range\n\
    error many\n\
    error misplaced\n\
    error busy";

/// What isn't a line of a client, and of an operator neither, by its words or their count.
const BAD_LINES: &str = "\n\
    \x20\n\
    \x20hello 1 1\n\
    hello 1 1\x20\n\
    hello 1  1\n\
    hello 1 1\r\n\
    hello\t1 1\n\
    Hello 1 1\n\
    hello 1 -1\n\
    lease 1 1 1 m_ 4\n\
    hello 1 1\0\n\
    hello\n\
    hello 1\n\
    hello 1 1 2 2\n\
    hello 0 1 3 2\n\
    hello 1 1 2\x20\n\
    hello 1 1  2\n\
    lease 1 1 1 m\n\
    lease 1 1 1 9m 4\n\
    lease 1 1 1 abcdefghijklmnopq 4\n\
    lease 1 1 1 m 4 align\n\
    lease 1 1 1 m 4 size 3\n\
    lease 1 1 1 m 4 phase 1 align 2\n\
    lease 1 1 1 m 4 align 2 align 2\n\
    lease 1 1 1 m 4 max 9 max 9\n\
    lease 0 1 1 9 4\n\
    lease 1 1 x m 4 align\n\
    release 1 1 1 m\n\
    release 1 1 1 m 0 0";

const UNKNOWN_WORDS: &str = "frob\n\
    hell 1 1\n\
    helloo 1 1\n\
    root m 0 64 1 best 0\n\
    1 hello";

const BAD_NUMBERS: &str = "hello 0 1\n\
    hello 65537 1\n\
    hello 4294967297 1\n\
    hello 01 1\n\
    hello x 1\n\
    hello 1 0\n\
    hello 1 1 1\n\
    hello 1 1 3\n\
    hello 1 1 0\n\
    hello 1 1 02\n\
    hello 1 1 22\n\
    hello 1 1 two\n\
    hello 0 1 2\n\
    hello 1 4611686018427387905\n\
    hello 1 18446744073709551616\n\
    hello 1 18446744073709551617\n\
    hello 1 340282366920938463463374607431768211457\n\
    lease 1 1 01 m 4\n\
    lease 1 1 1 m 4 align 1x";

/// What isn't a reply.
const BAD_REPLIES: &str = "welcome 1\n\
    welcome 1 1 2 2\n\
    refused 1 2 3 word\n\
    refused 1 0 3 none\n\
    error ranges\n\
    error word word\n\
    granted 1 2 m 3 0 8";

const UNKNOWN_REPLIES: &str = "welcomes 1 1\n\
    hello 1 1";

const BAD_REPLY_NUMBERS: &str = "welcome 1 1 1\n\
    welcome 1 1 3\n\
    granted 1 2 3 m 0 08\n\
    stale 1 2 0 4\n\
    old 0 0\n\
    again 1 0 0";

/// What is no setup line.
const BAD_SETUP_LINES: &str = "root 4u 0 64 1 best 0\n\
    root m 0 64 1 first 0\n\
    root m 0 64 1 best\n\
    span m 4611686018427387904 1 1\n\
    child c 4u 1 best 0 0";

const BAD_SETUP_NUMBERS: &str = "root m 4u 64 1 best 0\n\
    span m 4611686018427387905 1";

/// Reads a line, writes it, and reads what is written.
fn write_line(rt: &impl Abort, alloc: Global, text: &str, written: &str) {
    let line = Line::read(text.as_bytes()).ok().expect(rt, text);
    let mut out = Vec::new(alloc);
    assert!(rt; line.write(&mut out).is_ok());
    assert_eq!(rt; out.pop(), Some(b'\n'), "at {text}");
    assert_eq!(rt; out.as_slice(), written.as_bytes(), "at {text}");
    assert_eq!(rt; Line::read(out.as_slice()), Ok(line), "at {text}");
}

/// Reads a reply, writes it, and reads what is written.
fn write_reply(rt: &impl Abort, alloc: Global, text: &str) {
    let reply = Reply::read(text.as_bytes()).ok().expect(rt, text);
    let mut out = Vec::new(alloc);
    assert!(rt; reply.write(&mut out).is_ok());
    assert_eq!(rt; out.pop(), Some(b'\n'), "at {text}");
    assert_eq!(rt; out.as_slice(), text.as_bytes(), "at {text}");
    assert_eq!(rt; Reply::read(out.as_slice()), Ok(reply), "at {text}");
}

/// None of these is a line of a client, nor one that a server is sent.
fn refuse_lines(rt: &impl Abort, texts: &str, fault: LineFault) {
    for text in texts.split('\n') {
        assert_eq!(rt; Line::read(text.as_bytes()), Err(fault), "at {text}");
        assert_eq!(rt; ServedLine::read(text.as_bytes()), Err(fault), "at {text}");
    }
}

fn refuse_replies(rt: &impl Abort, texts: &str, fault: LineFault) {
    for text in texts.split('\n') {
        assert_eq!(rt; Reply::read(text.as_bytes()), Err(fault), "at {text}");
    }
}

fn refuse_setup_lines(rt: &impl Abort, texts: &str, fault: LineFault) {
    for text in texts.split('\n') {
        assert_eq!(rt; SetupLine::read(text.as_bytes()), Err(fault), "at {text}");
    }
}

#[test]
fn each_line_is_read_and_written(rt: HostRuntime) {
    for text in LINES.split('\n') {
        write_line(&rt, rt.alloc(), text, text);
    }
    write_line(
        &rt,
        rt.alloc(),
        "lease 1 2 3 m 0 align 0 phase 0 nocross 0 min 0 max 4611686018427387904",
        "lease 1 2 3 m 0",
    );
}

#[test]
fn each_reply_is_read_and_written(rt: HostRuntime) {
    for text in REPLIES.split('\n') {
        write_reply(&rt, rt.alloc(), text);
    }
}

#[test]
fn each_fault_of_a_line_is_named(rt: HostRuntime) {
    refuse_lines(&rt, BAD_LINES, LineFault::BadLine);
    refuse_lines(&rt, UNKNOWN_WORDS, LineFault::Word);
    refuse_lines(&rt, BAD_NUMBERS, LineFault::Number);
    let letters = [b'a'; 256];
    assert_eq!(rt; Line::read(&letters[..255]), Err(LineFault::Word));
    assert_eq!(rt; Line::read(&letters), Err(LineFault::TooLong));
}

#[test]
fn each_fault_of_a_reply_is_named(rt: HostRuntime) {
    refuse_replies(&rt, BAD_REPLIES, LineFault::BadLine);
    refuse_replies(&rt, UNKNOWN_REPLIES, LineFault::Word);
    refuse_replies(&rt, BAD_REPLY_NUMBERS, LineFault::Number);
    assert_eq!(rt; Reply::read(&[b'a'; 256]), Err(LineFault::TooLong));
}

fn ordinal(rt: &impl Abort, value: u64) -> Ordinal {
    Ordinal::new(value).expect(rt, "an ordinal")
}

fn quantity(rt: &impl Abort, value: u64) -> Quantity {
    Quantity::new(value).expect(rt, "a quantity")
}

fn name(rt: &impl Abort, text: &[u8]) -> ArenaName {
    ArenaName::new(text).expect(rt, "a name")
}

/// The third request of client 7's second incarnation.
fn third_request(rt: &impl Abort) -> RequestId {
    RequestId {
        client: ClientId::new(7).expect(rt, "a client"),
        incarnation: ordinal(rt, 2),
        number: ordinal(rt, 3),
    }
}

fn reads(rt: &impl Abort, text: &[u8], line: Line) {
    assert_eq!(rt; Line::read(text), Ok(line));
}

fn reads_reply(rt: &impl Abort, text: &[u8], reply: Reply) {
    assert_eq!(rt; Reply::read(text), Ok(reply));
}

#[test]
fn the_words_go_to_their_fields(rt: HostRuntime) {
    let id = third_request(&rt);
    let arena = name(&rt, b"arena2");
    assert_eq!(rt; arena.as_slice(), b"arena2".as_slice());
    let options = LeaseOptions {
        align: quantity(&rt, 16),
        phase: quantity(&rt, 4),
        nocross: quantity(&rt, 64),
        min: quantity(&rt, 10),
        max: quantity(&rt, 99),
    };
    let size = quantity(&rt, 8);
    let lease = LeaseLine {
        arena,
        size,
        options,
    };
    let text = b"lease 7 2 3 arena2 8 align 16 phase 4 nocross 64 min 10 max 99";
    reads(&rt, text, Line::Request(id, Op::Lease(lease)));
    let options = LeaseOptions::none();
    let plain = LeaseLine {
        arena,
        size,
        options,
    };
    reads(
        &rt,
        b"lease 7 2 3 arena2 8",
        Line::Request(id, Op::Lease(plain)),
    );
}

#[test]
fn the_words_of_a_hello_go_to_their_fields(rt: HostRuntime) {
    reads(&rt, b"hello 7 2", hello(&rt, Protocol::One));
    reads(&rt, b"hello 7 2 2", hello(&rt, Protocol::Two));
}

// Client 7 begins as its incarnation 2.
fn hello(rt: &impl Abort, protocol: Protocol) -> Line {
    let id = third_request(rt);
    Line::Hello(HelloLine {
        client: id.client,
        incarnation: id.incarnation,
        protocol,
    })
}

#[test]
fn the_words_of_a_release_go_to_their_fields(rt: HostRuntime) {
    let release = ReleaseLine {
        arena: name(&rt, b"arena2"),
        base: quantity(&rt, 24),
    };
    let line = Line::Request(third_request(&rt), Op::Release(release));
    reads(&rt, b"release 7 2 3 arena2 24", line);
}

#[test]
fn the_words_of_a_reply_go_to_their_fields(rt: HostRuntime) {
    let id = third_request(&rt);
    let granted = Granted {
        id,
        arena: name(&rt, b"arena2"),
        base: quantity(&rt, 24),
        len: quantity(&rt, 8),
    };
    let refusal = Refusal::NotYours;
    let refused = RefusedRequest { id, refusal };
    reads_reply(&rt, b"granted 7 2 3 arena2 24 8", Reply::Granted(granted));
    reads_reply(&rt, b"refused 7 2 3 notyours", Reply::Refused(refused));
    reads_reply(&rt, b"released 7 2 3", Reply::Released(id));
    let welcome = Welcome {
        client: id.client,
        incarnation: id.incarnation,
        protocol: Protocol::Two,
    };
    reads_reply(&rt, b"welcome 7 2 2", Reply::Welcome(welcome));
    reads_reply(&rt, b"error memory", Reply::Error(ErrorWord::Memory));
}

#[test]
fn the_words_of_a_root_go_to_their_fields(rt: HostRuntime) {
    let root = RootLine {
        name: name(&rt, b"main"),
        base: quantity(&rt, 0),
        len: quantity(&rt, 64),
        quantum: quantity(&rt, 1),
        policy: PolicyWord::Next,
        qcache_max: quantity(&rt, 5),
    };
    let read = SetupLine::read(b"root main 0 64 1 next 5");
    assert_eq!(rt; read, Ok(SetupLine::Root(root)));
}

#[test]
fn the_words_of_a_span_go_to_their_fields(rt: HostRuntime) {
    match SetupLine::read(b"span m 4611686018427387904 1") {
        Ok(SetupLine::Span(span)) => {
            assert_eq!(rt; (span.base.get(), span.len.get()), (1 << 62, 1));
        }
        _ => panic!(rt; "a line of a span"),
    }
}

#[test]
fn each_fault_of_a_setup_line_is_named(rt: HostRuntime) {
    refuse_setup_lines(&rt, "hello 1 1", LineFault::Word);
    refuse_setup_lines(&rt, BAD_SETUP_LINES, LineFault::BadLine);
    refuse_setup_lines(&rt, BAD_SETUP_NUMBERS, LineFault::Number);
}

/// Takes a piece, and writes of each frame that ends in it the line that is read, or the error
/// line.
fn take_piece(
    reader: &mut LineReader,
    mut piece: &[u8],
    out: &mut Vec<u8>,
) -> Result<(), AllocError>
    requires { reader.old.whole ≡ false }
    ensures { reader.new.whole ≡ false }
{
    while !piece.is_empty() {
        let taken = reader.feed(piece);
        piece = &piece[taken..];
        match reader.next() {
            None => {}
            Some(Err(fault)) => out.extend_from_slice(fault.line())?,
            Some(Ok(line)) => match Line::read(line.as_slice()) {
                Ok(line) => line.write(out)?,
                Err(fault) => out.extend_from_slice(fault.line())?,
            },
        }
    }
    Ok(())
}

/// What is written of a stream that comes in two pieces, or byte by byte from there on.
fn transcript(
    alloc: Global,
    input: &[u8],
    cut: usize,
    bytewise: bool,
) -> Result<Vec<u8>, AllocError> {
    let cut = cut.min(input.len());
    let mut reader = LineReader::new();
    let mut out = Vec::new(alloc);
    take_piece(&mut reader, &input[..cut], &mut out)?;
    if bytewise {
        for byte in &input[cut..] {
            take_piece(&mut reader, &[*byte], &mut out)?;
        }
    } else {
        take_piece(&mut reader, &input[cut..], &mut out)?;
    }
    if let Some(fault) = reader.at_end() {
        out.extend_from_slice(fault.line())?;
    }
    Ok(out)
}

fn check_every_cut(
    rt: &impl Abort,
    alloc: Global,
    input: &[u8],
    expected: &[u8],
) -> Result<(), AllocError> {
    for cut in 0..=input.len() {
        let out = transcript(alloc, input, cut, false)?;
        assert_eq!(rt; out.as_slice(), expected, "cut at {cut}");
    }
    let out = transcript(alloc, input, 0, true)?;
    assert_eq!(rt; out.as_slice(), expected);
    Ok(())
}

#[test]
fn a_stream_is_the_same_however_it_is_cut(rt: HostRuntime) -> Result<(), Fail> {
    let alloc = rt.alloc();
    let input = b"lease 1 1 1 m\nlease 1 1 01 m 4\nfrob\nhello 1  1\nhello 1 1\nlease 1 1 3 m 4\n\n\
        hello 1 1\r\nhello 1 18446744073709551617\nrelease 1 1 2 m 0";
    let expected =
        b"error badline\nerror number\nerror word\nerror badline\nhello 1 1\nlease 1 1 3 m 4\n\
        error badline\nerror badline\nerror number\nerror badline\n";
    check_every_cut(&rt, alloc, input, expected)?;
    check_every_cut(&rt, alloc, b"hello 1 1\n", b"hello 1 1\n")?;
    check_every_cut(&rt, alloc, b"hello 1 1", b"error badline\n")?;
    check_every_cut(&rt, alloc, b"", b"")?;
    Ok(())
}

#[test]
fn a_long_line_is_refused_once_however_it_is_cut(rt: HostRuntime) -> Result<(), Fail> {
    let alloc = rt.alloc();
    let mut input = Vec::from_slice(alloc, &[b'a'; 255])?;
    input.push(b'\n')?;
    input.extend_from_slice(&[b'a'; 256])?;
    input.extend_from_slice(b"\nhello 1 1\n")?;
    input.extend_from_slice(&[b' '; 600])?;
    input.extend_from_slice(b"hello 1 1\nhello 2 1\n")?;
    check_every_cut(
        &rt,
        alloc,
        input.as_slice(),
        b"error word\nerror toolong\nhello 1 1\nerror toolong\nhello 2 1\n",
    )?;
    input.extend_from_slice(&[b'a'; 256])?;
    check_every_cut(
        &rt,
        alloc,
        input.as_slice(),
        b"error word\nerror toolong\nhello 1 1\nerror toolong\nhello 2 1\nerror toolong\n",
    )?;
    Ok(())
}
