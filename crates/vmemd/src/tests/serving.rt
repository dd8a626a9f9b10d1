//! A server and its clients, both in this process, over loopback.

use super::{Mishap, Pieces};
use crate::running::{Console, Plan, run_serve};
use lease_server::Watched;
use lease_tcp::Pace;
use std::alloc::AllocGlobal;
use std::io::{Read, Write};
use std::net::{Net, Shutdown, TcpListener, TcpStream};
use std::process::Abort;
use std::sync::Wait;
use std::thread::Threads;
use std::time::{Clock, Duration};
use std::{io, thread};
use vmemd_setup::{MOST_WORKERS, read_config};

/// The longest line of a server's console.
const CONSOLE_LINE: usize = 64;

/// CONFIG; lines of its operator, and what is told of them before a client comes; lines of clients,
/// and what they are answered; and the base and the length of each root that is closed.
struct Talk {
    config: &'static [u8],
    asks: &'static [u8],
    told: &'static [u8],
    lines: &'static [u8],
    replies: &'static [u8],
    closed: &'static [(u64, u64)],
}

const TALKS: [Talk; 7] = [
    Talk {
        config: b"root m 0 8 1 best 0\nspan m 8 8\n",
        asks: b"",
        told: b"",
        lines: b"hello 1 1\nlease 1 1 1 m 8 min 8\nlease 1 1 2 m 9\nspan m 16 8\n",
        replies: b"welcome 1 1\ngranted 1 1 1 m 8 8\nrefused 1 1 2 nofit\nerror word\n",
        closed: &[(0, 8), (8, 8)],
    },
    Talk {
        config: b"root m 0 8 1 best 0\nroot a 0 8 1 best 0\n",
        asks: b"grow m 8 8\ngrow a 16 8\ngrow m 12 8\ngrow z 0 8\nspan m 16 8\n",
        told: b"ok\nok\nerror range\nerror noarena\nerror word\n",
        lines: b"hello 1 1\nlease 1 1 1 m 12\nlease 1 1 2 m 8\nlease 1 1 3 m 8\ngrow m 16 8\n",
        replies: b"welcome 1 1\nrefused 1 1 1 nofit\ngranted 1 1 2 m 0 8\n\
              granted 1 1 3 m 8 8\nerror word\n",
        closed: &[(0, 8), (8, 8), (0, 8), (16, 8)],
    },
    Talk {
        config: b"root m 0 64 1 best 0\n",
        asks: b"",
        told: b"",
        lines: b"hello 1 1\nlease 1 1 1 m 8\nrelease 1 1 2 m 0\n",
        replies: b"welcome 1 1\ngranted 1 1 1 m 0 8\nreleased 1 1 2\n",
        closed: &[(0, 64)],
    },
    Talk {
        config: b"root m 0 64 1 best 0\n",
        asks: b"",
        told: b"",
        lines: b"hello 1 1\n\
              lease 1 1 1 m 5 align 8 phase 3 nocross 8\n\
              lease 1 1 2 m 6 align 8 phase 3 nocross 8\n",
        replies: b"welcome 1 1\ngranted 1 1 1 m 3 5\nrefused 1 1 2 nofit\n",
        closed: &[(0, 64)],
    },
    Talk {
        config: b"root m 0 64 1 best 0\n",
        asks: b"",
        told: b"",
        lines: b"hello 1 1\nlease 1 1 1 m 8\nlease 1 1 1 m 8\n",
        replies: b"welcome 1 1\ngranted 1 1 1 m 0 8\ngranted 1 1 1 m 0 8\n",
        closed: &[(0, 64)],
    },
    Talk {
        config: b"root p 1 4 1 best 0\n",
        asks: b"",
        told: b"",
        lines: b"hello 1 1\n\
              lease 1 1 1 p 4\n\
              hello 1 2\n\
              hello 2 1\n\
              lease 2 1 1 p 4\n\
              lease 1 1 1 p 4\n",
        replies: b"welcome 1 1\n\
              granted 1 1 1 p 1 4\n\
              welcome 1 2\n\
              welcome 2 1\n\
              granted 2 1 1 p 1 4\n\
              old 1 2\n",
        closed: &[(1, 4)],
    },
    Talk {
        config: b"root m 0 64 1 best 0\n",
        asks: b"",
        told: b"",
        lines: b"hello 1 1 2\nhello 2 1 3\nlease 1 1 8 m 4\nlease 1 1 1 m 8\nlease 1 1 8 m 4\n",
        replies: b"welcome 1 1 2\nerror number\ngranted 1 1 8 m 0 4\n\
              granted 1 1 1 m 4 8\ngranted 1 1 8 m 0 4\n",
        closed: &[(0, 64)],
    },
];

#[test]
fn tcp_rows(rt: HostRuntime) {
    for talk in &TALKS {
        for (workers, connections) in [(1, None), (3, None), (2, Some(1)), (1, Some(4096))] {
            serve_talk(&rt, talk, workers, connections);
        }
    }
}

/// A server whose console is a connection too: its other end reads the address from it, asks the
/// lines there, ends the server's input, and reads that it closed.
fn serve_talk<
    R: Net<Listener = TcpListener, Stream = TcpStream>
        + Threads
        + Wait
        + Clock
        + Eprint
        + Abort
        + Sync
        + AllocGlobal,
>(rt: &R, talk: &Talk, workers: u32, connections: Option<u32>) {
    let control = TcpListener::bind(rt, "127.0.0.1:0").expect(rt, "a port");
    let address = control.local_addr().expect(rt, "an address");
    let user = TcpStream::connect(rt, address).expect(rt, "a connection");
    let (console, _) = control.accept().expect(rt, "a connection");
    let ends = [&user, &console];
    let (_, ()) = thread::join(
        rt,
        move || run_server(rt, talk, workers, connections, ends[1]),
        move || use_server(rt, talk, ends[0]),
    );
}

fn run_server<
    R: Net<Listener = TcpListener, Stream = TcpStream>
        + Threads
        + Wait
        + Clock
        + Eprint
        + Abort
        + Sync
        + AllocGlobal,
>(rt: &R, talk: &Talk, workers: u32, connections: Option<u32>, console: &TcpStream) {
    assert!(rt; 1 <= workers && workers <= MOST_WORKERS);
    assert!(rt; connections != Some(0));
    let mut reader = Watched::new(Pieces {
        rest: talk.config,
        size: 4096,
        mishap: Mishap::None,
        reads: 0,
    });
    let setup = read_config(rt.alloc(), &mut reader).expect(rt, "a setup");
    let streams = Console {
        input: Watched::new(console),
        out: Watched::new(console),
    };
    let plan = Plan {
        workers,
        connections,
        pace: Pace {
            line: Duration::from_secs(10),
            idle: Duration::from_secs(10),
        },
        grace: None,
    };
    let ran = run_serve(rt, "127.0.0.1:0", setup, plan, None, streams);
    console.shutdown(Shutdown::Both).expect(rt, "an end");
    assert!(rt; ran.ended.is_ok(), "a fault");
    let closed = ran.closed.expect(rt, "roots");
    let mut next = 0;
    for ranges in &closed {
        for range in ranges {
            assert!(rt; next < talk.closed.len(), "too many roots");
            assert_eq!(rt; (range.base(), range.len()), talk.closed[next]);
            next += 1;
        }
    }
    assert_eq!(rt; next, talk.closed.len());
}

fn use_server<R: Net<Listener = TcpListener, Stream = TcpStream> + Abort + AllocGlobal>(
    rt: &R,
    talk: &Talk,
    console: &TcpStream,
) {
    let told = read_line(rt, console);
    let text = std::str::from_utf8(told.as_slice()).expect(rt, "a text");
    let Some(address) = text.strip_prefix("listening ") else {
        panic!(rt; "not listening");
    };
    ask_operator(rt, talk, console);
    let mut client = TcpStream::connect(rt, address).expect(rt, "a connection");
    client.write_all(talk.lines).expect(rt, "a peer");
    client.shutdown(Shutdown::Write).expect(rt, "an end");
    let replies = io::read_to_string(rt.alloc(), client).expect(rt, "replies");
    assert!(rt; replies.as_bytes() == talk.replies, "other replies");
    console.shutdown(Shutdown::Write).expect(rt, "an end");
    let rest = io::read_to_string(rt.alloc(), console).expect(rt, "an end");
    assert!(rt; rest.as_bytes() == b"closed\n".as_slice(), "not closed");
}

/// Asks the lines of the operator, and reads what is told of each.
fn ask_operator<R: Abort + AllocGlobal>(rt: &R, talk: &Talk, console: &TcpStream) {
    let mut writer = console;
    writer.write_all(talk.asks).expect(rt, "a server");
    let mut told = Vec::new(rt.alloc());
    for _ in 0..talk.told.len() {
        if told.len() >= talk.told.len() {
            break;
        }
        let line = read_line(rt, console);
        told.extend_from_slice(line.as_slice()).expect(rt, "room");
        told.push(b'\n').expect(rt, "room");
    }
    assert_eq!(rt; told.as_slice(), talk.told);
}

/// A line, without its line feed.
fn read_line<R: Abort + AllocGlobal>(rt: &R, stream: &TcpStream) -> Vec<u8> {
    let mut line = Vec::new(rt.alloc());
    let mut reader = stream;
    for _ in 0..CONSOLE_LINE {
        let mut byte = [0u8; 1];
        let count = reader.read(&mut byte).expect(rt, "a byte");
        if count == 0 || byte[0] == b'\n' {
            break;
        }
        line.push(byte[0]).expect(rt, "room");
    }
    line
}
