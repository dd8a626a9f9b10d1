//! What a client's core says to replies in and out of turn, and each of its refusals.
mod orders;
mod resuming;

use lease_client::{Client, Got, NotGreater, Nothing, SendFault};
use lease_proto::{Line, Op, Reply};
use lease_terms::{ClientId, Protocol};
use std::alloc::Global;
use std::process::Abort;
use std::test::Fail;

fn client(alloc: Global, id: u32) -> Result<Client, Fail> {
    Ok(Client::new(alloc, ClientId::new(id).ok_or("no client")?))
}

/// What the request of this line asks for.
fn op(line: &str) -> Result<Op, Fail> {
    Ok(Line::read(line.as_bytes())?.op().ok_or("no request")?)
}

/// Sends what the line asks for. Out of memory leaves all as it was, and the same then succeeds.
fn send(rt: &impl Abort, client: &mut Client, line: &str) -> Result<Result<Line, SendFault>, Fail> {
    let op = op(line)?;
    let longest = client.resend();
    match client.send(op) {
        Err(SendFault::NoMemory(back)) => {
            assert_eq!(rt; back, op);
            assert_eq!(rt; client.resend(), longest);
            Ok(client.send(back))
        }
        answer => Ok(answer),
    }
}

/// The client sends this very line.
fn says(rt: &impl Abort, client: &mut Client, line: &str) -> Result<(), Fail> {
    assert!(rt; client.may_send(op(line)?).is_ok(), "at {line}");
    let told = send(rt, client, line)?;
    assert_eq!(rt; told, Ok(Line::read(line.as_bytes())?), "at {line}");
    Ok(())
}

/// The client begins the incarnation with this hello, by the first protocol.
fn greets(rt: &impl Abort, client: &mut Client, incarnation: u64, line: &str) -> Result<(), Fail> {
    begins(rt, client, incarnation, Protocol::One, line)
}

fn is_taken(rt: &impl Abort, client: &mut Client, reply: &str, got: Got) -> Result<(), Fail> {
    let told = client.got(&Reply::read(reply.as_bytes())?);
    assert_eq!(rt; told, got, "at {reply}");
    Ok(())
}

fn accepts(rt: &impl Abort, client: &mut Client, reply: &str) -> Result<(), Fail> {
    is_taken(rt, client, reply, Got::Accepted)
}

fn ignores(rt: &impl Abort, client: &mut Client, reply: &str) -> Result<(), Fail> {
    is_taken(rt, client, reply, Got::Ignored)
}

/// The client holds just this, in this order.
fn holds(rt: &impl Abort, client: &Client, segments: &[(&str, u64, u64)]) {
    let held = client.held();
    assert_eq!(rt; held.len(), segments.len());
    for (segment, (arena, base, len)) in held.iter().zip(segments) {
        assert_eq!(rt; segment.arena.as_slice(), arena.as_bytes());
        assert_eq!(rt; (segment.base.get(), segment.len.get()), (*base, *len));
    }
}

/// A step of a client with what it must give.
#[derive(Clone, Copy)]
enum Step<'a> {
    /// It begins an incarnation by a protocol, and its hello is this line.
    Begins(u64, Protocol, &'a str),
    /// It sends this very line.
    Says(&'a str),
    Accepts(&'a str),
    Ignores(&'a str),
    /// This isn't sent: too many wait.
    IsBusy(&'a str),
    /// The line that waits longest, and that with a number.
    Repeats(&'a str, u64, &'a str),
    /// No request with this number waits.
    WaitsNotFor(u64),
    /// It holds units of `m` of these bases, four of each, in this order.
    Holds(&'a [u64]),
}

/// The client holds four units of `m` at each of these bases, in this order.
fn holds_fours(rt: &impl Abort, client: &Client, bases: &[u64]) {
    let held = client.held();
    assert_eq!(rt; held.len(), bases.len());
    for (segment, base) in held.iter().zip(bases) {
        assert_eq!(rt; segment.arena.as_slice(), b"m".as_slice());
        assert_eq!(rt; (segment.base.get(), segment.len.get()), (*base, 4));
    }
}

fn begins(
    rt: &impl Abort,
    client: &mut Client,
    incarnation: u64,
    protocol: Protocol,
    line: &str,
) -> Result<(), Fail> {
    assert!(rt; client.may_restart(incarnation));
    let told = client.restart(incarnation, protocol);
    assert_eq!(rt; told, Ok(Line::read(line.as_bytes())?), "at {line}");
    assert!(rt; !client.may_restart(incarnation));
    Ok(())
}

fn is_busy(rt: &impl Abort, client: &mut Client, line: &str) -> Result<(), Fail> {
    let may = client.may_send(op(line)?);
    assert_eq!(rt; may, Err(SendFault::Busy(op(line)?)), "at {line}");
    let told = client.send(op(line)?);
    assert_eq!(rt; told, Err(SendFault::Busy(op(line)?)), "at {line}");
    Ok(())
}

fn repeats(
    rt: &impl Abort,
    client: &Client,
    longest: &str,
    number: u64,
    line: &str,
) -> Result<(), Fail> {
    assert_eq!(rt; client.resend(), Ok(Line::read(longest.as_bytes())?));
    assert_eq!(rt; client.resend_of(number), Ok(Line::read(line.as_bytes())?));
    Ok(())
}

fn take_step(rt: &impl Abort, client: &mut Client, step: Step<'_>) -> Result<(), Fail> {
    match step {
        Step::Begins(incarnation, protocol, line) => {
            begins(rt, client, incarnation, protocol, line)
        }
        Step::Says(line) => says(rt, client, line),
        Step::Accepts(reply) => accepts(rt, client, reply),
        Step::Ignores(reply) => ignores(rt, client, reply),
        Step::IsBusy(line) => is_busy(rt, client, line),
        Step::Repeats(longest, number, line) => repeats(rt, client, longest, number, line),
        Step::WaitsNotFor(number) => {
            assert_eq!(rt; client.resend_of(number), Err(Nothing));
            Ok(())
        }
        Step::Holds(bases) => {
            holds_fours(rt, client, bases);
            Ok(())
        }
    }
}

fn take_steps(rt: &impl Abort, client: &mut Client, steps: &[Step<'_>]) -> Result<(), Fail> {
    for step in steps {
        take_step(rt, client, *step)?;
    }
    Ok(())
}

/// The beginning of each story, by one protocol and by the other.
const BY_ONE: [Step<'static>; 5] = [
    Step::Begins(1, Protocol::One, "hello 1 1"),
    Step::Ignores("welcome 1 2"),
    Step::Ignores("welcome 2 1"),
    Step::Ignores("welcome 1 1 2"),
    Step::Accepts("welcome 1 1"),
];

const BY_TWO: [Step<'static>; 5] = [
    Step::Begins(1, Protocol::Two, "hello 1 1 2"),
    Step::Ignores("welcome 1 2 2"),
    Step::Ignores("welcome 2 1 2"),
    Step::Ignores("welcome 1 1"),
    Step::Accepts("welcome 1 1 2"),
];

/// A lease and its release, with replies that come late, twice or to another line.
const STORY: [Step<'static>; 15] = [
    Step::Says("lease 1 1 1 m 4"),
    Step::Holds(&[]),
    Step::Accepts("granted 1 1 1 m 0 4"),
    Step::Holds(&[0]),
    Step::Ignores("granted 1 1 1 m 0 4"),
    Step::Holds(&[0]),
    Step::Says("release 1 1 2 m 0"),
    Step::Holds(&[]),
    Step::Repeats("release 1 1 2 m 0", 2, "release 1 1 2 m 0"),
    Step::Ignores("granted 1 1 1 m 0 4"),
    Step::Ignores("granted 1 1 2 m 0 4"),
    Step::Accepts("released 1 1 2"),
    Step::Ignores("released 1 1 2"),
    Step::WaitsNotFor(2),
    Step::Holds(&[]),
];

#[test]
fn client_story(rt: HostRuntime) -> Result<(), Fail> {
    for start in [BY_ONE, BY_TWO] {
        let mut client = client(rt.alloc(), 1)?;
        take_steps(&rt, &mut client, &start)?;
        take_steps(&rt, &mut client, &STORY)?;
    }
    Ok(())
}

/// Eight leases wait at once, and the ninth isn't sent.
const EIGHT: [Step<'static>; 11] = [
    Step::Says("lease 1 1 1 m 4"),
    Step::Says("lease 1 1 2 m 4"),
    Step::Says("lease 1 1 3 m 4"),
    Step::Says("lease 1 1 4 m 4"),
    Step::Says("lease 1 1 5 m 4"),
    Step::Says("lease 1 1 6 m 4"),
    Step::Says("lease 1 1 7 m 4"),
    Step::Says("lease 1 1 8 m 4"),
    Step::IsBusy("lease 1 1 9 m 4"),
    Step::Repeats("lease 1 1 1 m 4", 8, "lease 1 1 8 m 4"),
    Step::WaitsNotFor(9),
];

/// Their grants come in reverse order, each twice: only the least makes room for a ninth.
const REVERSED: [Step<'static>; 16] = [
    Step::Accepts("granted 1 1 8 m 28 4"),
    Step::Ignores("granted 1 1 8 m 28 4"),
    Step::Accepts("granted 1 1 7 m 24 4"),
    Step::Ignores("granted 1 1 7 m 24 4"),
    Step::Accepts("granted 1 1 6 m 20 4"),
    Step::Ignores("granted 1 1 6 m 20 4"),
    Step::Accepts("granted 1 1 5 m 16 4"),
    Step::Ignores("granted 1 1 5 m 16 4"),
    Step::Accepts("granted 1 1 4 m 12 4"),
    Step::Ignores("granted 1 1 4 m 12 4"),
    Step::Accepts("granted 1 1 3 m 8 4"),
    Step::Ignores("granted 1 1 3 m 8 4"),
    Step::Accepts("granted 1 1 2 m 4 4"),
    Step::Ignores("granted 1 1 2 m 4 4"),
    Step::IsBusy("lease 1 1 9 m 4"),
    Step::Repeats("lease 1 1 1 m 4", 1, "lease 1 1 1 m 4"),
];

const LAST: [Step<'static>; 6] = [
    Step::Accepts("granted 1 1 1 m 0 4"),
    Step::Ignores("granted 1 1 1 m 0 4"),
    Step::WaitsNotFor(1),
    Step::Holds(&[28, 24, 20, 16, 12, 8, 4, 0]),
    Step::Says("lease 1 1 9 m 4"),
    Step::Repeats("lease 1 1 9 m 4", 9, "lease 1 1 9 m 4"),
];

#[test]
fn windows(rt: HostRuntime) {
    assert_eq!(rt; (Protocol::One.window(), Protocol::Two.window()), (1, 8));
}

#[test]
fn pipeline(rt: HostRuntime) -> Result<(), Fail> {
    let mut client = client(rt.alloc(), 1)?;
    take_steps(&rt, &mut client, &BY_TWO)?;
    take_steps(&rt, &mut client, &EIGHT)?;
    take_steps(&rt, &mut client, &REVERSED)?;
    take_steps(&rt, &mut client, &LAST)
}

#[test]
fn held_in_order_of_acceptance(rt: HostRuntime) -> Result<(), Fail> {
    let mut client = client(rt.alloc(), 7)?;
    greets(&rt, &mut client, 3, "hello 7 3")?;
    accepts(&rt, &mut client, "welcome 7 3")?;
    says(&rt, &mut client, "lease 7 3 1 m 4 align 16")?;
    accepts(&rt, &mut client, "granted 7 3 1 m 16 4")?;
    says(&rt, &mut client, "lease 7 3 2 n 2")?;
    accepts(&rt, &mut client, "refused 7 3 2 nofit")?;
    says(&rt, &mut client, "lease 7 3 3 n 2")?;
    for _ in 0..2 {
        assert_eq!(rt; client.resend(), Ok(Line::read(b"lease 7 3 3 n 2")?));
    }
    // The reply of another kind, of an older number and of another incarnation.
    ignores(&rt, &mut client, "released 7 3 3")?;
    ignores(&rt, &mut client, "granted 7 3 2 n 0 2")?;
    ignores(&rt, &mut client, "granted 7 2 3 n 0 2")?;
    ignores(&rt, &mut client, "again 7 3 3")?;
    ignores(&rt, &mut client, "gap 7 3 3 1")?;
    ignores(&rt, &mut client, "stale 7 3 3 4")?;
    accepts(&rt, &mut client, "granted 7 3 3 n 16 2")?;
    holds(&rt, &client, &[("m", 16, 4), ("n", 16, 2)]);
    says(&rt, &mut client, "release 7 3 4 m 16")?;
    holds(&rt, &client, &[("n", 16, 2)]);
    accepts(&rt, &mut client, "refused 7 3 4 notyours")?;
    says(&rt, &mut client, "lease 7 3 5 m 1")?;
    Ok(())
}

/// A greater incarnation than its own ends all that a client has, also while a request is
/// outstanding; a lesser or equal one ends nothing.
#[test]
fn an_old_ends_all(rt: HostRuntime) -> Result<(), Fail> {
    let mut client = client(rt.alloc(), 2)?;
    greets(&rt, &mut client, 4, "hello 2 4")?;
    accepts(&rt, &mut client, "welcome 2 4")?;
    says(&rt, &mut client, "lease 2 4 1 m 4")?;
    accepts(&rt, &mut client, "granted 2 4 1 m 8 4")?;
    says(&rt, &mut client, "lease 2 4 2 m 4")?;
    ignores(&rt, &mut client, "old 2 4")?;
    ignores(&rt, &mut client, "old 3 9")?;
    holds(&rt, &client, &[("m", 8, 4)]);
    accepts(&rt, &mut client, "old 2 9")?;
    accepts(&rt, &mut client, "old 2 6")?;
    holds(&rt, &client, &[]);
    ignores(&rt, &mut client, "granted 2 4 2 m 12 4")?;
    assert_eq!(rt; client.resend(), Err(Nothing));
    assert_eq!(rt; client.restart(9, Protocol::One), Err(NotGreater));
    greets(&rt, &mut client, 10, "hello 2 10")?;
    ignores(&rt, &mut client, "old 2 9")?;
    ignores(&rt, &mut client, "welcome 2 4")?;
    accepts(&rt, &mut client, "welcome 2 10")?;
    says(&rt, &mut client, "lease 2 10 1 m 4")?;
    ignores(&rt, &mut client, "granted 2 4 1 m 8 4")?;
    Ok(())
}

#[test]
fn client_refusals(rt: HostRuntime) -> Result<(), Fail> {
    let mut client = client(rt.alloc(), 1)?;
    let lease = op("lease 1 1 1 m 4")?;
    let release = op("release 1 1 2 m 4")?;
    assert_eq!(rt; client.resend(), Err(Nothing));
    assert_eq!(rt; client.send(lease), Err(SendFault::NotOpen(lease)));
    for incarnation in [0, (1 << 62) + 1, u64::MAX] {
        assert_eq!(rt; client.restart(incarnation, Protocol::Two), Err(NotGreater));
    }
    greets(&rt, &mut client, 2, "hello 1 2")?;
    for incarnation in [1, 2] {
        assert_eq!(rt; client.restart(incarnation, Protocol::Two), Err(NotGreater));
    }
    // The hello waits for its reply: the client isn't open.
    assert_eq!(rt; client.send(release), Err(SendFault::NotOpen(release)));
    assert_eq!(rt; client.resend(), Ok(Line::read(b"hello 1 2")?));
    accepts(&rt, &mut client, "welcome 1 2")?;
    assert_eq!(rt; client.resend(), Err(Nothing));
    assert_eq!(rt; client.send(release), Err(SendFault::NotHeld(release)));
    says(&rt, &mut client, "lease 1 2 1 m 4")?;
    assert_eq!(rt; client.send(release), Err(SendFault::Busy(release)));
    accepts(&rt, &mut client, "granted 1 2 1 m 8 4")?;
    for other in ["release 1 2 2 m 12", "release 1 2 2 n 8"] {
        let other = op(other)?;
        assert_eq!(rt; client.send(other), Err(SendFault::NotHeld(other)));
    }
    holds(&rt, &client, &[("m", 8, 4)]);
    says(&rt, &mut client, "release 1 2 2 m 8")?;
    assert_eq!(rt; client.send(lease), Err(SendFault::Busy(lease)));
    accepts(&rt, &mut client, "released 1 2 2")?;
    let again = op("release 1 2 3 m 8")?;
    assert_eq!(rt; client.send(again), Err(SendFault::NotHeld(again)));
    greets(&rt, &mut client, 1 << 62, "hello 1 4611686018427387904")?;
    assert_eq!(rt; client.restart(1 << 62, Protocol::Two), Err(NotGreater));
    Ok(())
}
