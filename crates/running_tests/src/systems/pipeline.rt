//! A client that has eight requests under way at once.
ghost use Rattle.std.specs.Prelude.{◌≡◌};

use super::{ask, ask_all, cpu, line, made, retire, root, shut};
use arena_tree::Setup;
use deed_table::{Ground, Name};
use lease_client::{Client, Got, SendFault};
use lease_proto::{Op, Reply};
use lease_terms::{ClientId, Protocol};
use lease_threads::System;
use std::alloc::AllocGlobal;
use std::marker::Brand;
use std::process::Abort;
use std::sync::Wait;
use std::test::Fail;
use tag_arena::Policy;

/// Eight leases, each with the reply that it gets.
const EIGHT: [(&str, &str); 8] = [
    ("lease 1 1 1 m 4", "granted 1 1 1 m 0 4"),
    ("lease 1 1 2 m 4", "granted 1 1 2 m 4 4"),
    ("lease 1 1 3 m 4", "granted 1 1 3 m 8 4"),
    ("lease 1 1 4 m 4", "granted 1 1 4 m 12 4"),
    ("lease 1 1 5 m 4", "granted 1 1 5 m 16 4"),
    ("lease 1 1 6 m 4", "granted 1 1 6 m 20 4"),
    ("lease 1 1 7 m 4", "granted 1 1 7 m 24 4"),
    ("lease 1 1 8 m 4", "granted 1 1 8 m 28 4"),
];

/// And one more.
const NINTH: (&str, &str) = ("lease 1 1 9 m 4", "granted 1 1 9 m 32 4");

#[test]
fn pipeline(rt: HostRuntime) -> Result<(), Fail> {
    let mut setup = Setup::new(rt.alloc());
    root(&rt, &mut setup, "m", 0, 64, Policy::Best, 0);
    piped::<Brand, _>(&rt, Ground::new(rt.alloc())?, setup);
    Ok(())
}

/// Eight leases are under way at once. Each is asked of two CPUs, and its second reply is the same.
fn piped<N: Name, R: Abort + Wait + AllocGlobal>(rt: &R, ground: Ground, setup: Setup)
    requires { ground ≡ N.table }
{
    let system: System<N> = made(rt, ground, setup);
    let mut one = cpu(rt, &system, 0);
    let mut two = cpu(rt, &system, 1);
    let mut client = Client::new(rt.alloc(), ClientId::new(1).expect(rt, "a client"));
    let hello = client
        .restart(1, Protocol::Two)
        .expect(rt, "an incarnation");
    assert!(rt; hello == line(rt, "hello 1 1 2"));
    ask(rt, &system, &mut one, "hello 1 1 2", "welcome 1 1 2");
    gets(rt, &mut client, "welcome 1 1 2", Got::Accepted);
    for (text, _) in &EIGHT {
        sends(rt, &mut client, text);
    }
    ask_all(rt, &system, &mut one, &mut two, &EIGHT);
    ask_all(rt, &system, &mut two, &mut one, &EIGHT);
    takes_reversed(rt, &mut client);
    sends(rt, &mut client, NINTH.0);
    ask(rt, &system, &mut one, NINTH.0, NINTH.1);
    gets(rt, &mut client, NINTH.1, Got::Accepted);
    assert!(rt; client.held().len() == 9 && client.resend().is_err());
    ask(rt, &system, &mut one, "lease 1 1 1 m 4", "stale 1 1 1 9");
    retire(rt, &system, one);
    retire(rt, &system, two);
    shut(rt, system, &[(0, 64)]);
}

/// The replies come in reverse order, each twice, and count once. No ninth lease is sent before
/// that to the first one.
fn takes_reversed(rt: &impl Abort, client: &mut Client) {
    for (_, reply) in EIGHT.iter().rev() {
        let sent = client.send(op(rt, NINTH.0));
        assert!(rt; sent == Err(SendFault::Busy(op(rt, NINTH.0))));
        gets(rt, client, reply, Got::Accepted);
        gets(rt, client, reply, Got::Ignored);
    }
}

/// What the request of this line asks for.
fn op(rt: &impl Abort, text: &str) -> Op {
    line(rt, text).op().expect(rt, "a request")
}

/// The client sends this very line.
fn sends(rt: &impl Abort, client: &mut Client, text: &str) {
    let sent = client.send(op(rt, text)).expect(rt, "a line");
    assert!(rt; sent == line(rt, text), "at {text}");
}

fn gets(rt: &impl Abort, client: &mut Client, text: &str, wanted: Got) {
    let reply = Reply::read(text.as_bytes()).expect(rt, "a reply");
    assert!(rt; client.got(&reply) == wanted, "at {text}");
}
