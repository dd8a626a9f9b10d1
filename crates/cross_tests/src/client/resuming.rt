//! A client that goes on in an incarnation of an earlier one, at the last number of all.
use super::{accepts, holds, op, says};
use lease_client::{Client, SendFault};
use lease_terms::{ClientId, Ordinal, Protocol};
use std::process::Abort;
use std::test::Fail;

/// What the line asks for isn't sent: no number is left.
fn is_exhausted(rt: &impl Abort, client: &mut Client, line: &str) -> Result<(), Fail> {
    let may = client.may_send(op(line)?);
    assert_eq!(rt; may, Err(SendFault::Exhausted(op(line)?)), "at {line}");
    let told = client.send(op(line)?);
    assert_eq!(rt; told, Err(SendFault::Exhausted(op(line)?)), "at {line}");
    Ok(())
}

/// What the line asks for isn't sent: the client doesn't hold it.
fn is_not_held(rt: &impl Abort, client: &mut Client, line: &str) -> Result<(), Fail> {
    let told = client.send(op(line)?);
    assert_eq!(rt; told, Err(SendFault::NotHeld(op(line)?)), "at {line}");
    Ok(())
}

/// No request follows the one with the last number. What isn't held is refused before that.
#[test]
fn numbers_are_exhausted(rt: HostRuntime) -> Result<(), Fail> {
    let id = ClientId::new(1).ok_or("no client")?;
    let incarnation = Ordinal::new(3).ok_or("no incarnation")?;
    let last = Ordinal::new(1 << 62).ok_or("no number")?;
    let mut client = Client::resumed(rt.alloc(), id, incarnation, Protocol::One, last);
    says(&rt, &mut client, "lease 1 3 4611686018427387904 m 4")?;
    accepts(&rt, &mut client, "granted 1 3 4611686018427387904 m 0 4")?;
    is_exhausted(&rt, &mut client, "lease 1 3 1 m 4")?;
    is_not_held(&rt, &mut client, "release 1 3 1 m 4")?;
    is_exhausted(&rt, &mut client, "release 1 3 1 m 0")?;
    holds(&rt, &client, &[("m", 0, 4)]);
    Ok(())
}
