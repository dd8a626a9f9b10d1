//! What clients say and hear.
ghost use Rattle.std.specs.Prelude.{◌≡◌, ◌<◌, length, slice_get, Some, IfSome, IfNone};
ghost use Rattle.lease_client.specs.ClientState.{ClientState};
ghost use Rattle.lease_client.specs.Calls.{may_restart};
ghost use Rattle.world_core.specs.Events.{EndsAs, IsEnabled, RefusesEvent};
ghost use Rattle.world_core.specs.Moves.{sent_again};

use crate::events::{EventFault, Outcome, WorldEvent};
use crate::parts::WorldParts;
use deed_core::Deed;
use lease_client::{Client, SendFault};
use lease_proto::{Line, Op};
use lease_terms::Protocol;

/// What the client sends again: the request with this number, or, where none is named, the first
/// line that waits.
fn sent_again(client: &Client, number: Option<u64>) -> Option<Line>
    ensures { result ≡ sent_again number client.now }
{
    match number {
        Some(number) => match client.resend_of(number) {
            Ok(line) => Some(line),
            Err(_) => None,
        },
        None => match client.resend() {
            Ok(line) => Some(line),
            Err(_) => None,
        },
    }
}

impl<D: Deed> WorldParts<D> {
    /// A client begins a greater incarnation by this protocol.
    pub(crate) fn restart(&mut self, client: usize, incarnation: u64, protocol: Protocol) -> Outcome
        ensures { EndsAs (WorldEvent.Restarts client incarnation protocol)
            result self.old self.new }
    {
        if client >= self.clients.len() {
            return Outcome::NotEnabled;
        }
        if !self.may_restart(client, incarnation) {
            return Outcome::Refused(EventFault::NotGreater);
        }
        let Ok(()) = self.requests.reserve(1) else {
            return Outcome::NoMemory;
        };
        match self.clients[client].restart(incarnation, protocol) {
            Ok(line) => {
                self.requests.push_reserved(line);
                return Outcome::Done;
            }
            Err(_) => unreachable!(),
        }
    }

    /// Whether the client may begin this incarnation, by whatever protocol.
    fn may_restart(&self, client: usize, incarnation: u64) -> bool
        requires within { client < length self.now.clients }
        ensures { (c : ClientState) × (slice_get self.now.clients client ≡ Some c)
            × (may_restart incarnation c ≡ result) }
    {
        self.clients[client].may_restart(incarnation)
    }

    /// A client sends its next request.
    pub(crate) fn send(&mut self, client: usize, op: Op) -> Outcome
        ensures { EndsAs (WorldEvent.Says client op) result self.old self.new }
    {
        if client >= self.clients.len() {
            return Outcome::NotEnabled;
        }
        if let Some(why) = self.why_not_sent(client, &op) {
            return Outcome::Refused(why);
        }
        let Ok(()) = self.requests.reserve(1) else {
            return Outcome::NoMemory;
        };
        let Ok(line) = self.clients[client].send(op) else {
            return Outcome::NoMemory;
        };
        self.requests.push_reserved(line);
        Outcome::Done
    }

    /// Why the client may not send this, if it mayn't.
    fn why_not_sent(&self, client: usize, op: &Op) -> Option<EventFault>
        requires within { client < length self.now.clients }
        ensures some { IfSome result
            (λ why. RefusesEvent (WorldEvent.Says client op.now) why self.now) }
        ensures none { IfNone result (IsEnabled (WorldEvent.Says client op.now) self.now) }
    {
        match self.clients[client].may_send(*op) {
            Ok(()) => return None,
            Err(fault) => match fault {
                SendFault::NotOpen(_) => return Some(EventFault::NotOpen),
                SendFault::Busy(_) => return Some(EventFault::Busy),
                SendFault::NotHeld(_) => return Some(EventFault::NotHeld),
                SendFault::Exhausted(_) => return Some(EventFault::Exhausted),
                SendFault::NoMemory(_) => unreachable!(),
            },
        }
    }

    /// A client sends again what is outstanding: the request with this number, or, where none is
    /// named, the first line.
    pub(crate) fn resend(&mut self, client: usize, number: Option<u64>) -> Outcome
        ensures { EndsAs (WorldEvent.Repeats client number) result self.old self.new }
    {
        if client >= self.clients.len() {
            return Outcome::NotEnabled;
        }
        match sent_again(&self.clients[client], number) {
            Some(line) => {
                let Ok(()) = self.requests.reserve(1) else {
                    return Outcome::NoMemory;
                };
                self.requests.push_reserved(line);
                return Outcome::Done;
            }
            None => return Outcome::Refused(EventFault::Nothing),
        }
    }

    /// A reply comes to a client.
    pub(crate) fn hear(&mut self, client: usize, which: usize) -> Outcome
        ensures { EndsAs (WorldEvent.Hears client which) result self.old self.new }
    {
        if client >= self.clients.len() || which >= self.replies.len() {
            return Outcome::NotEnabled;
        }
        let reply = self.replies[which];
        let _ = self.clients[client].got(&reply);
        Outcome::Done
    }
}
