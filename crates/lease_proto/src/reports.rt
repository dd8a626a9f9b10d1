//! What an operator's lines are answered.
ghost use Rattle.std.specs.Prelude.{◌≡◌, ◌≤◌, ◌++◌, OnOk, OnErr, length};
ghost use Rattle.std.specs.Io.{StartsWith};
ghost use Rattle.lease_proto.specs.Reports.{audit_text, sums_text, kept_text, given_text};
ghost use Rattle.lease_proto.specs.Reports.{client_text, reaped_text, ok_text, outcome_text};
ghost use Rattle.lease_proto.specs.declared.limits.TheConstants.{LINE_ROOM};

use crate::faults::ErrorWord;
use lease_terms::{ArenaName, ClientId, Ordinal, Quantity};
use std::alloc::AllocError;

/// `arena NAME free F slab S magazine M exported X leased L hand H`: where the units of an arena
/// are.
#[derive(Clone, Copy, Debug, PartialEq, Eq)]
pub struct AuditLine {
    pub name: ArenaName,
    /// In no segment.
    pub free: u128,
    /// In slabs, but in none of their chunks that are out.
    pub slab: u128,
    /// In magazines.
    pub magazine: u128,
    /// In spans that other arenas import.
    pub exported: u128,
    pub leased: u128,
    /// On the way, in a hand.
    pub hand: u128,
}

impl AuditLine {
    /// Appends the line and a line feed. It fails only when out of memory, and may then have
    /// appended a part of it.
    pub fn write(&self, out: &mut Vec<u8>) -> Result<(), AllocError>
        ensures ok { OnOk result (out.new.items ≡ out.old.items ++ audit_text self.now) }
        ensures front { OnErr result (StartsWith out.new.items out.old.items) }
    {
        out.extend_from_slice(b"arena ")?;
        out.extend_from_slice(self.name.as_slice())?;
        self.write_sums(out)
    }

    /// Appends what stands after the arena's name. Out of memory, a part of it may be appended.
    fn write_sums(&self, out: &mut Vec<u8>) -> Result<(), AllocError>
        ensures ok { OnOk result (out.new.items ≡ out.old.items ++ sums_text self.now) }
        ensures front { OnErr result (StartsWith out.new.items out.old.items) }
    {
        self.write_kept(out)?;
        self.write_given(out)
    }

    /// How many units are in the arena's own hands.
    fn write_kept(&self, out: &mut Vec<u8>) -> Result<(), AllocError>
        ensures ok { OnOk result (out.new.items ≡ out.old.items ++ kept_text self.now) }
        ensures unchanged { OnErr result (out.new.items ≡ out.old.items) }
    {
        let alloc = *out.allocator();
        let free = self.free;
        let slab = self.slab;
        let magazine = self.magazine;
        let text = format!(in alloc; " free {free} slab {slab} magazine {magazine}")?;
        out.extend_from_slice(text.as_bytes())
    }

    /// How many are with others.
    fn write_given(&self, out: &mut Vec<u8>) -> Result<(), AllocError>
        ensures ok { OnOk result (out.new.items ≡ out.old.items ++ given_text self.now) }
        ensures unchanged { OnErr result (out.new.items ≡ out.old.items) }
    {
        let alloc = *out.allocator();
        let exported = self.exported;
        let leased = self.leased;
        let hand = self.hand;
        let text = format!(in alloc; " exported {exported} leased {leased} hand {hand}\n")?;
        out.extend_from_slice(text.as_bytes())
    }
}

/// `client C I N L`: a client, its incarnation, its greatest settled number and how many leases it
/// has.
#[derive(Clone, Copy, Debug, PartialEq, Eq)]
pub struct ClientLine {
    pub client: ClientId,
    pub incarnation: Ordinal,
    /// The greatest settled number, 0 before the first.
    pub last: Quantity,
    pub leases: usize,
}

impl ClientLine {
    /// Appends the line and a line feed. It fails only when out of memory.
    pub fn write(&self, out: &mut Vec<u8>) -> Result<(), AllocError>
        ensures ok { OnOk result (out.new.items ≡ out.old.items ++ client_text self.now) }
        ensures unchanged { OnErr result (out.new.items ≡ out.old.items) }
    {
        let alloc = *out.allocator();
        let client = self.client.get();
        let incarnation = self.incarnation.get();
        let last = self.last.get();
        let leases = self.leases;
        let line = format!(in alloc; "client {client} {incarnation} {last} {leases}\n")?;
        out.extend_from_slice(line.as_bytes())
    }
}

/// `reaped U`: how many units the slabs had that went back to their arenas.
#[derive(Clone, Copy, Debug, PartialEq, Eq)]
pub struct ReapedLine {
    pub units: u128,
}

impl ReapedLine {
    /// Appends the line and a line feed. It fails only when out of memory.
    pub fn write(&self, out: &mut Vec<u8>) -> Result<(), AllocError>
        ensures ok { OnOk result (out.new.items ≡ out.old.items ++ reaped_text self.now) }
        ensures unchanged { OnErr result (out.new.items ≡ out.old.items) }
    {
        let alloc = *out.allocator();
        let units = self.units;
        let line = format!(in alloc; "reaped {units}\n")?;
        out.extend_from_slice(line.as_bytes())
    }
}

/// The line that says that an operator's line was done, with its line feed.
pub fn ok_line() -> &'static [u8]
    ensures { result.now ≡ ok_text }
{
    b"ok\n"
}

/// The line that says what came of an operator's line, with its line feed.
pub fn outcome_line(outcome: Result<(), ErrorWord>) -> &'static [u8]
    ensures text { result.now ≡ outcome_text outcome }
    ensures short { length result.now ≤ LINE_ROOM }
{
    match outcome {
        Ok(()) => ok_line(),
        Err(word) => word.line(),
    }
}
