//! Lists of leases, in JSON.
ghost use Rattle.std.specs.Prelude.{◌≡◌, ◌≤◌, ◌++◌, length, take, position, IsTrue, OnOk, IfOk};
ghost use Rattle.std.specs.List.{flat_map, position_or_len};
ghost use Rattle.lease_watch.specs.Rows as spec;

use crate::queries::{ListQuery, Listed};
use crate::samples::push_number;
use lease_terms::ArenaName;
use std::alloc::{AllocError, Global};

/// A lease, and to which request of which client it was granted.
#[derive(Clone, Copy, Debug, PartialEq, Eq)]
pub struct LeaseRow {
    pub arena: ArenaName,
    pub base: u64,
    pub units: u64,
    pub client: u32,
    pub incarnation: u64,
    /// The request's number.
    pub request: u64,
}

impl ListQuery {
    /// Whether it asks for this lease: one of that arena which doesn't end before the first unit, or
    /// of a client from the first on.
    fn takes(&self, row: &LeaseRow) -> bool
        ensures { result ≡ spec.takes self.now row.now }
    {
        match &self.of {
            Listed::Arena(name) => {
                row.arena.as_slice() == name.as_slice()
                    && self.from < row.base.saturating_add(row.units)
            }
            Listed::Clients => self.from <= u64::from(row.client),
        }
    }

    /// By what its list is sorted.
    fn key(&self, row: &LeaseRow) -> u64
        ensures { result ≡ spec.key self.now row.now }
    {
        match &self.of {
            Listed::Arena(_) => row.base,
            Listed::Clients => u64::from(row.client),
        }
    }

    /// Whether a lease stands before another.
    fn comes_before(&self, row: &LeaseRow, other: &LeaseRow) -> bool
        ensures { result ≡ spec.comes_before self.now row.now other.now }
    {
        self.key(row) < self.key(other)
    }

    /// Where the first stands that a lease comes before.
    fn next(&self, rows: &[LeaseRow], row: &LeaseRow) -> Option<usize>
        ensures { result ≡ position (spec.comes_before self.now row.now) rows.now }
    {
        rows.iter().position(|other| self.comes_before(row, other))
    }

    /// Where a lease comes to stand.
    fn place(&self, rows: &[LeaseRow], row: &LeaseRow) -> usize
        ensures value { result ≡ position_or_len (spec.comes_before self.now row.now) rows.now }
        ensures within { result ≤ length rows.now }
    {
        match self.next(rows, row) {
            Some(place) => place,
            None => rows.len(),
        }
    }

    /// Whether a list is full, and a lease comes behind all of it.
    fn is_beyond(&self, rows: &[LeaseRow], row: &LeaseRow) -> bool
        ensures { IsTrue result → spec.IsInOrder self.now rows.now
            → take self.now.count (spec.put_in self.now rows.now row.now) ≡ rows.now }
    {
        if rows.is_empty() || rows.len() as u64 != self.count {
            return false;
        }
        let last = &rows[rows.len() - 1];
        !self.comes_before(row, last)
    }

    /// Looks at a further lease: it comes into the list where it is among the first that are asked
    /// for. One that isn't takes a step; to put one in takes a step for each row at most.
    pub fn look_at(&self, rows: &mut Vec<LeaseRow>, row: LeaseRow) -> Result<(), AllocError>
        requires { spec.IsInOrder self.now rows.old.items }
        ensures order { spec.IsInOrder self.now rows.new.items }
        ensures looked { OnOk result
            (rows.new.items ≡ spec.after_look self.now rows.old.items row) }
    {
        if !self.takes(&row) || self.is_beyond(rows.as_slice(), &row) {
            return Ok(());
        }
        let place = self.place(rows.as_slice(), &row);
        rows.insert(place, row)?;
        rows.truncate(self.count as usize);
        Ok(())
    }
}

/// The leases, in JSON: an array with a line for each.
pub fn list_text(alloc: Global, rows: &[LeaseRow]) -> Result<Vec<u8>, AllocError>
    ensures { IfOk result (λ text. text.items ≡ spec.list_text rows.now) }
{
    let mut out = Vec::new(alloc);
    out.extend_from_slice(b"[")?;
    push_rows(&mut out, rows)?;
    out.extend_from_slice(b"\n]\n")?;
    Ok(out)
}

/// The rows of a list, with a comma between two.
#[tactic(auto, unfolding(crate::specs::Rows::rows_text))]
fn push_rows(out: &mut Vec<u8>, rows: &[LeaseRow]) -> Result<(), AllocError>
    ensures { OnOk result (out.new.items ≡ out.old.items ++ spec.rows_text rows.now) }
{
    let Some((first, more)) = rows.split_first() else {
        return Ok(());
    };
    push_row(out, first)?;
    push_more(out, more)
}

/// Those after the first.
fn push_more(out: &mut Vec<u8>, rows: &[LeaseRow]) -> Result<(), AllocError>
    ensures { OnOk result (out.new.items ≡ out.old.items ++ flat_map spec.next_text rows.now) }
{
    for row in rows {
        push_next(out, row)?;
    }
    Ok(())
}

/// One of these, behind its comma.
fn push_next(out: &mut Vec<u8>, row: &LeaseRow) -> Result<(), AllocError>
    ensures { OnOk result (out.new.items ≡ out.old.items ++ spec.next_text row.now) }
{
    out.extend_from_slice(b",")?;
    push_row(out, row)
}

/// A row, as an object of JSON.
#[tactic(auto, unfolding(crate::specs::Rows::row_text))]
fn push_row(out: &mut Vec<u8>, row: &LeaseRow) -> Result<(), AllocError>
    ensures { OnOk result (out.new.items ≡ out.old.items ++ spec.row_text row.now) }
{
    push_units(out, row)?;
    push_member(out, b"client", u64::from(row.client))?;
    push_member(out, b"incarnation", row.incarnation)?;
    push_member(out, b"request", row.request)?;
    out.extend_from_slice(b"}")
}

/// The begin of an object: the units of a lease.
#[tactic(auto, unfolding(crate::specs::Rows::units_text))]
fn push_units(out: &mut Vec<u8>, row: &LeaseRow) -> Result<(), AllocError>
    ensures { OnOk result (out.new.items ≡ out.old.items ++ spec.units_text row.now) }
{
    out.extend_from_slice(b"\n{\"arena\":\"")?;
    out.extend_from_slice(row.arena.as_slice())?;
    out.extend_from_slice(b"\"")?;
    push_member(out, b"base", row.base)?;
    push_member(out, b"units", row.units)
}

/// A further member of an object: its name, and a number.
#[tactic(auto, unfolding(crate::specs::Rows::member))]
fn push_member(out: &mut Vec<u8>, name: &[u8], number: u64) -> Result<(), AllocError>
    ensures { OnOk result (out.new.items ≡ out.old.items ++ spec.member name.now number) }
{
    out.extend_from_slice(b",\"")?;
    out.extend_from_slice(name)?;
    out.extend_from_slice(b"\":")?;
    push_number(out, u128::from(number))
}
