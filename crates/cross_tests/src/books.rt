//! What a book answers to rows of requests, and where it is out of memory. Those of the second
//! protocol are in `windows`, what a book tells of its clients and their leases
//! in `clients` and `leases`.

mod clients;
mod leases;
mod windows;

use deed_core::{PlainDeed, Range, Request, Route, Segment};
use lease_book::{Answer, Book, ClientReport, HelloFault, KeptReply, Look, NotLeased, Terms};
use lease_terms::{ClientId, Ordinal, Protocol, Quantity, Refusal, RequestId};
use std::alloc::{AllocGlobal, Global};
use std::process::Abort;

const ARENA: u32 = 7;

/// A client, its incarnation and a request number.
type Id = (u32, u64, u64);

/// A base and a length.
type Bounds = (u64, u64);

/// What a request was answered, receipts by their replies.
#[derive(Clone, Copy, PartialEq, Eq, Debug)]
enum Told {
    New,
    Granted(u64, u64),
    Released,
    Refused(Refusal),
    KeptGrant(u64, u64),
    KeptRelease,
    KeptRefusal(Refusal),
    Old(u64),
    Stale(u64),
    Gap(u64),
    Again,
}

/// A call of a book with what it must give.
#[derive(Clone, Copy)]
enum Row {
    /// A client's hello, and its incarnation where that is greater and the hello is refused.
    Hello(u32, u64, Option<u64>),
    /// A client's hello that asks for a protocol, and the one that stands.
    Welcome(u32, u64, Protocol, Protocol),
    Look(Id, Told),
    /// A lease of units that a segment stands for.
    Lease(Id, Bounds, Told),
    /// A release of the lease at this base.
    Release(Id, u64, Told),
    Refuse(Id, Refusal, Told),
    /// A client, and the lease of an older incarnation that goes, with the request that it was
    /// granted to.
    Sweep(u32, Option<(Id, Bounds)>),
    /// The units leased of an arena.
    Units(u32, u128),
    Clients(usize),
    /// The client at an index of the list.
    ClientAt(usize, Option<u32>),
}

fn client_of(rt: &impl Abort, client: u32) -> ClientId {
    ClientId::new(client).expect(rt, "a client")
}

fn ordinal_of(rt: &impl Abort, number: u64) -> Ordinal {
    Ordinal::new(number).expect(rt, "an ordinal")
}

fn units_of(rt: &impl Abort, units: u64) -> Quantity {
    Quantity::new(units).expect(rt, "a quantity")
}

fn request_of(rt: &impl Abort, id: Id) -> RequestId {
    RequestId {
        client: client_of(rt, id.0),
        incarnation: ordinal_of(rt, id.1),
        number: ordinal_of(rt, id.2),
    }
}

fn id_of(request: RequestId) -> Id {
    (
        request.client.get(),
        request.incarnation.get(),
        request.number.get(),
    )
}

fn kept(rt: &impl Abort, reply: KeptReply) -> Told {
    match reply {
        KeptReply::Granted { arena, base, len } => {
            assert_eq!(rt; arena, ARENA);
            Told::KeptGrant(base.get(), len.get())
        }
        KeptReply::Released { arena, .. } => {
            assert_eq!(rt; arena, ARENA);
            Told::KeptRelease
        }
        KeptReply::Refused(refusal) => Told::KeptRefusal(refusal),
    }
}

fn answered(rt: &impl Abort, answer: Answer<PlainDeed>) -> Told {
    match answer {
        Answer::Kept(receipt) => kept(rt, receipt.reply()),
        Answer::Old(current) => Told::Old(current.number().get()),
        Answer::Stale(last) => Told::Stale(last.number().get()),
        Answer::Gap(last) => Told::Gap(last.number().get()),
        Answer::Refused(receipt) => match receipt.reply() {
            KeptReply::Refused(refusal) => Told::Refused(refusal),
            reply => kept(rt, reply),
        },
        Answer::Again => Told::Again,
    }
}

fn look(rt: &impl Abort, book: &Book<PlainDeed>, id: Id) -> Told {
    let id = request_of(rt, id);
    let told = match book.look(id) {
        Look::New => Told::New,
        Look::Kept(receipt) => kept(rt, receipt.reply()),
        Look::Old(current) => Told::Old(current.number().get()),
        Look::Stale(last) => Told::Stale(last.number().get()),
        Look::Gap(last) => Told::Gap(last.number().get()),
    };
    assert_eq!(rt; book.is_new(id), told == Told::New);
    told
}

fn close(segment: Segment<PlainDeed>) -> Bounds {
    let range = segment.into_deed().close();
    (range.base(), range.len())
}

/// Says hello, and gives the protocol that stands, or the client's incarnation where that is
/// greater. Out of memory leaves all as it was, and the same hello then succeeds.
fn hello(
    rt: &impl Abort,
    book: &mut Book<PlainDeed>,
    client: u32,
    incarnation: u64,
    protocol: Protocol,
) -> Result<Protocol, u64> {
    let before = (book.clients(), look(rt, book, (client, 1, 1)));
    match &book.hello(client_of(rt, client), ordinal_of(rt, incarnation), protocol) {
        Ok(taken) => Ok(taken.protocol()),
        Err(HelloFault::Old(current)) => Err(current.number().get()),
        Err(HelloFault::NoMemory) => {
            assert_eq!(rt; (book.clients(), look(rt, book, (client, 1, 1))), before);
            assert_eq!(rt; book.client_at(before.0), None);
            let again = book.hello(client_of(rt, client), ordinal_of(rt, incarnation), protocol);
            assert_eq!(rt; again.ok().map(|taken| taken.protocol()), Some(protocol));
            Ok(protocol)
        }
    }
}

/// The answer to a lease. Out of memory leaves all as it was, and the same lease then succeeds.
fn lease(rt: &impl Abort, book: &mut Book<PlainDeed>, id: Id, bounds: Bounds) -> Told {
    let units = book.units(ARENA);
    match lease_once(rt, book, id, bounds) {
        Told::Again => {
            assert_eq!(rt; (look(rt, book, id), book.units(ARENA)), (Told::New, units));
            lease_once(rt, book, id, bounds)
        }
        told => told,
    }
}

fn lease_once(rt: &impl Abort, book: &mut Book<PlainDeed>, id: Id, bounds: Bounds) -> Told {
    let range = Range::new(bounds.0, bounds.1).expect(rt, "a range");
    let request = Request::plain(bounds.1);
    assert!(rt; request.fits(1, &range));
    let segment = Segment::new(ARENA, Route::Direct, PlainDeed::new(5, range));
    let id = request_of(rt, id);
    let receipt = match book.settle(id, ARENA, 1, &request, segment) {
        Ok(receipt) => receipt,
        Err(NotLeased { segment, answer }) => {
            assert_eq!(rt; close(segment), bounds);
            return answered(rt, answer);
        }
    };
    let terms = Terms {
        quantum: 1,
        request,
    };
    assert_eq!(rt; receipt.terms(), Some(terms));
    assert_eq!(rt; (receipt.id(), receipt.book()), (id, book.mark()));
    match kept(rt, receipt.reply()) {
        Told::KeptGrant(base, len) => Told::Granted(base, len),
        other => other,
    }
}

fn release(rt: &impl Abort, book: &mut Book<PlainDeed>, id: Id, base: u64) -> Told {
    let (arena, at) = (ARENA, units_of(rt, base));
    match book.release(request_of(rt, id), arena, at) {
        Ok((receipt, segment)) => {
            assert_eq!(rt; receipt.reply(), KeptReply::Released { arena, base: at });
            assert_eq!(rt; close(segment).0, base);
            Told::Released
        }
        Err(answer) => answered(rt, answer),
    }
}

/// The request that was granted the lease, and its range.
fn sweep(rt: &impl Abort, book: &mut Book<PlainDeed>, client: u32) -> Option<(Id, Bounds)> {
    let (request, segment) = book.sweep(client_of(rt, client))?;
    Some((id_of(request), close(segment)))
}

/// What a request of the row is told, and what it must be told.
fn answer_to(rt: &impl Abort, book: &mut Book<PlainDeed>, row: Row) -> Option<(Told, Told)> {
    match row {
        Row::Look(id, wanted) => Some((look(rt, book, id), wanted)),
        Row::Lease(id, bounds, wanted) => Some((lease(rt, book, id, bounds), wanted)),
        Row::Release(id, base, wanted) => Some((release(rt, book, id, base), wanted)),
        Row::Refuse(id, refusal, wanted) => {
            let answer = book.refuse(request_of(rt, id), refusal);
            Some((answered(rt, answer), wanted))
        }
        _ => None,
    }
}

fn take_row(rt: &impl Abort, book: &mut Book<PlainDeed>, row: Row) {
    match row {
        Row::Hello(client, incarnation, wanted) => {
            let told = hello(rt, book, client, incarnation, Protocol::One);
            assert_eq!(rt; told, wanted.map_or(Ok(Protocol::One), Err));
        }
        Row::Welcome(client, incarnation, asked, stands) => {
            let told = hello(rt, book, client, incarnation, asked);
            assert_eq!(rt; told, Ok(stands));
        }
        Row::Sweep(client, wanted) => assert_eq!(rt; sweep(rt, book, client), wanted),
        Row::Units(arena, wanted) => assert_eq!(rt; book.units(arena), wanted),
        Row::Clients(wanted) => assert_eq!(rt; book.clients(), wanted),
        Row::ClientAt(at, wanted) => {
            let client = book.client_at(at).map(|report| report.client.get());
            assert_eq!(rt; client, wanted);
        }
        _ => match answer_to(rt, book, row) {
            Some((told, wanted)) => assert_eq!(rt; told, wanted),
            None => panic!(rt; "a row of a request"),
        },
    }
}

fn take_rows(rt: &impl Abort, book: &mut Book<PlainDeed>, rows: &[Row]) {
    for &row in rows {
        take_row(rt, book, row);
    }
}

/// Takes the rows in a new book, and ends it with the leases that stand.
fn run(rt: &(impl Abort + AllocGlobal), rows: &[Row]) {
    let mut book = make_book(rt, rt.alloc());
    take_rows(rt, &mut book, rows);
    end(rt, book);
}

fn end(rt: &impl Abort, mut book: Book<PlainDeed>) {
    for _ in 0..2000 {
        match book.take_lease() {
            Some((_, segment)) => {
                close(segment);
            }
            None => break,
        }
    }
    match book.close() {
        Ok(mark) => {
            mark.close();
        }
        Err(_) => panic!(rt; "a lease stands"),
    }
}

fn make_book(rt: &impl Abort, alloc: Global) -> Book<PlainDeed> {
    let unit = Range::new(0, 1).expect(rt, "a range");
    Book::new(alloc, PlainDeed::new(9, unit))
}

/// A repeated request gets the same reply.
#[test]
fn repeats(rt: HostRuntime) {
    let rows = [
        Row::Hello(1, 1, None),
        Row::Look((1, 1, 1), Told::New),
        Row::Lease((1, 1, 1), (0, 8), Told::Granted(0, 8)),
        Row::Look((1, 1, 1), Told::KeptGrant(0, 8)),
        Row::Lease((1, 1, 1), (8, 8), Told::KeptGrant(0, 8)),
        Row::Units(ARENA, 8),
        Row::Units(ARENA + 1, 0),
    ];
    run(&rt, &rows);
}

/// A greater incarnation makes the requests of the older one old, and its leases can be swept.
#[test]
fn restarts(rt: HostRuntime) {
    let rows = [
        Row::Hello(1, 1, None),
        Row::Lease((1, 1, 1), (1, 4), Told::Granted(1, 4)),
        Row::Sweep(1, None),
        Row::Hello(1, 2, None),
        Row::Hello(1, 1, Some(2)),
        Row::Sweep(1, Some(((1, 1, 1), (1, 4)))),
        Row::Sweep(1, None),
        Row::Hello(2, 1, None),
        Row::Lease((2, 1, 1), (1, 4), Told::Granted(1, 4)),
        Row::Lease((1, 1, 1), (1, 4), Told::Old(2)),
        Row::Look((1, 1, 1), Told::Old(2)),
        Row::Look((3, 1, 1), Told::Old(0)),
        Row::Look((1, 2, 1), Told::New),
    ];
    run(&rt, &rows);
}

/// Only the client that has a lease can release it.
#[test]
fn releases(rt: HostRuntime) {
    let rows = [
        Row::Hello(1, 1, None),
        Row::Lease((1, 1, 1), (1, 2), Told::Granted(1, 2)),
        Row::Hello(2, 1, None),
        Row::Release((2, 1, 1), 1, Told::Refused(Refusal::NotYours)),
        Row::Release((2, 1, 1), 1, Told::KeptRefusal(Refusal::NotYours)),
        Row::Units(ARENA, 2),
        Row::Release((1, 1, 2), 1, Told::Released),
        Row::Release((1, 1, 2), 1, Told::KeptRelease),
        Row::Release((1, 1, 1), 1, Told::Stale(2)),
        Row::Release((1, 1, 4), 1, Told::Gap(2)),
        Row::Release((1, 2, 3), 1, Told::Old(1)),
        Row::Units(ARENA, 0),
    ];
    run(&rt, &rows);
}

/// Numbers come one after the other.
#[test]
fn numbers(rt: HostRuntime) {
    let rows = [
        Row::Hello(1, 1, None),
        Row::Lease((1, 1, 3), (0, 4), Told::Gap(0)),
        Row::Lease((1, 1, 1), (0, 4), Told::Granted(0, 4)),
        Row::Lease((1, 1, 2), (4, 4), Told::Granted(4, 4)),
        Row::Lease((1, 1, 1), (8, 4), Told::Stale(2)),
        Row::Look((1, 1, 1), Told::Stale(2)),
        Row::Look((1, 1, 4), Told::Gap(2)),
    ];
    run(&rt, &rows);
}

/// A refusal is kept like a grant.
#[test]
fn refusals(rt: HostRuntime) {
    let no_fit = Refusal::NoFit;
    let rows = [
        Row::Hello(1, 3, None),
        Row::Refuse((1, 3, 1), no_fit, Told::Refused(no_fit)),
        Row::Refuse((1, 3, 1), Refusal::NoArena, Told::KeptRefusal(no_fit)),
        Row::Refuse(
            (1, 3, 2),
            Refusal::BadRequest,
            Told::Refused(Refusal::BadRequest),
        ),
        Row::Refuse((1, 3, 1), no_fit, Told::Stale(2)),
        Row::Refuse((1, 3, 5), no_fit, Told::Gap(2)),
        Row::Refuse((1, 2, 3), no_fit, Told::Old(3)),
    ];
    run(&rt, &rows);
}

/// Leases units one by one, by requests 1, 2 and so on of a client's first incarnation.
fn lease_units(rt: &impl Abort, book: &mut Book<PlainDeed>, client: u32, count: u64) {
    for i in 0..count {
        let told = lease(rt, book, (client, 1, i.saturating_add(1)), (i, 1));
        assert_eq!(rt; told, Told::Granted(i, 1));
    }
}

/// A client has 1,024 leases at most.
#[test]
fn limit(rt: HostRuntime) {
    let mut book = make_book(&rt, rt.alloc());
    take_row(&rt, &mut book, Row::Hello(1, 1, None));
    lease_units(&rt, &mut book, 1, 1024);
    let rows = [
        Row::Lease((1, 1, 1025), (1024, 1), Told::Refused(Refusal::Leases)),
        Row::Lease((1, 1, 1025), (1024, 1), Told::KeptRefusal(Refusal::Leases)),
        Row::Units(ARENA, 1024),
        Row::ClientAt(1, None),
    ];
    take_rows(&rt, &mut book, &rows);
    let report = ClientReport {
        client: client_of(&rt, 1),
        incarnation: ordinal_of(&rt, 1),
        last: units_of(&rt, 1025),
        leases: 1024,
    };
    assert_eq!(rt; book.client_at(0), Some(report));
    end(&rt, book);
}

/// A client with more than a few leases: one of them is released and leased again, and those of an
/// older incarnation end in order of grant.
#[test]
fn many_leases(rt: HostRuntime) {
    let mut book = make_book(&rt, rt.alloc());
    take_row(&rt, &mut book, Row::Hello(1, 1, None));
    lease_units(&rt, &mut book, 1, 100);
    let rows = [
        Row::Release((1, 1, 101), 70, Told::Released),
        Row::Release((1, 1, 102), 70, Told::Refused(Refusal::NotYours)),
        Row::Lease((1, 1, 103), (70, 1), Told::Granted(70, 1)),
        Row::Release((1, 1, 104), 2, Told::Released),
        Row::Units(ARENA, 99),
        Row::Hello(1, 2, None),
        Row::Release((1, 2, 1), 70, Told::Refused(Refusal::NotYours)),
    ];
    take_rows(&rt, &mut book, &rows);
    assert_eq!(rt; sweep(&rt, &mut book, 1), Some(((1, 1, 1), (0, 1))));
    assert_eq!(rt; sweep(&rt, &mut book, 1), Some(((1, 1, 2), (1, 1))));
    assert_eq!(rt; sweep(&rt, &mut book, 1), Some(((1, 1, 4), (3, 1))));
    end(&rt, book);
}

/// A book with a lease isn't closed.
#[test]
fn closes(rt: HostRuntime) {
    let mut book = make_book(&rt, rt.alloc());
    let rows = [
        Row::Hello(4, 1, None),
        Row::Hello(4, 1, None),
        Row::Lease((4, 1, 1), (3, 1), Told::Granted(3, 1)),
    ];
    take_rows(&rt, &mut book, &rows);
    assert_eq!(rt; book.mark(), 9);
    match book.close() {
        Ok(_) => panic!(rt; "a lease stands"),
        Err(book) => end(&rt, book),
    }
}

/// The lists of clients and of leases grow. Where an allocation is refused, as by
/// `rt try --test --fail-alloc N`, nothing changes.
#[test]
fn grows(rt: HostRuntime) {
    let mut book = make_book(&rt, rt.alloc());
    for client in 1..=40u32 {
        take_row(&rt, &mut book, Row::Hello(client, 1, None));
    }
    lease_units(&rt, &mut book, 40, 20);
    take_rows(&rt, &mut book, &[Row::Clients(40), Row::Units(ARENA, 20)]);
    end(&rt, book);
}
