//! The clients that a book tells of, in order of first hello, and as many as there may be.

use super::{Row, Told, close, end, lease_once, make_book, run, take_row, take_rows};

/// Each client is listed once, where it first said hello.
#[test]
fn lists(rt: HostRuntime) {
    let rows = [
        Row::Clients(0),
        Row::Hello(5, 1, None),
        Row::Hello(2, 1, None),
        Row::Hello(5, 2, None),
        Row::Hello(5, 1, Some(2)),
        Row::Hello(9, 1, None),
        Row::Clients(3),
        Row::ClientAt(0, Some(5)),
        Row::ClientAt(1, Some(2)),
        Row::ClientAt(2, Some(9)),
        Row::ClientAt(3, None),
    ];
    run(&rt, &rows);
}

/// All clients that there may be, the last among them, each with a lease. Ending them looks at each
/// client once.
#[test]
fn all_clients(rt: HostRuntime) {
    let mut book = make_book(&rt, rt.alloc());
    for client in 1..=65536u32 {
        take_row(&rt, &mut book, Row::Hello(client, 1, None));
        let base = u64::from(client);
        let told = lease_once(&rt, &mut book, (client, 1, 1), (base, 1));
        assert_eq!(rt; told, Told::Granted(base, 1));
    }
    let rows = [
        Row::Clients(65536),
        Row::Hello(65536, 1, None),
        Row::Clients(65536),
    ];
    take_rows(&rt, &mut book, &rows);
    for _ in 0..65536 {
        match book.take_lease() {
            Some((_, segment)) => {
                let _ = close(segment);
            }
            None => panic!(rt; "each client has a lease"),
        }
    }
    end(&rt, book);
}
