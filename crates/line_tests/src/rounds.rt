//! What is tidied: by a keeper's rounds over two CPUs that connections share, and by a worker.
ghost use Rattle.std.specs.Prelude.{◌≡◌};

use crate::asking::{add, root};
use arena_tree::Setup;
use deed_table::{Ground, Name};
use lease_proto::{Line, Reply};
use lease_tcp::{
    Counts, Seat, SharedCpus, SharedWorker, SystemWorker, Worker, go_round, new_seats,
};
use lease_threads::{Cpu, System};
use std::alloc::AllocGlobal;
use std::marker::Brand;
use std::process::Abort;
use std::sync::{Mutex, Wait};
use std::test::Fail;
use tag_arena::Policy;

/// A CPU, by its place, a line that it is given, and the reply.
type Asked = (usize, &'static str, &'static str);

/// A chunk comes back to the first CPU, and lies in its magazines.
const RELEASED: [Asked; 5] = [
    (0, "hello 1 1", "welcome 1 1"),
    (0, "lease 1 1 1 d 1", "granted 1 1 1 d 0 1"),
    (0, "release 1 1 2 d 0", "released 1 1 2"),
    (1, "hello 2 1", "welcome 2 1"),
    (1, "lease 2 1 1 d 64", "refused 2 1 1 nofit"),
];

/// It still lies there after a round, since that CPU had released it; that its release comes again
/// is no work of the CPU.
const STILL: [Asked; 2] = [
    (1, "lease 2 1 2 d 64", "refused 2 1 2 nofit"),
    (0, "release 1 1 2 d 0", "released 1 1 2"),
];

/// After another round it is free.
const FREE: [Asked; 2] = [
    (1, "lease 2 1 3 d 64", "granted 2 1 3 d 0 64"),
    (1, "release 2 1 4 d 0", "released 2 1 4"),
];

#[test]
fn a_round_drains_a_cpu_at_rest(rt: HostRuntime) -> Result<(), Fail> {
    let mut setup = Setup::new(rt.alloc());
    add(
        &rt,
        &mut setup,
        root(&rt, "d", 0, 64, 1, Policy::Instant, 5),
    );
    goes_round::<Brand, _>(&rt, Ground::new(rt.alloc())?, setup);
    Ok(())
}

fn goes_round<N: Name, R: Abort + Wait + AllocGlobal>(rt: &R, ground: Ground, setup: Setup)
    requires { ground ≡ N.table }
{
    let system: System<N> = match System::new(rt.alloc(), ground, setup) {
        Ok(system) => system,
        Err(_) => panic!(rt; "memory"),
    };
    let mut seats: Vec<Mutex<Seat<N>>> = Vec::new(rt.alloc());
    new_seats(rt.alloc(), &system, 2, &mut seats).expect(rt, "room");
    let cpus = SharedCpus::new(&system, seats.as_slice());
    takes_another(rt, &cpus, seats.as_slice());
    ask_each(rt, &system, seats.as_slice(), &RELEASED);
    go_round(rt, &cpus);
    ask_each(rt, &system, seats.as_slice(), &STILL);
    go_round(rt, &cpus);
    ask_each(rt, &system, seats.as_slice(), &FREE);
    retire_each(rt, &system, seats);
    if let Err(fault) = system.shut(rt) {
        held(rt, fault);
    }
}

/// A line takes another seat where its own is taken, and waits for none.
fn takes_another<N: Name, R: Abort + Wait + AllocGlobal>(
    rt: &R,
    cpus: &SharedCpus<'_, N>,
    seats: &[Mutex<Seat<N>>],
) {
    let counts = Counts::new(rt.alloc()).expect(rt, "room");
    let Some(own) = seats.first() else {
        panic!(rt; "no seat");
    };
    let taken = own.lock(rt);
    let mut worker = SharedWorker::new(rt, cpus, 0, counts.at(0));
    reply_each(rt, &mut worker, &[("hello 9 1", "welcome 9 1")]);
    drop(taken);
    assert_eq!(rt; counts.sums().waits, 0);
}

fn ask_each<N: Name, R: Abort + Wait + AllocGlobal>(
    rt: &R,
    system: &System<N>,
    seats: &[Mutex<Seat<N>>],
    rows: &[Asked],
) {
    for (place, text, wanted) in rows {
        let Some(seat) = seats.get(*place) else {
            panic!(rt; "no such seat");
        };
        let line = Line::read(text.as_bytes()).expect(rt, "a line");
        let told = seat.lock(rt).answer(rt, system, &line);
        same(rt, &told.reply, wanted);
    }
}

fn same(rt: &(impl Abort + AllocGlobal), reply: &Reply, text: &str) {
    let mut out = Vec::new(rt.alloc());
    reply.write(&mut out).expect(rt, "room");
    out.pop();
    assert_eq!(rt; out.as_slice(), text.as_bytes());
}

fn retire_each<N: Name, R: Abort + Wait>(
    rt: &R,
    system: &System<N>,
    mut seats: Vec<Mutex<Seat<N>>>,
) {
    while let Some(seat) = seats.pop() {
        if let Err(cpu) = system.retire(rt, seat.into_inner().into_cpu()) {
            held(rt, cpu);
        }
    }
    seats.destroy_empty();
}

/// Ends the test, with what couldn't be put back.
fn held<X, R: Abort>(rt: &R, rest: X) -> ! {
    let _rest = rest;
    panic!(rt; "refused")
}

/// Eight chunks come back: three lie in the depot then, the others in the CPU's magazines.
const GIVEN_BACK: [(&str, &str); 17] = [
    ("hello 1 1", "welcome 1 1"),
    ("lease 1 1 1 d 1", "granted 1 1 1 d 0 1"),
    ("lease 1 1 2 d 1", "granted 1 1 2 d 1 1"),
    ("lease 1 1 3 d 1", "granted 1 1 3 d 2 1"),
    ("lease 1 1 4 d 1", "granted 1 1 4 d 3 1"),
    ("lease 1 1 5 d 1", "granted 1 1 5 d 4 1"),
    ("lease 1 1 6 d 1", "granted 1 1 6 d 5 1"),
    ("lease 1 1 7 d 1", "granted 1 1 7 d 6 1"),
    ("lease 1 1 8 d 1", "granted 1 1 8 d 7 1"),
    ("release 1 1 9 d 0", "released 1 1 9"),
    ("release 1 1 10 d 1", "released 1 1 10"),
    ("release 1 1 11 d 2", "released 1 1 11"),
    ("release 1 1 12 d 3", "released 1 1 12"),
    ("release 1 1 13 d 4", "released 1 1 13"),
    ("release 1 1 14 d 5", "released 1 1 14"),
    ("release 1 1 15 d 6", "released 1 1 15"),
    ("release 1 1 16 d 7", "released 1 1 16"),
];

/// What the depot has it may need still, after one tidying.
const NEEDED: [(&str, &str); 1] = [("lease 1 1 17 d 64", "refused 1 1 17 nofit")];

/// It didn't need it from the tick on, so after another all is free.
const UNNEEDED: [(&str, &str); 2] = [
    ("lease 1 1 18 d 64", "granted 1 1 18 d 0 64"),
    ("release 1 1 19 d 0", "released 1 1 19"),
];

#[test]
fn a_worker_drains_and_reaps_and_ticks(rt: HostRuntime) -> Result<(), Fail> {
    let mut setup = Setup::new(rt.alloc());
    add(
        &rt,
        &mut setup,
        root(&rt, "d", 0, 64, 1, Policy::Instant, 5),
    );
    tidies::<Brand, _>(&rt, Ground::new(rt.alloc())?, setup);
    Ok(())
}

fn tidies<N: Name, R: Abort + Wait + AllocGlobal>(rt: &R, ground: Ground, setup: Setup)
    requires { ground ≡ N.table }
{
    let system: System<N> = match System::new(rt.alloc(), ground, setup) {
        Ok(system) => system,
        Err(_) => panic!(rt; "memory"),
    };
    let cpu = match Cpu::new(rt.alloc(), &system, 0) {
        Ok(Some(cpu)) => cpu,
        Ok(None) => panic!(rt; "no such CPU"),
        Err(_) => panic!(rt; "memory"),
    };
    let mut worker = SystemWorker::new(rt, &system, cpu);
    reply_each(rt, &mut worker, &GIVEN_BACK);
    worker.tidy();
    reply_each(rt, &mut worker, &NEEDED);
    worker.tidy();
    reply_each(rt, &mut worker, &UNNEEDED);
    if let Err(cpu) = system.retire(rt, worker.into_cpu()) {
        held(rt, cpu);
    }
    if let Err(fault) = system.shut(rt) {
        held(rt, fault);
    }
}

fn reply_each<R: Abort + AllocGlobal, K: Worker>(rt: &R, worker: &mut K, rows: &[(&str, &str)]) {
    for (text, wanted) in rows {
        let line = Line::read(text.as_bytes()).expect(rt, "a line");
        same(rt, &worker.reply(&line), wanted);
    }
}
