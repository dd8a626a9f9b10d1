//! The lines of an operator that are read as such, and which are none.
use lease_proto::{
    CpuNumber, GrowLine, LineFault, MagazineSize, OperatorLine, ResizeLine, ServedLine,
};
use lease_terms::{ArenaName, Quantity};
use std::process::Abort;

fn serves(rt: &impl Abort, text: &[u8], line: Result<OperatorLine, LineFault>) {
    let line = match line {
        Ok(line) => Ok(ServedLine::Operator(line)),
        Err(fault) => Err(fault),
    };
    assert_eq!(rt; ServedLine::read(text), line);
}

fn refuses(rt: &impl Abort, text: &[u8], fault: LineFault) {
    assert_eq!(rt; ServedLine::read(text), Err(fault));
}

fn name(rt: &impl Abort, text: &[u8]) -> ArenaName {
    ArenaName::new(text).expect(rt, "a name")
}

fn grow(rt: &impl Abort, arena: &[u8], base: u64, len: u64) -> OperatorLine {
    OperatorLine::Grow(GrowLine {
        arena: name(rt, arena),
        base: Quantity::new(base).expect(rt, "a quantity"),
        len: Quantity::new(len).expect(rt, "a quantity"),
    })
}

#[test]
fn the_lines_of_an_operator_are_one_word(rt: HostRuntime) {
    serves(&rt, b"tick", Ok(OperatorLine::Tick));
    serves(&rt, b"reap", Ok(OperatorLine::Reap));
    serves(&rt, b"audit", Ok(OperatorLine::Audit));
    serves(&rt, b"clients", Ok(OperatorLine::Clients));
    refuses(&rt, b"audit m", LineFault::BadLine);
    refuses(&rt, b"Audit", LineFault::BadLine);
    refuses(&rt, b"audits", LineFault::Word);
}

#[test]
fn a_resize_has_a_name_and_a_size(rt: HostRuntime) {
    let line = ResizeLine {
        arena: name(&rt, b"m"),
        size: MagazineSize::Fifteen,
    };
    serves(&rt, b"resize m 15", Ok(OperatorLine::Resize(line)));
    refuses(&rt, b"resize m 8", LineFault::Number);
    refuses(&rt, b"resize m", LineFault::BadLine);
    refuses(&rt, b"resize 7 7", LineFault::BadLine);
    let last = CpuNumber::new(63).expect(&rt, "a number");
    serves(&rt, b"cpu 63", Ok(OperatorLine::Cpu(last)));
    serves(&rt, b"offline 63", Ok(OperatorLine::Offline(last)));
    refuses(&rt, b"cpu 64", LineFault::Number);
}

/// Whether the numbers are a range that a root may get is not for the line: it is read all the
/// same.
#[test]
fn a_grow_has_a_name_a_base_and_a_length(rt: HostRuntime) {
    let last = 4611686018427387904;
    serves(&rt, b"grow m 8 16", Ok(grow(&rt, b"m", 8, 16)));
    serves(&rt, b"grow m 0 0", Ok(grow(&rt, b"m", 0, 0)));
    serves(
        &rt,
        b"grow abcdefghijklmno9 4611686018427387904 4611686018427387904",
        Ok(grow(&rt, b"abcdefghijklmno9", last, last)),
    );
    for text in [
        b"grow".as_slice(),
        b"grow m",
        b"grow m 8",
        b"grow m 8 16 1",
        b"grow 8 8 16",
        b"grow abcdefghijklmnopq 8 16",
        b"grow m  8 16",
        b"grow m 8 16 ",
        b"grow m -8 16",
        b"grow 8 08 16",
    ] {
        refuses(&rt, text, LineFault::BadLine);
    }
    for text in [
        b"grow m 08 16".as_slice(),
        b"grow m x 16",
        b"grow m 8 016",
        b"grow m 8 4611686018427387905",
        b"grow m 4611686018427387905 8",
        b"grow m 18446744073709551624 8",
    ] {
        refuses(&rt, text, LineFault::Number);
    }
    refuses(&rt, b"grows m 8 16", LineFault::Word);
    refuses(&rt, b"gro m 8 16", LineFault::Word);
}
