//! The text protocol of leases: lines out of a stream of bytes, all lines that there are, and all
//! answers to them. Its values, as `ClientId`, are of the crate `lease_terms`.
//!
//! `LineReader` (framing) cuts a stream into lines. There are three kinds of line: a client's,
//! `Line` (lines), which is a hello, or a request's id and the `Op` that it asks for; an
//! operator's, `OperatorLine`; and a setup's, `SetupLine` (setup_lines). `ServedLine` (operators)
//! is what may come after a setup: one of the first two. An answer is a `Reply` (replies) to a
//! client, or a report (reports) to an operator, or an `error` line (faults). A client writes lines
//! and reads replies, a server the other way. What is written reads back as the same (`line_law`,
//! `reply_law`), and a setup line is its text (`setup_law`).
//!
//! What bytes a line may be is stated in specs/Grammar.antt, specs/Operators.antt,
//! specs/SetupLines.antt and specs/SetupTexts.antt, of a reply in specs/Replies.antt, and of a
//! report in specs/Reports.antt: there `X_of` is what whole bytes are, `X_in` what a word or some
//! words say, and `X_text` and `X_words` what is written. The limits stand in src/limits.rt.
//!
//! To read a line looks at each of its bytes, at most `LONGEST_LINE`, a few times and takes no
//! memory; to write one takes at most `LINE_ROOM` bytes of the buffer. The lines are served by the
//! crate `lease_server`, and answered by `stock_desk`.
#![tactic(auto)]

mod cpus;
mod faults;
mod framing;
mod ids;
mod limits;
mod lines;
mod numbers;
mod operators;
mod protocols;
mod refusals;
mod replies;
mod reports;
mod sentences;
mod setup_lines;
mod taking;
mod writing;

pub use cpus::CpuNumber;
pub use faults::{ErrorWord, LineFault};
pub use framing::{FramedLine, LineReader, fault_at_end, framing_law, line_feed_law};
pub use limits::{LAST_CPU, LINE_ROOM, LONGEST_LINE, MOST_CPUS, limit_law};
pub use lines::{HelloLine, LeaseLine, LeaseOptions, Line, Op, ReleaseLine, line_law};
pub use numbers::{number_law, value_of};
pub use operators::{
    GrowLine, MagazineSize, OperatorLine, ResizeLine, ServedLine, is_operator_word, served_law,
};
pub use replies::{Again, Granted, Old, OutOfTurn, RefusedRequest, Reply, Welcome, reply_law};
pub use reports::{AuditLine, ClientLine, ReapedLine, ok_line, outcome_line};
pub use setup_lines::{
    ChildLine, PolicyWord, RootLine, SetupLine, SpanLine, is_setup_word, setup_law,
};
