//! What counts lines and replies, by what was asked and how it was answered.
ghost use Rattle.tcp_connections.specs.Counting.{CountsIf, CountsExchange};

use lease_proto::{Line, Reply};
use lease_watch::Word;

/// What counts words.
pub trait Counter {
    ghost use Rattle.lease_watch.specs.declared.words.Word.{Word};

    // before and after, what it may be once a word was counted
    ghost may_count: { Self → Word → Self → Type 0 };

    /// Counts a word once more.
    fn count(&mut self, word: Word)
        ensures { may_count self.old word self.new };
}

/// Counts a line and its reply: each by its first word, and a refusal by its reason too.
pub fn count_exchange<C: Counter>(counter: &mut C, line: &Line, reply: &Reply)
    ensures { CountsExchange C.may_count counter.old line.now reply.now counter.new }
{
    counter.count(Word::of_line(line));
    counter.count(Word::of_reply(reply));
    count_if(counter, Word::of_reason(reply));
}

/// Counts a word, if there is one.
fn count_if<C: Counter>(counter: &mut C, word: Option<Word>)
    ensures { CountsIf C.may_count counter.old word counter.new }
{
    if let Some(word) = word {
        counter.count(word);
    }
}
