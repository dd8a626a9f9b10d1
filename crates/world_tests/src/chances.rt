//! Numbers that look random, the same in each run.
ghost use Rattle.std.specs.Prelude.{◌<◌};

/// What the next number comes from.
#[derive(Drop)]
pub(crate) struct Chances(u64);

impl Chances {
    pub(crate) fn new(seed: u64) -> Chances {
        Chances(seed)
    }

    fn next(&mut self) -> u64 {
        let one = self.0 ^ (self.0 << 13);
        let two = one ^ (one >> 7);
        self.0 = two ^ (two << 17);
        self.0 >> 16
    }

    /// A number below `count`.
    pub(crate) fn below(&mut self, count: usize) -> usize
        requires some { 0 < count }
        ensures below { result < count }
    {
        self.next() as usize % count
    }

    /// Once in so many times.
    pub(crate) fn once_in(&mut self, times: usize) -> bool
        requires some { 0 < times }
    {
        self.below(times) == 0
    }
}
