//! Numbers that look random, the same in each run.
ghost use Rattle.std.specs.Prelude.{◌≡◌, ◌<◌, ◌≤◌, ◌^◌};

use deed_core::{LIMIT, Request};
use rand_core::utils::NextWord;
use rand_pcg::Pcg32;

/// What the next number comes from.
#[derive(Drop)]
pub(super) struct Chances(Pcg32);

impl Chances {
    pub(super) fn new(seed: u64) -> Chances {
        Chances(Pcg32::new(seed, 1))
    }

    /// A number below `count`.
    pub(super) fn below(&mut self, count: u64) -> u64
        requires { 0 < count }
        ensures { result < count }
    {
        u64::from(self.0.next_word()) % count
    }

    /// 2 to some power of at most 6.
    fn power(&mut self) -> u64 {
        1 << self.below(7)
    }

    /// A request, of which half have some constraint. Some are bad.
    pub(super) fn request(&mut self) -> Request {
        let plain = Request::plain(1 + self.below(24));
        match self.below(8) {
            0 => Request {
                align: self.power(),
                ..plain
            },
            1 => Request {
                align: self.power(),
                phase: self.below(8),
                ..plain
            },
            2 => Request {
                nocross: self.power(),
                ..plain
            },
            3 => self.window(plain),
            _ => plain,
        }
    }

    /// The request, in a window.
    fn window(&mut self, request: Request) -> Request {
        let min = self.below(1400);
        let max = match self.below(3) {
            0 => LIMIT,
            _ => min + self.below(64),
        };
        Request {
            align: self.below(2) * 8,
            min,
            max,
            ..request
        }
    }
}
