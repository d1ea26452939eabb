//! Numbers drawn one after another from a first one.
ghost use Rattle.std.specs.Prelude.{◌≡◌, ◌<◌};
ghost use Rattle.pm_gen.specs.Draws.{next, draw};

const MULTIPLIER: u64 = 6_364_136_223_846_793_005;

const INCREMENT: u64 = 1_442_695_040_888_963_407;

/// The number that the next draw begins with.
#[derive(Clone, Copy)]
pub(crate) struct Draws {
    pub(crate) number: u64,
}

impl Draws {
    /// A number below `bound`, told by the upper bits.
    #[tactic(auto, unfolding(crate::specs::Draws::draw))]
    pub(crate) fn draw(&mut self, bound: u64) -> u64
        requires { 0 < bound }
        ensures drawn { result ≡ draw bound self.old.number }
        ensures below { result < bound }
        ensures number { self.new.number ≡ next self.old.number }
    {
        self.number = next(self.number);
        (self.number >> 33) % bound
    }
}

fn next(number: u64) -> u64
    ensures { result ≡ next number }
{
    number.wrapping_mul(MULTIPLIER).wrapping_add(INCREMENT)
}
