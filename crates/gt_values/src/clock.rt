ghost use Rattle.std.specs.Prelude.{◌≡◌};

use crate::moment::Moment;

/// What tells the present moment. It may tell any moment at any call: nothing proved rests on a clock being right, and
/// what needs moments in order takes the greatest so far.
pub trait Clock {
    /// The present moment.
    fn now(&self) -> Moment;
}

/// A clock that stands still.
#[derive(Clone, Copy, Debug)]
pub struct FixedClock(pub Moment);

impl Clock for FixedClock {
    fn now(&self) -> Moment
        ensures { result ≡ self.now.0 }
    {
        self.0
    }
}
