ghost use Rattle.gt_values.specs.Moment.{last_moment};
ghost use Rattle.std.specs.Prelude.{◌<◌, ◌≡◌, ◌≤◌};

use gt_values::{Clock, Moment};
use std::time::{SystemTime, UNIX_EPOCH};

/// The clock of the system, in whole seconds of UTC. It says the first moment where the system tells none in range.
#[derive(Drop)]
pub struct RealClock<R: std::time::Clock + Drop> {
    rt: R,
}

impl<R: std::time::Clock + Drop> RealClock<R> {
    pub fn new(rt: R) -> RealClock<R> {
        RealClock { rt }
    }
}

impl<R: std::time::Clock + Drop> Clock for RealClock<R> {
    fn now(&self) -> Moment {
        let Ok(time) = SystemTime::now(&self.rt) else {
            return Moment::zero();
        };
        match time.duration_since(UNIX_EPOCH) {
            Ok(since) => moment_of(since.as_secs()),
            Err(_) => Moment::zero(),
        }
    }
}

// The moment of so many seconds since 1970, or the first where there is none.
fn moment_of(seconds: u64) -> Moment
    ensures inside { seconds ≤ last_moment → result ≡ seconds }
    ensures outside { last_moment < seconds → result ≡ 0 }
{
    match Moment::of(seconds) {
        Some(moment) => moment,
        None => Moment::zero(),
    }
}
