//! The moments at which a login's codes are judged.
ghost use Rattle.std.specs.Prelude.{◌≡◌, ℕ, Option, None};
ghost use Rattle.commands.specs.DeskLog.{IsGiven};

use sasl_desk::Moment;
use std::marker::{Brand, PhantomData};
use std::time::{Clock, SystemTime, UNIX_EPOCH};

/// The moment that `--moment` gives, or None, as part of a type, so that contracts over any clock can name it.
pub(crate) trait GivenMoment {
    ghost moment: { Option ℕ };
}

// A caller passes `Brand` as the type, and its proof picks the moment. This impl only lets the call be written: no clock has its
// None.
impl GivenMoment for Brand {
    ghost moment = { None };
}

/// A clock that may be asked at any time.
pub(crate) trait ReadyClock: sasl_desk::Clock {
    ghost always: { (clock : Self) → Self.MayBeAsked clock };
}

/// A clock that stands still at a given moment; without one, the machine's clock.
#[derive(Drop)]
pub(crate) struct LoginClock<'a, R, G: GivenMoment> {
    rt: &'a R,
    given: Option<Moment>,

    // The moment that was returned last; the start of 1970 if none was.
    last: Moment,

    // The given moment, as contracts name it.
    of: PhantomData<G>,

    ghost is_given: { given ≡ G.moment },
}

impl<'a, R: Clock, G: GivenMoment> LoginClock<'a, R, G> {
    /// A clock for the moment `given`, or for the machine's time if it is None.
    pub(crate) fn new(rt: &'a R, given: Option<Moment>) -> LoginClock<'a, R, G>
        requires { given ≡ G.moment }
        ensures { result.given ≡ given }
    {
        LoginClock {
            rt,
            given,
            last: start_of_1970(),
            of: PhantomData,
        }
    }
}

impl<R: Clock, G: GivenMoment> sasl_desk::Clock for LoginClock<'_, R, G> {
    ghost last = { λ clock. clock.last };

    ghost IsNow = { IsGiven G.moment };

    fn now(&mut self) -> Moment {
        self.last = match self.given {
            Some(moment) => moment,
            None => machine_moment(self.rt),
        };
        self.last
    }
}

impl<R: Clock, G: GivenMoment> ReadyClock for LoginClock<'_, R, G> {
    ghost always = { λ _. tt };
}

// The moment of the machine's clock, or the start of 1970 if the clock can't be read, or is before 1970 or after the year 9999.
fn machine_moment<R: Clock>(rt: &R) -> Moment {
    let Ok(now) = SystemTime::now(rt) else {
        return start_of_1970();
    };
    let Ok(since) = now.duration_since(UNIX_EPOCH) else {
        return start_of_1970();
    };
    Moment::new(since.as_secs()).unwrap_or(start_of_1970())
}

// The first moment.
fn start_of_1970() -> Moment {
    let Some(moment) = Moment::new(0) else {
        unreachable!()
    };
    moment
}
