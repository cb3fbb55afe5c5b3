//! The source of the moments at which codes are judged.
ghost use Rattle.std.specs.Prelude.{◌≡◌, ℕ, List, [], ◌∷◌};
ghost use Rattle.std.specs.Io.KnownBytes.{Appends};
ghost use Rattle.std.specs.declared.option.Option.{Option};
ghost use Rattle.std.specs.declared.option.Option.TheVariants.{None};

use otp_core::Moment;

/// A clock, by which codes are judged.
///
/// Contracts know four facts about it, of which each type may define its own. `last` is the moment that the clock gave last, in seconds
/// since 1970-01-01 00:00 UTC. `given` has all moments that it gave, in their order, if it tells them. `IsNow` is true of each moment that
/// a clock of this type gives. `MayBeAsked` is true of a clock that may be asked now: of any, unless its type says otherwise.
pub trait Clock {
    ghost last: { Self → ℕ };

    // The moments that the clock gave, in their order, if it tells them.
    ghost given: { Self → Option (List ℕ) } = { λ _. None };

    // What is true of each moment that a clock of this type gives.
    ghost IsNow: { ℕ → Type 0 } = { λ _. Unit {0} };

    // What has to be true when the clock is asked. A type may define it so that the order of calls is seen: `serve_turn` and `serve`
    // may assume it only once the line has been read whose moment they ask for.
    ghost MayBeAsked: { Self → Type 0 } = { λ _. Unit {0} };

    /// The moment now. It may be earlier than one that was given before.
    fn now(&mut self) -> Moment
        requires { MayBeAsked self.old }
        ensures is_last { last self.new ≡ result }
        ensures is_given { Appends (given self.old) (given self.new) (result ∷ []) }
        ensures is_now { IsNow result };
}
