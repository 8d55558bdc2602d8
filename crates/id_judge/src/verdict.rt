//! What a judge says.

use id_core::Machine;

/// Why an event cannot follow those before it.
#[derive(Clone, Copy, Debug, PartialEq, Eq)]
pub enum Cause {
    /// Its message is not in flight: it was never sent, or it was taken before.
    NotInFlight,
    /// Its message is for another element.
    OtherElement,
    /// No stamp is left for its message.
    NoStamp,
    /// Its stamp is not the next.
    OtherStamp,
    /// The element makes another event of its message: it fires or sends something else, or comes to something else.
    OtherOutcome,
    /// Its line is none of an event: it is cut, longer than any, or begins with no digit.
    NoLine,
}

/// What a judge says of a list of events.
#[derive(Drop)]
pub enum Verdict<'a> {
    /// They are a legal list of so many, which ends in this machine, with what is left in flight.
    Legal(Machine<'a>, usize),
    /// The event at this position, from 0, is the first that cannot follow, and why.
    CannotFollow(usize, Cause),
}
