//! Machines: what takes events, answers each and goes on.

ghost use Rattle.std.specs.Prelude.{◌≡◌};

/// A machine. Its next state and its reply are functions of its state and the event.
pub trait Machine {
    type State;

    type Event;

    type Reply;

    /// The state after an event.
    ghost next: { Self.State → Self.Event → Self.State };

    /// The reply to an event.
    ghost reply: { Self.State → Self.Event → Self.Reply };

    /// Takes an event, and answers it.
    fn act(state: &mut Self::State, event: Self::Event) -> Self::Reply
        ensures state { state.new ≡ next state.old event }
        ensures reply { result ≡ reply state.old event };
}
