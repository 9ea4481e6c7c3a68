//! A node is told something, and may close by it.

ghost use Rattle.std.specs.Prelude.{◌≡◌};
ghost use Rattle.rh_company.specs.Telling as seen;

use crate::event::Event;
use rh_line::{Cause, State, Verdict};
use rh_shell::{Role, Shell};

/// The cause with which a node closed that was in this state before.
fn closing(before: State, verdict: Verdict) -> Option<Cause>
    ensures { result ≡ seen.closing before verdict }
{
    match (before, verdict) {
        (State::Opening | State::Open | State::Ended, Verdict::Closed(cause)) => Some(cause),
        _ => None,
    }
}

/// Tells a node something, and answers the cause with which that closed it.
pub(crate) fn tell<R: Role>(node: &mut Shell<R>, event: &Event) -> Option<Cause>
    ensures { (node.new, result) ≡ seen.tell R.rules node.old event.now }
{
    let before = node.state();
    let verdict = match event {
        Event::Comes { leg, piece } => node.bytes(*leg, piece.as_slice()),
        Event::Ends(leg) => node.ended(*leg),
        Event::Breaks(leg) => node.broken(*leg),
        Event::Passes(now) => node.tick(*now),
    };
    closing(before, verdict)
}
