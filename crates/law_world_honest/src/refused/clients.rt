//! What a client heard where it closes for a response. This function does nothing: its contract is
//! the law.

ghost use Rattle.std.specs.Prelude.{◌≡◌, List, Some, false, ℕ};
ghost use Rattle.rh_http.specs.declared.config.ClientConfig.{ClientConfig};
ghost use Rattle.rh_line.specs.declared.cause.Cause.TheVariants as cause;
ghost use Rattle.rh_line.specs.declared.leg.Leg.{Leg};
ghost use Rattle.rh_shell.specs.declared.course.Course.TheVariants.{Going};
ghost use Rattle.rh_shell.specs.declared.stage.Stage.TheVariants as stage;
ghost use Rattle.rh_shell.specs.NearEnds.{NearEnd, is_over};
ghost use Rattle.rh_shell.specs.Shells.{end_at};
ghost use Rattle.rh_client.specs.Client as client;
ghost use Rattle.rh_company.specs.declared.event.Event as told;
ghost use Rattle.law_moves.specs.Laws.{ClosedWith};
ghost use Rattle.law_moves.specs.Moving.{EndEvent, after_end_events};
ghost use Rattle.law_node_history.specs.Carried.{AreAcceptedAtEnd, happened, heard_on};
ghost use Rattle.law_node_causes.specs.Closings.{ClosesWith};
ghost use Rattle.law_node_streams.specs.Streams.{HearsInTurn};
ghost use Rattle.law_world_honest.specs.Refusals.Refused.{BeginsRefused, HeardRefusal};

use law_node_begins::an_end_never_refuses;
use law_node_causes::{
    a_clients_leg_comes_up_once, a_leg_is_silent_since_it_was_heard, a_node_closes_once,
    an_end_closes_once, causes_come_from_their_events, only_a_client_closes_with_http_refused,
};
use law_node_ends::a_leg_that_a_client_left_stays_unused;
use law_node_streams::an_ends_stream;
use rh_client::ClientRole;

/// While a client goes on and waits for a head on a leg that it hears, it holds all bytes that came
/// there, if its legs came up where they might and pieces came on legs that were up.
///
/// So where a piece closes it with `HttpRefused`, a front of all bytes that came on that leg is the
/// response that refuses the channel with that status; and what came there begins so wherever the
/// client is closed with it.
pub fn what_a_client_holds_of_a_head()
    ensures held { (config : ClientConfig) (events : List EndEvent) (leg : Leg) (end : NearEnd)
        → AreAcceptedAtEnd client.rules client.acts (client.first_client config) events
        → HearsInTurn (happened events)
        → (let node = after_end_events client.rules client.acts (client.first_client config)
        events in
        node.course ≡ Going → end_at node leg ≡ Some end → end.intake.stage ≡ stage.Head
        → is_over client.rules end node.role ≡ false
        → end.intake.held ≡ heard_on leg (happened events)) }
    ensures refused { (config : ClientConfig) (events : List EndEvent) (event : told.Event)
        (leg : Leg) (status : ℕ)
        → AreAcceptedAtEnd client.rules client.acts (client.first_client config) events
        → HearsInTurn (happened events)
        → ClosesWith client.rules
        (after_end_events client.rules client.acts (client.first_client config) events) event
        (cause.HttpRefused leg status)
        → HeardRefusal (heard_on leg (happened events)) event leg status }
    ensures closed { (config : ClientConfig) (events : List EndEvent) (leg : Leg) (status : ℕ)
        → AreAcceptedAtEnd client.rules client.acts (client.first_client config) events
        → HearsInTurn (happened events)
        → ClosedWith (cause.HttpRefused leg status)
        (after_end_events client.rules client.acts (client.first_client config) events).course
        → BeginsRefused (heard_on leg (happened events)) leg status }
{
    an_ends_stream::<ClientRole>();
    an_end_never_refuses();
    a_leg_that_a_client_left_stays_unused();
    a_clients_leg_comes_up_once();
    an_end_closes_once::<ClientRole>();
    a_node_closes_once::<ClientRole>();
    causes_come_from_their_events::<ClientRole>();
    only_a_client_closes_with_http_refused();
    a_leg_is_silent_since_it_was_heard::<ClientRole>();
}
