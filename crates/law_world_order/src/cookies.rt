//! How many cookies are drawn. These functions do nothing: their contracts are the laws.

ghost use Rattle.std.specs.Prelude.{◌≡◌, ◌≤◌, ◌+◌, suc, List, []};
ghost use Rattle.rh_record.specs.declared.line.Line.{Line};
ghost use Rattle.rh_inproxy.specs.State.{InProxy};
ghost use Rattle.rh_outproxy.specs.OutProxy.{OutProxy};
ghost use Rattle.rh_client.specs.declared.channels.TheConstants.{LAST_NUMBER};
ghost use Rattle.rh_client.specs.declared.state.ClientRole.{ClientRole};
ghost use Rattle.rh_server.specs.States.{Server};
ghost use Rattle.rh_nodes.specs.Opening.{Makers};
ghost use Rattle.rh_nodes.specs.World.{World};
ghost use Rattle.law_node_history.specs.Drawn.{DrawnByLines};
ghost use Rattle.law_node_history.specs.Histories.{IsNew};
ghost use Rattle.rh_world.specs.declared.any_world.AnyWorld.TheVariants.{Before};
ghost use Rattle.rh_world.specs.Any.{after, step};
ghost use Rattle.law_node_traces.specs.Traced.Ours.{AreOurs, deeds, rules};
ghost use Rattle.law_world_order.specs.Premises.{AreLeftIn};

use law_node_causes::a_clients_leg_comes_up_once;
use law_node_traces::{a_recording_of_roles_is_known, legs_of_roles_come_up_once};
use rh_world::WorldConfig;

/// In each world of new roles in which no cookie was had but those that were drawn, lines draw one
/// for each channel of the client at most: its legs of one kind have the numbers from 1 to the last
/// number of a channel, and each comes up once.
pub fn cookies_are_drawn_for_channels<K>()
    ensures { (m : Makers K InProxy OutProxy)
        (w v : World K ClientRole Server InProxy OutProxy) → IsNew w → AreOurs m w.company w.cast
        → w.cookies.others ≡ [] → DrawnByLines rules m deeds w v
        → v.cookies.next ≤ w.cookies.next + (suc LAST_NUMBER + suc LAST_NUMBER) }
{
    a_clients_leg_comes_up_once();
    legs_of_roles_come_up_once::<K>();
    a_recording_of_roles_is_known::<K>();
}

/// So behind each line of a recording there are cookies left that no leg had.
pub fn cookies_of_a_recording_are_left()
    ensures { (before : List Line) (line : Line)
        → AreLeftIn (step (after Before before) line).0 }
{
    cookies_are_drawn_for_channels::<WorldConfig>();
}
