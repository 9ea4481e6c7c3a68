//! Recordings of the real roles. The function does nothing: its contract is the law.

ghost use Rattle.std.specs.Prelude.{List};
ghost use Rattle.rh_inproxy.specs.State.{InProxy};
ghost use Rattle.rh_outproxy.specs.OutProxy.{OutProxy};
ghost use Rattle.rh_client.specs.declared.state.ClientRole.{ClientRole};
ghost use Rattle.rh_server.specs.States.{Server};
ghost use Rattle.rh_nodes.specs.Opening.{Makers};
ghost use Rattle.rh_nodes.specs.World.{World};
ghost use Rattle.law_node_history.specs.Changes.{Leads, Turn, after_turns};
ghost use Rattle.law_node_history.specs.Histories.{IsNew};
ghost use Rattle.law_node_traces.specs.Traced.Ours.{AreOurs, deeds, rules};
ghost use Rattle.law_node_traces.specs.Traced.Recordings.{IsKnown};

use crate::traces::once::legs_of_roles_come_up_once;

/// Whatever changes lead from a new world of the real roles, their history traces its nodes and
/// legs, each piece is heard on a leg that came up before, and each in proxy reads the channels of
/// its number and behind. So it is behind any lines and half steps.
pub fn a_recording_of_roles_is_known<K>()
    ensures changes { (m : Makers K InProxy OutProxy)
        (w v : World K ClientRole Server InProxy OutProxy) → IsNew w → AreOurs m w.company w.cast
        → (leads : Leads rules m deeds w v) → IsKnown m w v leads }
    ensures turns { (m : Makers K InProxy OutProxy)
        (w : World K ClientRole Server InProxy OutProxy) → IsNew w → AreOurs m w.company w.cast
        → (turns : List Turn)
        → (leads : Leads rules m deeds w (after_turns rules m deeds w turns))
        × IsKnown m w (after_turns rules m deeds w turns) leads }
{
    legs_of_roles_come_up_once::<K>();
}
