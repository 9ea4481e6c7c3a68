//! Lifetimes that do not stand in the way. These functions do nothing: their contracts are the
//! laws.

ghost use Rattle.rh_inproxy.specs.State.{InProxy};
ghost use Rattle.rh_outproxy.specs.OutProxy.{OutProxy};
ghost use Rattle.rh_client.specs.declared.state.ClientRole.{ClientRole};
ghost use Rattle.rh_server.specs.States.{Server};
ghost use Rattle.rh_nodes.specs.World.{World};
ghost use Rattle.rh_world.specs.declared.config.WorldConfig.{WorldConfig};
ghost use Rattle.rh_world.specs.Config.{AreInRange};
ghost use Rattle.rh_world.specs.Roles.{begun};
ghost use Rattle.law_world_free.specs.Free.{HaveMargins, IsFree};

/// Where the meter of each channel on which an end writes has 8,448 bytes left, room for the
/// longest RPC PDU besides the reserve, no lifetime stands in the way (MS-RPCH 3.2; profile).
pub fn margins_are_free<K>()
    ensures { (w : World K ClientRole Server InProxy OutProxy) → HaveMargins w → IsFree w }
{}

/// So it is in the world of roles that settings begin.
pub fn a_new_world_is_free()
    ensures { (config : WorldConfig) → AreInRange config → IsFree (begun config) }
{}
