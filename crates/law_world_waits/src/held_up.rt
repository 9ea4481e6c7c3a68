//! What holds up a role that puts nothing on a leg. This function does nothing: its contract is the
//! law.

ghost use Rattle.std.specs.Prelude.{◌≡◌, ℕ, None, Some, slice_get, true};
ghost use Rattle.rh_line.specs.declared.leg.Leg.{Leg};
ghost use Rattle.rh_inproxy.specs.Putting as in_proxy;
ghost use Rattle.rh_inproxy.specs.State.{InProxy, is_server_leg};
ghost use Rattle.rh_outproxy.specs.OutProxy.{OutProxy};
ghost use Rattle.rh_outproxy.specs.Putting as out_proxy;
ghost use Rattle.rh_outproxy.specs.Rows.{is_co, is_os};
ghost use Rattle.rh_client.specs.Putting as client;
ghost use Rattle.rh_client.specs.State.{ci};
ghost use Rattle.rh_client.specs.declared.channels.Opening.TheVariants.{Put};
ghost use Rattle.rh_client.specs.declared.state.ClientRole.{ClientRole};
ghost use Rattle.rh_server.specs.Putting as server;
ghost use Rattle.rh_server.specs.States.{Server, in_leg, is_open, out_place};
ghost use Rattle.rh_server.specs.declared.state.InLeg.{InLeg};
ghost use Rattle.rh_server.specs.declared.state.OutLeg.{OutLeg};
ghost use Rattle.law_world_waits.specs.HeldUp.{AcksNone, AcksNoneOut, HoldsUpClient, HoldsUpIn, HoldsUpOut, HoldsUpServer};

/// In whatever state a role is that puts nothing on a leg: a proxy has nothing to forward there, no
/// acknowledgement and no mark is due, and it holds PDUs for the other end's window alone; an end
/// has PDUs for the window or the lifetime alone, and acknowledgements for the lifetime (MS-RPCH
/// 3.2).
pub fn what_is_not_put_is_held_up()
    ensures in_proxy { (s : InProxy) (leg : Leg) → is_server_leg s leg ≡ true
        → in_proxy.put s leg ≡ None → HoldsUpIn s }
    ensures out_proxy { (s : OutProxy) (leg : Leg) → is_co s leg ≡ true
        → out_proxy.put s leg ≡ None → HoldsUpOut s }
    ensures out_acks { (s : OutProxy) (leg : Leg) → is_os s leg ≡ true
        → out_proxy.put s leg ≡ None → AcksNoneOut s }
    ensures client { (s : ClientRole) → s.writing.opening ≡ Put
        → client.put s (ci s.writing.number) ≡ None → HoldsUpClient s }
    ensures server { (s : Server) (number place : ℕ) (leg : OutLeg)
        → out_place number s.outs ≡ Some place → slice_get s.outs place ≡ Some leg
        → is_open s.stage ≡ true → server.put_out s number ≡ None → HoldsUpServer s leg }
    ensures server_acks { (s : Server) (number : ℕ) (leg : InLeg)
        → in_leg number s.ins ≡ Some leg → server.put_in s number ≡ None → AcksNone s leg }
{}
