//! What is due at nodes that put nothing. These functions do nothing: their contracts are the laws.

ghost use Rattle.std.specs.Prelude.{◌≡◌, IfSome, None, Some, false, true};
ghost use Rattle.rh_keep.specs.Meters.{may_put};
ghost use Rattle.rh_window.specs.Receiving.{due};
ghost use Rattle.rh_sig.specs.declared.lengths.TheConstants.{ACK_TO_LEN};
ghost use Rattle.rh_line.specs.Queue.{front_length};
ghost use Rattle.rh_line.specs.declared.which.Which.TheVariants.{Current};
ghost use Rattle.rh_inproxy.specs.Acknowledging as in_acks;
ghost use Rattle.rh_inproxy.specs.State.{InProxy, has_a5};
ghost use Rattle.rh_outproxy.specs.Acknowledging as out_acks;
ghost use Rattle.rh_outproxy.specs.OutProxy.{OutProxy, has_come};
ghost use Rattle.rh_client.specs.Acknowledging as client_acks;
ghost use Rattle.rh_client.specs.Putting.{lets_pdu};
ghost use Rattle.rh_client.specs.Replacements.{is_finished};
ghost use Rattle.rh_client.specs.State.{is_open};
ghost use Rattle.rh_client.specs.declared.state.ClientRole.{ClientRole};
ghost use Rattle.rh_server.specs.OutLegs.{may_go};
ghost use Rattle.rh_server.specs.Putting as server;
ghost use Rattle.rh_server.specs.States.{Server, out_leg};
ghost use Rattle.rh_server.specs.declared.state.InLeg.{InLeg};
ghost use Rattle.rh_server.specs.declared.state.OutLeg.{OutLeg};
ghost use Rattle.law_world_free.specs.Drained.{WaitsForWindow};
ghost use Rattle.law_world_free.specs.Free.{IsFreeClient, IsFreeServer};

/// Where a node has no acknowledgement to put for a channel that is not over, none is due by the
/// channel's window; of a client, whose lifetime does not stand in the way (MS-RPCH 3.2.1).
pub fn what_is_not_put_is_not_due()
    ensures client { (c : ClientRole) → IsFreeClient c
        → IfSome (client_acks.ack_due c Current)
        (λ ack. may_put c.writing.meter ACK_TO_LEN ≡ false)
        → c.line.current.ended ≡ false → is_finished c.replacement ≡ false
        → due c.line.current.window ≡ None }
    ensures out_proxy { (o : OutProxy) → out_acks.ack_due o ≡ None → has_come o.end ≡ false
        → has_come o.handover ≡ false → due o.line.current.window ≡ None }
    ensures in_proxy { (i : InProxy) → in_acks.ack_due i Current ≡ None
        → i.line.current.ended ≡ false → has_a5 i Current ≡ false
        → due i.line.current.window ≡ None }
    ensures server { (s : Server) (leg : InLeg) → server.ack_due s leg ≡ None
        → leg.number ≡ s.current.leg → s.line.finished ≡ false → s.line.current.ended ≡ false
        → due s.line.current.window ≡ None }
{}

/// An open end that may not put its first RPC PDU, and whose lifetime does not stand in the way,
/// waits for the window (MS-RPCH 3.2).
pub fn free_ends_wait_for_windows()
    ensures client { (c : ClientRole) → IsFreeClient c → is_open c.phase ≡ true
        → IfSome (front_length c.queue) (λ len. lets_pdu c len ≡ false)
        → WaitsForWindow c.writing.window c.queue }
    ensures server { (s : Server) (leg : OutLeg) → IsFreeServer s
        → out_leg s.writing s.outs ≡ Some leg → leg.number ≡ s.writing
        → IfSome (front_length s.queue) (λ len. may_go leg s.writing len ≡ false)
        → WaitsForWindow leg.window s.queue }
{}
