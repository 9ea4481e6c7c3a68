//! What an end never does. Its function does nothing: its contract is the law.

ghost use Rattle.std.specs.Prelude.{◌≡◌};
ghost use Rattle.rh_line.specs.declared.leg.Leg.{Leg};
ghost use Rattle.rh_client.specs.declared.state.ClientRole.{ClientRole};
ghost use Rattle.rh_client.specs.Client.{rules as client_rules};
ghost use Rattle.rh_server.specs.States.{Server};
ghost use Rattle.rh_server.specs.Servers.{rules as server_rules};
ghost use Rattle.law_node_streams.specs.Streams.{NeverRefuses};
ghost use Rattle.law_node_begins.specs.EndsBegin.{client_reads, server_reads};

/// Neither end refuses a request by a head, and what it reads on a leg stays the same.
pub fn an_end_never_refuses()
    ensures client { NeverRefuses client_rules }
    ensures client_pipes { (s : ClientRole) (leg : Leg)
        → client_rules.pipe s leg ≡ client_reads leg }
    ensures server { NeverRefuses server_rules }
    ensures server_pipes { (s : Server) (leg : Leg) → server_rules.pipe s leg ≡ server_reads leg }
{}
