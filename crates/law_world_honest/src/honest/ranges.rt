//! Which values the rows of the roles refuse as out of range. This function does nothing: its
//! contract is the law.

ghost use Rattle.rh_inproxy.specs.Machine as in_proxy;
ghost use Rattle.rh_outproxy.specs.Machine as out_proxy;
ghost use Rattle.rh_client.specs.Client as client;
ghost use Rattle.rh_server.specs.Servers as server;
ghost use Rattle.law_world_honest.specs.Honesty.Rows.{RefusesAcks};

/// A row of a role refuses a value as out of range only in an acknowledgement: it is of more than
/// was sent, or of too great a window.
pub fn rows_refuse_values_of_acknowledgements()
    ensures client { RefusesAcks client.rules }
    ensures server { RefusesAcks server.rules }
    ensures in_proxy { RefusesAcks in_proxy.rules }
    ensures out_proxy { RefusesAcks out_proxy.rules }
{}
