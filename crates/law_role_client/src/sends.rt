//! What a client sends on its IN channels, and what begins on its legs. These functions do nothing:
//! their contracts are the laws.

ghost use Rattle.std.specs.Prelude.{List};
ghost use Rattle.rh_http.specs.declared.config.ClientConfig.{ClientConfig};
ghost use Rattle.law_moves.specs.Moves.{EndMove};
ghost use Rattle.law_role_client.specs.Order.{AreAllowedMoves, client_moved};
ghost use Rattle.law_role_client.specs.Sending.{BeginsByCookie, SendsAsTold};

/// Whatever happens to a client: on each IN channel it put no RPC PDU, or no more bytes of them
/// than an edge that a packet told it, which came on an OUT channel. That is the in proxy's window
/// for some IN channel, or the end of the room that an acknowledgement told of a channel whose
/// cookie began on that leg. It refuses a packet as out of range only where that is an
/// acknowledgement to it, with a cookie with which one of its IN channels came up, of more than it
/// put there or of too great a window; and no RPC PDU (MS-RPCH 3.2.1).
pub fn a_client_sends_as_it_was_told()
    ensures { (config : ClientConfig) (moves : List EndMove) → AreAllowedMoves config moves
        → SendsAsTold moves (client_moved config moves).passage }
{}

/// Whatever happens to a client: a channel that it begins on a leg, by its first packet there, has
/// the cookie with which that leg came up (MS-RPCH 2.2.4).
pub fn a_client_begins_each_channel_once()
    ensures { (config : ClientConfig) (moves : List EndMove) → AreAllowedMoves config moves
        → BeginsByCookie moves (client_moved config moves).passage.put }
{}
