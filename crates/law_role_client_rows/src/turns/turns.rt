//! On which of its IN channels a client writes. Its functions do nothing of their own: their
//! contracts are the laws.

ghost use Rattle.std.specs.Prelude.{List};
ghost use Rattle.rh_http.specs.declared.config.ClientConfig.{ClientConfig};
ghost use Rattle.law_moves.specs.Moves.{EndMove};
ghost use Rattle.law_role_client.specs.Order.{client_moved};
ghost use Rattle.law_role_client_rows.specs.InTurn.Ends.{EndsAll, EndsByInR1A5, EndsOnce};
ghost use Rattle.law_role_client_rows.specs.InTurn.Turns.{WritesInTurn};

/// Whatever moves a client makes, allowed or not: RPC PDUs, CONN/B1, IN_R1/A5, OUT_R1/A7, END/A1
/// and acknowledgements stand only on the IN channel that is written on: the one behind as many as
/// IN_R1/A5 was put before. END/A1 stands once at most on a channel, and no RPC PDU stands behind
/// it, on whichever leg. IN_R1/A1 stands on the next channel, and Pings and requests on either.
/// CONN/A1, OUT_R1/A3 and OUT_R2/C1 stand on co legs, as requests may, and no other messages are
/// put (MS-RPCH 2.2.4, 3.2.2; successors are this profile's).
pub fn a_client_writes_in_turn()
    ensures { (config : ClientConfig) (moves : List EndMove)
        → WritesInTurn (client_moved config moves).passage.put }
{}

/// Whatever moves a client makes: IN_R1/A5 is the last message that it puts on a ci leg (profile).
pub fn nothing_follows_in_r1_a5()
    ensures { (config : ClientConfig) (moves : List EndMove)
        → EndsByInR1A5 (client_moved config moves).passage.put }
{
    a_client_writes_in_turn();
}

/// Whatever moves a client makes: behind END/A1 stands no RPC PDU on its leg, and no other END/A1;
/// and where END/A1 stands on a ci leg, no RPC PDU stands on one of a greater number, be it put
/// before or behind (profile).
pub fn no_pdu_follows_end()
    ensures once { (config : ClientConfig) (moves : List EndMove)
        → EndsOnce (client_moved config moves).passage.put }
    ensures all { (config : ClientConfig) (moves : List EndMove)
        → EndsAll (client_moved config moves).passage.put }
{
    a_client_writes_in_turn();
}
