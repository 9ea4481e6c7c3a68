//! Where a server's messages stand, and what they copy. These functions do nothing: their contracts
//! are the laws.

ghost use Rattle.std.specs.Prelude.{List, ℕ};
ghost use Rattle.rh_server.specs.Servers.{acts, first, rules};
ghost use Rattle.law_moves.specs.Moves.{EndMove, all_end_moved, end_started};
ghost use Rattle.law_role_server_rows.specs.Putting.Copying.{CopiesWhatCame};
ghost use Rattle.law_role_server_rows.specs.Putting.Greeting.{GreetsFirst};
ghost use Rattle.law_role_server_rows.specs.Putting.Puts.{WritesInTurn};

/// Whatever moves a server makes, allowed or not: RPC PDUs, END/B1, CONN/C1, IN_R1/A3, IN_R2/A3,
/// OUT_R1/A1, OUT_R1/A5, OUT_R1/A9 and acknowledgements stand only on the OUT channel that writes:
/// the one behind as many as OUT_R1/A9 was put before. Acknowledgements to out proxies may stand on
/// any os leg. END/B1 stands once at most on a channel, and no RPC PDU stands behind it, on
/// whichever leg. On is legs stand CONN/B3, IN_R1/B1, IN_R1/B2 and acknowledgements; and no other
/// messages are put but greetings (MS-RPCH 2.2.4, 3.2.5; successors are this profile's).
pub fn a_server_writes_in_turn()
    ensures { (window : ℕ) (moves : List EndMove)
        → WritesInTurn (all_end_moved rules acts (end_started (first window)) moves).passage.put }
{}

/// Whatever moves a server makes, allowed or not: each CONN/C1 that it put has the window and the
/// timeout of a CONN/B2 that came on its first is leg, each IN_R1/A3 those of an IN_R1/A2 that
/// came, and each OUT_R1/A5 the timeout of an OUT_R1/A4 that came. An acknowledgement to the client
/// or to an out proxy came as it is put; one to an in proxy has the cookie of a packet that began a
/// channel on its leg, or the one of zeros that stands for none. CONN/B3 and IN_R1/B2 tell the
/// server's window (MS-RPCH 2.2.4, 3.2.5; successors are this profile's).
pub fn a_server_copies_what_came()
    ensures { (window : ℕ) (moves : List EndMove) → CopiesWhatCame window
        (all_end_moved rules acts (end_started (first window)) moves).passage }
{}

/// Whatever moves a server makes, allowed or not: what it put on each leg is nothing, or the
/// greeting and then RPC PDUs and packets (profile).
pub fn a_server_greets_first()
    ensures { (window : ℕ) (moves : List EndMove) → GreetsFirst
        (all_end_moved rules acts (end_started (first window)) moves).passage }
{}
