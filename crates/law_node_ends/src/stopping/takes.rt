//! What a take tells that ends. Its functions do nothing: their contracts are the laws.

ghost use Rattle.std.specs.Prelude.{◌≡◌, ℕ, List};
ghost use Rattle.law_order.specs.Taking.{ReportsEnd};
ghost use Rattle.rh_line.specs.declared.state.Take.TheVariants.{Ended};
ghost use Rattle.rh_shell.specs.Ends.{take_answer};
ghost use Rattle.rh_shell.specs.Rules.{Acts};
ghost use Rattle.rh_shell.specs.Shells.{Shell};
ghost use Rattle.rh_client.specs.declared.state.ClientRole.{ClientRole};
ghost use Rattle.rh_client.specs.Client.{acts as client_acts};
ghost use Rattle.rh_server.specs.States.{Server};
ghost use Rattle.rh_server.specs.Servers.{acts as server_acts};
ghost use Rattle.law_role_client.specs.Order.{taker_of as client_taker};
ghost use Rattle.law_role_server.specs.Order.{taker_of as server_taker};
ghost use Rattle.law_node_ends.specs.Stops.{HasNothingLeft};

/// A take tells that the other end gives no more only where the node did not close, END came, and
/// every PDU that came was taken.
pub fn a_take_that_ends_has_nothing_left<S>()
    ensures { (acts : Acts S) (node : Shell S) → take_answer acts node ≡ Ended
        → HasNothingLeft acts node }
{}

/// So it is as order sees a client and a server, whatever was taken before.
pub fn takes_that_end_report_the_end()
    ensures client { (taken : List (List ℕ)) (node : Shell ClientRole)
        → take_answer client_acts node ≡ Ended → ReportsEnd (client_taker taken node.role) }
    ensures server { (taken : List (List ℕ)) (node : Shell Server)
        → take_answer server_acts node ≡ Ended → ReportsEnd (server_taker taken node.role) }
{}
