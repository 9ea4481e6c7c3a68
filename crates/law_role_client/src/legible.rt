//! The law of what a client puts. This function does nothing: its contract is the law.

ghost use Rattle.std.specs.Prelude.{List};
ghost use Rattle.rh_http.specs.declared.config.ClientConfig.{ClientConfig};
ghost use Rattle.law_moves.specs.Moves.{EndMove};
ghost use Rattle.law_moves.specs.Legible.Legible.{AreLegible};
ghost use Rattle.law_role_client.specs.Legible.{IsConfig, HasCookies, HaveCookies, pipe_put};
ghost use Rattle.law_role_client.specs.Order.{client_moved};

use law_moves::what_may_go_reads_back;

/// Whatever happens to a client whose configuration is in range: each PDU and packet that it put on
/// a leg is read by the proxy there as what it put; a Ping is passed over. That cookies have their
/// 16 bytes is so of every `Cookie`.
pub fn what_a_client_puts_reads_back()
    ensures { (config : ClientConfig) (moves : List EndMove) → IsConfig config
        → HasCookies config → HaveCookies moves
        → AreLegible pipe_put (client_moved config moves).passage.put }
{
    what_may_go_reads_back();
}
