//! The streams of a recording of roles. This function does nothing: its contract is the law.

ghost use Rattle.std.specs.Prelude.{List, ◌∷◌, true};
ghost use Rattle.rh_record.specs.declared.line.Line.{Line};
ghost use Rattle.rh_record.specs.declared.line.Line.TheVariants.{First};
ghost use Rattle.law_world_audited.specs.Moving.Streams.{TellsStreamsOf};

use crate::what_moved::sent::what_moved_is_of_what_was_put;
use law_audit::{
    no_bytes_are_no_frames, refusals_are_no_frames, what_is_put_is_a_stream, written_texts_are_fine,
};
use law_peers_expects::an_out_proxy_answers_echoes_alone;
use law_peers_in_channels::an_in_proxy_in_turn_puts_in_order;
use law_role_client_rows::{
    a_client_opens_in_channels_in_order, a_client_opens_out_channels_in_order,
};
use law_role_outproxy::an_out_proxy_opens_to_the_server_first;
use law_role_server_rows::a_server_greets_first;
use law_world_ways::no_head_that_comes_asks_for_an_echo;
use rh_world::WorldConfig;

/// What the answers of a recording of roles tell moved on a pipe that a capture has is a stream that
/// is not broken, of the first messages that were put there behind a head or greeting, behind any
/// lines, whatever they cut, break and replace.
pub fn what_moved_is_a_stream()
    ensures { (behind : List Line) → TellsStreamsOf (First true ∷ behind) }
{
    what_moved_is_of_what_was_put();
    no_bytes_are_no_frames();
    refusals_are_no_frames();
    what_is_put_is_a_stream();
    written_texts_are_fine();
    a_client_opens_in_channels_in_order();
    a_client_opens_out_channels_in_order();
    an_in_proxy_in_turn_puts_in_order();
    an_out_proxy_opens_to_the_server_first();
    an_out_proxy_answers_echoes_alone();
    a_server_greets_first();
    no_head_that_comes_asks_for_an_echo::<WorldConfig>();
}
