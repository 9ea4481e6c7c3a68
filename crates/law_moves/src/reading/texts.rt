//! The laws of texts. These functions do nothing: their contracts are the laws.

ghost use Rattle.std.specs.Prelude.{ℕ, ◌≡◌, ◌++◌, List, []};
ghost use Rattle.std.specs.declared.option.Option.{Option};
ghost use Rattle.rh_pdu.specs.Frames.{IsFrame};
ghost use Rattle.rh_sig.specs.declared.name.Pipe.{Pipe};
ghost use Rattle.rh_http.specs.declared.config.ClientConfig.{ClientConfig};
ghost use Rattle.rh_http.specs.declared.refusal.Refusal.{Refusal};
ghost use Rattle.rh_http.specs.Texts.{in_request, out_request, refusal_text, response_text};
ghost use Rattle.rh_shell.specs.declared.stage.Stage.TheVariants as stage;
ghost use Rattle.rh_shell.specs.Hearing.{greeting};
ghost use Rattle.rh_shell.specs.Intakes.{is_whole_greeting, is_whole_head};
ghost use Rattle.rh_shell.specs.NearEnds.{first_stage};
ghost use Rattle.law_moves.specs.Carrying.{message_in};
ghost use Rattle.law_moves.specs.ReadBack.Reading.{IsWholeText, ReadsNothing};

/// Each head that is written has its one blank line at its end, whatever its numbers, and a
/// greeting is as long as one is.
pub fn texts_are_whole()
    ensures in_request { (config : ClientConfig) → IsWholeText is_whole_head (in_request config) }
    ensures out_request { (config : ClientConfig) (n : ℕ)
        → IsWholeText is_whole_head (out_request config n) }
    ensures response { (n : ℕ) → IsWholeText is_whole_head (response_text n) }
    ensures refusal { (refusal : Refusal) → IsWholeText is_whole_head (refusal_text refusal) }
    ensures greeting { IsWholeText is_whole_greeting greeting }
{}

/// No message is read in a head, nor where behind it a frame comes that is none.
pub fn heads_have_no_messages()
    ensures head { (pipe : Option Pipe) (text : List ℕ) → first_stage pipe ≡ stage.Head
        → IsWholeText is_whole_head text → ReadsNothing pipe text }
    ensures frame { (pipe : Option Pipe) (text frame : List ℕ) → first_stage pipe ≡ stage.Head
        → IsWholeText is_whole_head text → IsFrame frame → message_in pipe frame ≡ []
        → ReadsNothing pipe (text ++ frame) }
    ensures refusal { (pipe : Option Pipe) (refusal : Refusal) → first_stage pipe ≡ stage.Head
        → ReadsNothing pipe (refusal_text refusal) }
{}
