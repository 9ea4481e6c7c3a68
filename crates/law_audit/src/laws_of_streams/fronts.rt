//! Fronts of streams. These functions do nothing: their contracts are the laws.

ghost use Rattle.std.specs.Prelude.{◌≡◌, ◌++◌, ℕ, List, [], true, None};
ghost use Rattle.std.specs.List.{AllByRecursion, concat};
ghost use mathlib.Core.List.{IsPrefix};
ghost use Rattle.rh_pdu.specs.Frames.{IsFrame};
ghost use Rattle.rh_http.specs.declared.refusal.Refusal.{Refusal};
ghost use Rattle.rh_http.specs.Texts.{refusal_text};
ghost use Rattle.rh_sig.specs.declared.name.Pipe.{Pipe};
ghost use Rattle.rh_sig.specs.declared.name.Pipe.TheVariants.{CoD};
ghost use Rattle.rh_audit.specs.Streams.{stream, stream_is};
ghost use Rattle.law_audit.specs.Streams.Texts.{IsFineText};
ghost use Rattle.law_audit.specs.Streams.Whole.{AllStand, IsFrontOf};

/// Bytes that are cut anywhere from a fine text and frames that may stand behind it are a stream
/// that is not broken, and its frames are the first of those.
pub fn no_front_is_broken()
    ensures { (pipe : Pipe) (text : List ℕ) (frames : List (List ℕ)) (bytes : List ℕ)
        → IsFineText pipe text → AllByRecursion IsFrame frames → AllStand pipe true frames
        → IsPrefix bytes (text ++ concat frames) → IsFrontOf pipe frames bytes }
{}

/// So are those of a refusal, behind which no frame comes.
pub fn refusals_are_no_frames()
    ensures { (refusal : Refusal) (bytes : List ℕ) → IsPrefix bytes (refusal_text refusal)
        → IsFrontOf CoD [] bytes }
{}

/// And where no bytes are, there is no frame.
pub fn no_bytes_are_no_frames()
    ensures { (pipe : Pipe) → stream pipe [] ≡ stream_is [] None }
{}
