//! Texts that are written. This function does nothing: its contract is the law.

ghost use Rattle.std.specs.Prelude.{◌≤◌, ℕ, IsTrue, true, false};
ghost use Rattle.rh_http.specs.declared.config.ClientConfig.{ClientConfig};
ghost use Rattle.rh_http.specs.declared.numbers.TheConstants.{GREATEST_PORT, LEAST_PORT};
ghost use Rattle.rh_http.specs.declared.refusal.Refusal.{Refusal};
ghost use Rattle.rh_http.specs.Lengths.{may_ask};
ghost use Rattle.rh_http.specs.Texts.{in_request, out_request, refusal_text, response_text};
ghost use Rattle.rh_sig.specs.declared.name.Pipe.TheVariants.{CiU, CoD, CoU, OsD};
ghost use Rattle.rh_audit.specs.Openings.{greeting};
ghost use Rattle.law_audit.specs.Streams.Texts.{IsFineText};

/// The requests of a client whose port and lengths are in their ranges, the responses and refusals
/// of its proxies, and the greeting of a server are fine texts on their pipes.
pub fn written_texts_are_fine()
    ensures in_request { (config : ClientConfig) → LEAST_PORT ≤ config.port
        → config.port ≤ GREATEST_PORT → IsTrue (may_ask true config.lifetime)
        → IsFineText CiU (in_request config) }
    ensures out_request { (config : ClientConfig) (n : ℕ) → LEAST_PORT ≤ config.port
        → config.port ≤ GREATEST_PORT → IsTrue (may_ask false n)
        → IsFineText CoU (out_request config n) }
    ensures response { (n : ℕ) → n ≤ 2147549184 → IsFineText CoD (response_text n) }
    ensures refusal { (refusal : Refusal) → IsFineText CoD (refusal_text refusal) }
    ensures greeting { IsFineText OsD greeting }
{}
