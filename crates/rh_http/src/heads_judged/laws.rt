//! That the verdicts as functions are those that `rh_http` states by relations.

ghost use Rattle.std.specs.Prelude.{◌≡◌, ℕ, Bool, List, length, Err};
ghost use Rattle.std.specs.declared.result.Result.{Result};
ghost use Rattle.rh_http.specs.declared.fault.HttpFault.{HttpFault};
ghost use Rattle.rh_http.specs.declared.request.Request.{Request};
ghost use Rattle.rh_http.specs.declared.response.Response.{Response};
ghost use Rattle.rh_http.specs.Ends.{FirstEnd};
ghost use Rattle.rh_http.specs.Requests.{JudgesRequest};
ghost use Rattle.rh_http.specs.Responses.{JudgesResponse};
ghost use Rattle.rh_http.specs.Heads.Verdicts.{asked_of, request_verdict, response_verdict};

/// A text that ends with its first blank line has the verdict that it has as a request, and every
/// other text is too long.
pub fn requests_are_judged()
    ensures whole { (inbound : Bool) (text : List ℕ) (verdict : Result Request HttpFault)
        → FirstEnd text (length text) → JudgesRequest inbound text verdict
        → asked_of verdict ≡ request_verdict inbound text }
    ensures other { (inbound : Bool) (text : List ℕ) → ¬ FirstEnd text (length text)
        → request_verdict inbound text ≡ Err HttpFault.TooLong }
{}

/// A text that ends with its first blank line has the verdict that it has as a response, and every
/// other text is too long.
pub fn responses_are_judged()
    ensures whole { (text : List ℕ) (verdict : Result Response HttpFault)
        → FirstEnd text (length text) → JudgesResponse text verdict
        → verdict ≡ response_verdict text }
    ensures other { (text : List ℕ) → ¬ FirstEnd text (length text)
        → response_verdict text ≡ Err HttpFault.TooLong }
{}
