//! Which lengths the roles take of heads. This function does nothing: its contract is the law.

ghost use Rattle.std.specs.Prelude.{◌≡◌, List, ℕ};
ghost use Rattle.rh_http.specs.declared.config.ClientConfig.{ClientConfig};
ghost use Rattle.rh_line.specs.declared.leg.Leg.{Leg};
ghost use Rattle.rh_line.specs.declared.leg.LegKind.TheVariants.{ClientIn, ClientOut};
ghost use Rattle.rh_inproxy.specs.Machine as in_proxy;
ghost use Rattle.rh_outproxy.specs.Machine as out_proxy;
ghost use Rattle.rh_client.specs.Client as client;
ghost use Rattle.rh_server.specs.Servers as server;
ghost use Rattle.law_role_client.specs.Legible.{IsConfig};
ghost use Rattle.law_world_order.specs.FirstTexts.{IsPort};
ghost use Rattle.law_world_bodies.specs.Behind.{TakesHead};
ghost use Rattle.law_world_bodies.specs.Bodies.{RequestTells};

/// A proxy takes the request of a client whose numbers are in their ranges with the length that it
/// tells, be it one for a channel or for an echo (MS-RPCH 2.1.2). A client takes heads on the legs
/// of OUT channels alone, and a server takes none.
pub fn heads_are_taken_by_their_lengths()
    ensures in_proxy { (config : ClientConfig) (leg : Leg) (text : List ℕ) (n told : ℕ)
        → IsConfig config → IsPort config.port → RequestTells config ClientIn n text
        → TakesHead in_proxy.rules leg text told → n ≡ told }
    ensures out_proxy { (config : ClientConfig) (leg : Leg) (text : List ℕ) (n told : ℕ)
        → IsPort config.port → RequestTells config ClientOut n text
        → TakesHead out_proxy.rules leg text told → n ≡ told }
    ensures client { (leg : Leg) (text : List ℕ) (told : ℕ)
        → TakesHead client.rules leg text told → leg.kind ≡ ClientOut }
    ensures server { (leg : Leg) (text : List ℕ) (told : ℕ)
        → TakesHead server.rules leg text told → ⊥ }
{}
