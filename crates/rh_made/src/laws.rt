//! Laws of generated recordings: these functions do nothing, and their contracts are the laws.

ghost use Rattle.std.specs.Prelude.{◌≡◌, ℕ, length, None};
ghost use Rattle.rh_pdu.specs.Checking.{pdu_fault};
ghost use Rattle.rh_pdu.specs.Frames.{IsPdu};
ghost use Rattle.rh_record.specs.declared.place.Place.TheVariants.{Header};
ghost use Rattle.rh_made.specs.Making.{lines};
ghost use Rattle.rh_made.specs.Requests.{pdu, size};
ghost use Rattle.rh_made.specs.Standing.{MayStand};

/// What is given is a PDU of its length, so none is refused as bad.
pub fn a_pdu_is_made()
    ensures sound { (i : ℕ) → IsPdu (pdu i) }
    ensures faultless { (i : ℕ) → pdu_fault (pdu i) ≡ None }
    ensures long { (i : ℕ) → length (pdu i) ≡ size i }
{}

/// Each line of the recording may stand where it does.
pub fn a_recording_is_made()
    ensures { (n : ℕ) → MayStand Header (lines n) }
{}
