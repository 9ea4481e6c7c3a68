//! Writes a text that is given in pieces.

ghost use Rattle.std.specs.Prelude.{◌≡◌, ◌+◌, ◌^◌, ◌<◌, ◌≤◌, length};
ghost use Rattle.std.specs.List.{flat_map};
ghost use Rattle.rh_rts.specs.Writing.{over};
ghost use Rattle.rh_http.specs.Texts.{Writes};

use rh_rts::NoRoom;

/// The bytes of all pieces.
fn length_of(pieces: &[&[u8]]) -> usize
    requires { length (flat_map (λ piece. piece.now) pieces.now) < 2 ^ 32 }
    ensures { result ≡ length (flat_map (λ piece. piece.now) pieces.now) }
{
    let mut length = 0;
    for piece in pieces {
        length += piece.len();
    }
    length
}

/// Writes a piece from this place on, and answers where it ends.
#[tactic(auto, unfolding(rh_rts::specs::Writing::over))]
fn put(room: &mut [u8], at: usize, piece: &[u8]) -> usize
    requires { at + length piece.now ≤ length room.old }
    ensures room { room.new ≡ over room.old at piece.now }
    ensures end { result ≡ at + length piece.now }
{
    let end = at + piece.len();
    room[at..end].copy_from_slice(piece);
    end
}

/// Writes the pieces, one behind the other, at the front.
fn put_all(pieces: &[&[u8]], room: &mut [u8])
    requires { length (flat_map (λ piece. piece.now) pieces.now) ≤ length room.old }
    ensures { room.new ≡ over room.old 0 (flat_map (λ piece. piece.now) pieces.now) }
{
    let mut at = 0;
    for piece in pieces {
        at = put(room, at, piece);
    }
}

/// Writes the pieces, one behind the other, at the front of the room, and answers their length.
pub fn write_pieces(pieces: &[&[u8]], room: &mut [u8]) -> Result<usize, NoRoom>
    requires { length (flat_map (λ piece. piece.now) pieces.now) < 2 ^ 32 }
    ensures { Writes (flat_map (λ piece. piece.now) pieces.now) room.old room.new result }
{
    let need = length_of(pieces);
    if need > room.len() {
        return Err(NoRoom { need });
    }
    put_all(pieces, room);
    Ok(need)
}
