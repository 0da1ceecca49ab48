//! A record as bytes.

ghost use Rattle.std.specs.Prelude.{◌≡◌, ◌+◌, ◌≤◌, ◌<◌, ◌^◌, [], ◌∷◌, ◌++◌, length, vec_capacity, vec_len};
ghost use Rattle.journal.specs.Records.{record_of};

/// Adds bytes, for which there is room.
fn add(room: &mut Vec<u8>, bytes: &[u8])
    requires { vec_len room.old + length bytes.now ≤ vec_capacity room.old }
    ensures items { room.new.items ≡ room.old.items ++ bytes.now }
    ensures len { vec_len room.new ≡ vec_len room.old + length bytes.now }
    ensures capacity { vec_capacity room.old ≤ vec_capacity room.new }
{
    match room.extend_from_slice(bytes) {
        Ok(()) => {}
        Err(_) => unreachable!(),
    }
}

/// Puts a record and a closed gate into a buffer, in room that is there.
pub fn spell(room: &mut Vec<u8>, body: &[u8])
    requires room { length body.now + 5 ≤ vec_capacity room.old }
    requires short { length body.now < 256 ^ 4 }
    ensures bytes { room.new.items ≡ record_of body.now ++ 0 ∷ [] }
    ensures room { vec_capacity room.old ≤ vec_capacity room.new }
{
    room.clear();
    let length = body.len() as u32;
    add(room, &length.to_be_bytes());
    add(room, body);
    room.push_reserved(0);
}
