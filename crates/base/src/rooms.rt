// Lent rooms: putting bytes and numbers into them.
ghost use Rattle.std.specs.Prelude.{◌≡◌, [], ◌∷◌, ◌++◌, ◌+◌, ◌≤◌, length, take, drop, set};
ghost use Rattle.meaning.specs.Answer.{filled};

// Puts part behind the first used bytes of room, and says where it ends. What lies behind is as it was.
pub fn append(part: &[u8], room: &mut [u8], used: usize) -> usize
    requires { used + length part.now ≤ length room.old }
    ensures end { result ≡ used + length part.now }
    ensures front { take result room.new ≡ take used room.old ++ part.now }
    ensures behind { drop result room.new ≡ drop result room.old }
{
    let end = used + part.len();
    room[used..end].copy_from_slice(part);
    end
}

// A value in its place, where the room has it.
pub fn put<T: Copy>(room: &mut [T], i: usize, value: T)
    ensures { room.new ≡ set room.old i value }
{
    if i < room.len() {
        room[i] = value;
    }
}

// Four numbers, or as many as the room has, and zeros behind.
pub fn put_four(room: &mut [u64], a: u64, b: u64, c: u64, d: u64)
    ensures { room.new
        ≡ take (length room.old) (filled 0 (length room.old) (a ∷ b ∷ c ∷ d ∷ [])) }
{
    room.fill(0);
    put(room, 0, a);
    put(room, 1, b);
    put(room, 2, c);
    put(room, 3, d);
}
