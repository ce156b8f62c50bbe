// Code points in order, in a room of a fixed size.
ghost use Rattle.std.specs.Prelude.{◌≡◌, ◌<◌, ◌≤◌, List, ℕ, [], ◌∷◌, ◌++◌, length, take, drop, ◌==◌};
ghost use Rattle.keys.specs.Rooms.{zeros_after, length_held, room_back};

use std::marker::Model;

// At most N code points: the first `len` of `room`. The rest of the room is zeros. A room and a length, since libraries use no heap and a name has
// to be `Copy`.
#[derive(Clone, Copy)]
pub(crate) struct Points<const N: usize> {
    room: [u32; N],
    len: usize,
}

// A clause sees the code points as a list.
impl<const N: usize> Model for Points<N> {
    ghost Value = { List ℕ };

    ghost view = { λ p. take p.len p.room };

    ghost invariant = { λ p. (length p.room ≡ N) × (p.len ≤ N) × (drop p.len p.room ≡ zeros_after N p.len) };

    ghost inverse = { λ l. record { room = l ++ zeros_after N (length l); len = length l } };

    ghost inverse_ok = { λ a h i. record { room = room_back a.room N a.len h.0 h.1 h.2 i; len = length_held a.room N a.len h.0 h.1 i } };
}

impl<const N: usize> Points<N> {
    pub(crate) fn new() -> Points<N>
        ensures { result ≡ [] }
    {
        Points {
            room: [0; N],
            len: 0,
        }
    }

    // These code points, in a room of their own.
    pub(crate) fn from_slice(points: &[u32]) -> Points<N>
        requires { length points.now ≤ N }
        ensures { result ≡ points.now }
    {
        let len = points.len();
        let mut room = [0; N];
        room[..len].copy_from_slice(points);
        Points { room, len }
    }

    pub(crate) fn is_full(&self) -> bool
        ensures { result ≡ (length self.now == N) }
    {
        self.len == N
    }

    // One code point more.
    pub(crate) fn push(&mut self, point: u32)
        requires { length self.old < N }
        ensures { self.new ≡ self.old ++ point ∷ [] }
    {
        self.room[self.len] = point;
        self.len += 1;
    }

    pub(crate) fn as_slice(&self) -> &[u32]
        ensures { result.now ≡ self.now }
    {
        &self.room[..self.len]
    }
}
