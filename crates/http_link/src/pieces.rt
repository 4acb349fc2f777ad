//! Bytes that come in pieces.
ghost use Rattle.std.specs.Prelude.{◌≡◌, ◌<◌, ◌≤◌, ◌++◌, [], length, take, drop, ◌+◌, ◌^◌};
ghost use Rattle.http_link.specs.Pieces.{joined, left_in_pieces};

/// Bytes that come in pieces: one read gives bytes of one piece.
pub struct Pieces {
    pieces: Vec<Vec<u8>>,
    /// The piece that is read.
    piece: usize,
    /// How many bytes of it have been read.
    at: usize,
}

impl Drop for Pieces {
    fn drop(self) {
        let Pieces {
            pieces: _pieces,
            piece: _piece,
            at: _at,
        } = self;
    }
}

/// The bytes from a place on.
fn rest_of(bytes: &[u8], at: usize) -> &[u8]
    ensures { result.now ≡ drop at bytes.now }
{
    if at < bytes.len() { &bytes[at..] } else { &[] }
}

/// Copies the first bytes into the room, as many as fit, and returns how many.
fn copy_front(bytes: &[u8], room: &mut [u8]) -> usize
    ensures within { result ≤ length bytes.now }
    ensures fits { result ≤ length room.new }
    ensures some { result ≡ 0 → 0 < length room.new → length bytes.now ≡ 0 }
    ensures copied { take result room.new ≡ take result bytes.now }
{
    let count = bytes.len().min(room.len());
    room[..count].copy_from_slice(&bytes[..count]);
    count
}

impl Pieces {
    /// All bytes of these pieces, in order. A piece may be empty. It does not allocate.
    pub fn new(pieces: Vec<Vec<u8>>) -> Pieces
        ensures { left_in_pieces result ≡ joined pieces.items }
    {
        Pieces {
            pieces,
            piece: 0,
            at: 0,
        }
    }

    /// Moves some bytes to the first places of the room, and returns how many: none only if none are left, or if the room is
    /// empty. It does not allocate.
    pub fn read(&mut self, room: &mut [u8]) -> usize
        ensures fits { result ≤ length room.new }
        ensures bytes { left_in_pieces self.old ≡ take result room.new ++ left_in_pieces self.new }
        ensures some { result ≡ 0 → 0 < length room.new → left_in_pieces self.new ≡ [] }
    {
        while self.piece < self.pieces.len() {
            let count = copy_front(rest_of(&self.pieces[self.piece], self.at), room);
            if count > 0 || room.is_empty() {
                self.at += count;
                return count;
            }
            self.piece += 1;
            self.at = 0;
        }
        0
    }
}
