// The window of an output: `size` bytes from the offset `at` on, in a buffer of `len` bytes.
ghost use Rattle.std.specs.Prelude.{◌≡◌};
ghost use Rattle.numbers.specs.Room.{has_room};

// Whether the window lies inside the buffer. No sum of the two numbers is made, so that none can wrap.
#[tactic(auto, unfolding(crate::specs::Room::has_room))]
pub fn has_room(len: usize, at: usize, size: usize) -> bool
    ensures { result ≡ has_room len at size }
{
    size <= len && at <= len - size
}
