// Rooms of a fixed size, with how many of their places are taken. An `ArrayVec` of the kit is not `Copy`, and says nothing of what lies past
// its length, while equal readings have to be equal in every field. A struct of our own over `[T; N]` would be no plainer: in Rattle each call through
// a generic struct with an array of its parameter owes that the array is smaller than 2^63.
ghost use Rattle.std.specs.Prelude.{◌≡◌, ◌<◌, ◌^◌};
ghost use Rattle.sense.specs.Drafted.{kept_with, one_more};

// One more item, if there is a place for it.
pub(crate) fn keep<T: Copy, const N: usize>(room: &mut [T; N], len: &mut u8, item: T)
    requires { N < 2 ^ 8 }
    ensures room { room.new ≡ kept_with N room.old len.old item }
    ensures len { len.new ≡ one_more N len.old }
{
    if (*len as usize) < N {
        room[*len as usize] = item;
        *len += 1;
    }
}
