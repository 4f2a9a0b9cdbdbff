// Text put into an array that the caller lends, and numbers in decimal.
#![tactic(auto)]

ghost use Rattle.std.specs.Prelude.{◌≡◌, ◌+◌, ◌≤◌, length};
ghost use Rattle.paper.specs.Exporting.{decimal};
ghost use Rattle.decimals.specs.Places.{Put, Ends};

// No number of 64 bits has more digits.
pub const DIGITS: usize = 20;

// Puts the bytes of `s` behind the first `at` bytes of the text: the place behind them.
pub fn put(text: &mut [u8], at: usize, s: &[u8]) -> usize
    requires { at + length s.now ≤ length text.old }
    ensures { Put text.old at s.now text.new result }
{
    let end = at + s.len();
    text[at..end].copy_from_slice(s);
    end
}

// Writes a number in decimal to the end of a room of 20 bytes: the place of its first digit.
pub fn digits(n: u64, room: &mut [u8]) -> usize
    requires { length room.old ≡ 20 }
    ensures { Ends result room.new (decimal n) }
{
    let mut rest = n;
    let mut at = DIGITS;
    while 10 <= rest {
        at -= 1;
        room[at] = b'0' + (rest % 10) as u8;
        rest /= 10;
    }
    at -= 1;
    room[at] = b'0' + rest as u8;
    at
}
