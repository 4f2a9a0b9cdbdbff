// Numbers of cuts, exact up to 2^64 - 1 and otherwise only known to be above it; and lists of them, two words for each.
ghost use Rattle.std.specs.Prelude.{◌≡◌, ◌+◌, ◌*◌, ◌<◌, length};
ghost use Rattle.remaining.specs.Counting.{capped, amount, many_at, Stored};

// The sum. No number is one above the largest.
pub fn plus(x: Option<u64>, y: Option<u64>) -> Option<u64>
    ensures { amount result ≡ capped (amount x + amount y) }
{
    match (x, y) {
        (Some(x), Some(y)) => x.checked_add(y),
        _ => None,
    }
}

// The product: 0 times a number above the largest is 0.
pub fn times(x: Option<u64>, y: Option<u64>) -> Option<u64>
    ensures { amount result ≡ capped (amount x * amount y) }
{
    match (x, y) {
        (Some(x), Some(y)) => x.checked_mul(y),
        (Some(n), None) => if n == 0 { Some(0) } else { None },
        (None, Some(n)) => if n == 0 { Some(0) } else { None },
        (None, None) => None,
    }
}

// The number of `i` in an area: the second of its words is 0, or else the number is above the largest.
pub fn many_at(area: &[u64], i: usize) -> Option<u64>
    requires { 2 * i + 1 < length area.now }
    ensures { amount result ≡ capped (many_at area.now i) }
{
    if area[2 * i + 1] == 0 {
        Some(area[2 * i])
    } else {
        None
    }
}

// Stores the number of `i`.
pub fn put_many(area: &mut [u64], i: usize, x: Option<u64>)
    requires { 2 * i + 1 < length area.old }
    ensures { Stored area.old i (amount x) area.new }
{
    match x {
        Some(low) => {
            area[2 * i] = low;
            area[2 * i + 1] = 0;
        }
        None => {
            area[2 * i] = 0;
            area[2 * i + 1] = 1;
        }
    }
}

// Adds to the number of `i`.
pub fn add_many(area: &mut [u64], i: usize, x: Option<u64>)
    requires { 2 * i + 1 < length area.old }
    ensures { Stored area.old i (capped (many_at area.old i + amount x)) area.new }
{
    let y = many_at(area, i);
    put_many(area, i, plus(y, x));
}
