// Whole numbers of any length, exactly: digits of base D, which is a billion, the lowest first.
#![tactic(auto)]

ghost use Rattle.std.specs.Prelude.{◌≡◌, true, false, ◌+◌, ◌*◌, ◌^◌, ◌≤◌, ◌<◌, length};
ghost use Rattle.paper.specs.Limits.{billion};
ghost use Rattle.digits.specs.Digits.{number, Number, places};

pub const BASE: u64 = paper::BILLION as u64;

// Enough for the chances of all events, each once, and as many powers of D.
pub const PLACES: usize = 2 * paper::EVENTS + 4;

// The digit `d` at place `k`, and zeros.
pub fn place(d: u64, k: usize) -> [u64; PLACES]
    requires { (d < billion) × (k < places) }
    ensures { (number result ≡ d * billion ^ k) × Number result (k + 1) × (length result ≡ places) }
{
    let mut ds = [0u64; PLACES];
    ds[k] = d;
    ds
}

// Multiplies the number in the first `used` digits by `x`. One digit more is used next.
pub fn scale(ds: &mut [u64], used: usize, x: u64)
    requires { Number ds.old used × (used < length ds.old) × (x ≤ billion) }
    ensures { (number ds.new ≡ number ds.old * x) × Number ds.new (used + 1) }
{
    let mut carry = 0;
    for k in 0..used {
        let v = ds[k] * x + carry;
        ds[k] = v % BASE;
        carry = v / BASE;
    }
    ds[used] = carry;
}

// Multiplies it by D, `times` times.
pub fn lift(ds: &mut [u64], used: usize, times: usize)
    requires { Number ds.old used × (used + times < length ds.old) }
    ensures { (number ds.new ≡ number ds.old * billion ^ times) × Number ds.new (used + times) }
{
    for k in 0..times {
        scale(ds, used + k, BASE);
    }
}

// Whether the first number is no greater than the second: the top digits decide.
pub fn at_most(xs: &[u64], ys: &[u64], used: usize) -> bool
    requires { Number xs.now used × Number ys.now used × (used ≤ length xs.now) × (used ≤ length ys.now) }
    ensures { (result ≡ true → number xs.now ≤ number ys.now) × (result ≡ false → number ys.now < number xs.now) }
{
    for k in (0..used).rev() {
        if xs[k] < ys[k] {
            return true;
        }
        if ys[k] < xs[k] {
            return false;
        }
    }
    true
}
