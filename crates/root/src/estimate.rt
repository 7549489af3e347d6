// An estimate of the root in floating point, of which nothing is proved, and the exact test whether it is the nearest value.

ghost use Rattle.std.specs.Prelude.{◌≡◌, ◌*◌, ◌^◌, ◌<◌, ◌≤◌, true};
ghost use Rattle.root.specs.Code.{NearRoot};

// One step of Newton's method for w, half of 1 / √m. n is 2 * m.
fn improved(n: f64, w: f64) -> f64 {
    1.5 * w - n * w * (w * w)
}

// The root of m, from 1 to 4. The first w is found by halving the exponent in m's pattern, and three steps give it 35 digits.
// The last step adds w times what is left, m - s * s. To have that exactly, s is cut in two, the first part with 26 digits.
fn root_of(m: f64, first: f64) -> f64 {
    let n = m + m;
    let w1 = improved(n, first);
    let w2 = improved(n, w1);
    let w = improved(n, w2);
    let s = n * w;
    let high = s + 201326592.0 - 201326592.0;
    let low = s - high;
    let left = m - high * high - low * (s + high);
    s + left * w
}

// The 53 digits of the root, or near them, of the number with these 64 digits. Its exponent is changed so that it lies from 1 to 4.
pub(crate) fn estimate(bits: u64) -> u64
    ensures { (2 ^ 52 ≤ result) × (result < 2 ^ 53) }
{
    let m = ((bits & 0x001f_ffff_ffff_ffff) ^ 0x0010_0000_0000_0000) + 0x3ff0_0000_0000_0000;
    let w = 0x5fd6_eb50_c7b5_37a9 - (m >> 1);
    let s = root_of(f64::from_bits(m), f64::from_bits(w));
    if s.is_nan() {
        0x0010_0000_0000_0000
    } else {
        (s.to_bits() & 0x000f_ffff_ffff_ffff) | 0x0010_0000_0000_0000
    }
}

// Whether q is the whole number nearest to the root of a * 2^52. With q = h * 2^26 + l, a * 2^52 - q * q is found in three differences,
// of which none may get too large.
pub(crate) fn is_nearest(a: u64, q: u64) -> bool
    requires { (a < 2 ^ 54) × (2 ^ 52 ≤ q) × (q < 2 ^ 53) }
    ensures { result ≡ true → NearRoot (a * 2 ^ 52) q }
{
    let h = q >> 26;
    let l = q & 0x03ff_ffff;
    let d = a.wrapping_sub(h * h);
    let e = (d << 25).wrapping_sub(h * l);
    let f = (e << 27).wrapping_add(q - 1);
    d < 0x2000_0000 && e.wrapping_add(0x0800_0000) < 0x1000_0000 && f.wrapping_sub(l * l) < q * 2
}
