// Numbers by their 64 bits.

// The number that the bits stand for; every NaN pattern is NaN.
pub(crate) fn float(bits: u64) -> f64 {
    if 0x7ff0_0000_0000_0000 < bits % 0x8000_0000_0000_0000 {
        return f64::NAN;
    }
    f64::from_bits(bits)
}

// The number's bits; one pattern for every NaN.
pub(crate) fn pattern(x: f64) -> u64 {
    if x.is_nan() {
        return 0x7ff8_0000_0000_0000;
    }
    x.to_bits()
}
