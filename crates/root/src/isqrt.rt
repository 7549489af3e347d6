// The root of a whole number, cut to a whole number, digit by digit.

ghost use Rattle.std.specs.Prelude.{◌*◌, ◌/◌, ◌^◌, ◌<◌, ◌≤◌};
ghost use Rattle.root.specs.Code.{Rooted};
ghost use Rattle.root.specs.Sqrt.{IsRoot};

// A root and what is left of the number under it.
#[derive(Clone, Copy)]
pub struct Root {
    pub q: u64,
    pub r: u64,
}

// As many binary digits of the root as there are turns, each from two digits of the word, from its top on. After the word's own 32 pairs of digits come zeros.
pub(crate) fn root_of_word(word: u64, turns: u32) -> Root
    requires { turns ≤ 53 }
    ensures rooted { Rooted (word * 4 ^ turns / 4 ^ 32) result.q result.r }
    ensures short { result.q < 2 ^ turns }
{
    let mut left = word;
    let mut root = Root { q: 0, r: 0 };
    for _turn in 0..turns {
        let t = root.r * 4 + (left >> 62);
        let u = root.q * 4 + 1;
        // both stand before the test, so that it is no jump, which takes three times as long
        let one = Root {
            q: root.q * 2 + 1,
            r: t.wrapping_sub(u),
        };
        let zero = Root {
            q: root.q * 2,
            r: t,
        };
        left <<= 2;
        root = if u <= t { one } else { zero };
    }
    root
}

// The largest number whose square is at most `n`.
pub fn isqrt_u32(n: u32) -> u32
    ensures { IsRoot n result }
{
    root_of_word(u64::from(n) << 32, 16).q as u32
}

// The largest number whose square is at most `n`.
pub fn isqrt_u64(n: u64) -> u64
    ensures { IsRoot n result }
{
    root_of_word(n, 32).q
}
