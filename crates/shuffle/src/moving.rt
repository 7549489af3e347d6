// Moving numbers of eight bytes from where they lie to where like bytes do, and back: eight numbers at a time as far as they go, the rest byte by byte.
ghost use Rattle.std.specs.Prelude.{◌≡◌, ◌*◌, ◌^◌, ◌<◌, ◌≤◌, length};
ghost use Rattle.shuffle.specs.Code.{standing, together, sorted, Opposite, Moved};

use crate::words::{put_words, transpose_words, words_at};

// Where the bytes of numbers stand: byte i of number k at k × next + i × step.
#[derive(Clone, Copy)]
pub(crate) struct Layout {
    pub(crate) next: usize,
    pub(crate) step: usize,
}

impl Layout {
    // The bytes of each number together.
    pub(crate) fn together() -> Layout
        ensures { result ≡ together }
    {
        Layout { next: 8, step: 1 }
    }

    // Like bytes of n numbers together.
    pub(crate) fn sorted(n: usize) -> Layout
        ensures { result ≡ sorted n }
    {
        Layout { next: 1, step: n }
    }

    // Where the byte stands that is number p, counted number by number.
    fn place(self, p: usize) -> usize
        requires { standing self.next self.step p < 2 ^ 64 }
        ensures { result ≡ standing self.next self.step p }
    {
        p / 8 * self.next + p % 8 * self.step
    }

    // How far apart the eight runs of eight bytes of eight numbers are.
    fn run(self) -> usize
        requires { self.next * self.step < 2 ^ 64 }
        ensures { result ≡ self.next * self.step }
    {
        self.next * self.step
    }
}

// All n numbers, from one layout to the other. It is inlined, so that the steps of a layout are constants: else it takes twice as long.
#[inline(always)]
pub(crate) fn move_numbers(input: &[u8], from: Layout, out: &mut [u8], to: Layout, n: usize)
    requires opposite { Opposite n from to }
    requires n_in_bounds { 8 * n ≤ length input.now }
    requires n_in_bounds_2 { 8 * n ≤ length out.old }
    ensures { Moved (standing from.next from.step) (standing to.next to.step) (8 * n) input.now out.old out.new }
{
    for g in 0..n / 8 {
        let mut words = words_at(input, from.place(64 * g), from.run());
        transpose_words(&mut words);
        put_words(out, to.place(64 * g), to.run(), &words);
    }
    for p in 64 * (n / 8)..8 * n {
        out[to.place(p)] = input[from.place(p)];
    }
}
