// Reads and writes of numbers at any place of a table, whatever the type of its cells. Past the end a read gives 0 and
// a write does nothing.
ghost use Rattle.std.specs.Prelude.{◌≡◌, ℕ, ◌%◌, ◌^◌, length, slice_index_or, slice_set};
ghost use Rattle.std.proofs.Common.{refl};

// A cell of a table: the number that it holds, and any number cut to what it can hold.
pub trait Cell: Copy {
    ghost number: { Self → ℕ };

    ghost cut: { ℕ → Self };

    fn number(self) -> usize
        ensures { result ≡ number self };

    fn cut(x: usize) -> Self
        ensures { result ≡ cut x };

    ghost zero_is_kept: { number (cut 0) ≡ 0 };
}

impl Cell for u8 {
    ghost number = { λ x. x };

    ghost cut = { λ x. x % 2 ^ 8 };

    ghost zero_is_kept = { refl };

    fn number(self) -> usize {
        usize::from(self)
    }

    fn cut(x: usize) -> u8 {
        (x % 256) as u8
    }
}

impl Cell for u32 {
    ghost number = { λ x. x };

    ghost cut = { λ x. x % 2 ^ 32 };

    ghost zero_is_kept = { refl };

    fn number(self) -> usize {
        self as usize
    }

    fn cut(x: usize) -> u32 {
        (x % 4294967296) as u32
    }
}

impl Cell for u64 {
    ghost number = { λ x. x };

    ghost cut = { λ x. x };

    ghost zero_is_kept = { refl };

    fn number(self) -> usize {
        self as usize
    }

    fn cut(x: usize) -> u64 {
        x as u64
    }
}

impl Cell for usize {
    ghost number = { λ x. x };

    ghost cut = { λ x. x };

    ghost zero_is_kept = { refl };

    fn number(self) -> usize {
        self
    }

    fn cut(x: usize) -> usize {
        x
    }
}

pub fn get<T: Cell>(s: &[T], i: usize) -> usize
    ensures { result ≡ T.number (slice_index_or s.now i (T.cut 0)) }
{
    if i < s.len() { s[i].number() } else { 0 }
}

pub fn put<T: Cell>(s: &mut [T], i: usize, x: usize)
    ensures { s.new ≡ slice_set s.old i (T.cut x) }
{
    if i < s.len() {
        s[i] = T::cut(x);
    }
}

// Copies cells, as many as there is room for, and zeros where there are fewer.
pub fn copy_cells<T: Cell>(s: &[T], out: &mut [T])
    ensures { length out.new ≡ length out.old }
{
    for (i, cell) in out.iter_mut().enumerate() {
        *cell = s.get(i).copied().unwrap_or(T::cut(0));
    }
}
