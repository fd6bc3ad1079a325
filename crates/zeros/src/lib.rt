// Zeroes cells, words and bytes: "Plan cells and work words are zeroed on every refusal of a planning call", the work
// words after every call, and "every lent output" of an export or an import that is refused.
// The contracts cite `zeros` of specs/Zeros.antt.
#![tactic(auto)]

ghost use Rattle.std.specs.Prelude.{◌≡◌, ℕ, List, length, replicate};
ghost use Rattle.zeros.specs.Zeros.{zeros, zeros_are};

// A number of some width, which a caller lends room for.
pub trait Number: Copy {
    const ZERO: Self;

    ghost ZERO: { Self };

    ghost zeros: { ℕ → List Self };

    ghost zeros_are: { (n : ℕ) → zeros n ≡ replicate n ZERO };

    ghost copies: { (x y : Self) → Self.is_clone x y → y ≡ x };

    ghost never_fails: { (x : Self) → Self.is_infallible x };
}

impl Number for u8 {
    const ZERO: u8 = 0;

    ghost ZERO = { 0 };

    ghost zeros = { zeros };

    ghost zeros_are = { zeros_are };

    ghost copies = { λ _ _ same. same };

    ghost never_fails = { λ _. tt };
}

impl Number for u32 {
    const ZERO: u32 = 0;

    ghost ZERO = { 0 };

    ghost zeros = { zeros };

    ghost zeros_are = { zeros_are };

    ghost copies = { λ _ _ same. same };

    ghost never_fails = { λ _. tt };
}

impl Number for u64 {
    const ZERO: u64 = 0;

    ghost ZERO = { 0 };

    ghost zeros = { zeros };

    ghost zeros_are = { zeros_are };

    ghost copies = { λ _ _ same. same };

    ghost never_fails = { λ _. tt };
}

pub fn zero<T: Number>(cells: &mut [T])
    ensures { cells.new ≡ T.zeros (length cells.old) }
{
    cells.fill(T::ZERO);
}
