// Numbers as bytes, little-endian, written into a lent output and followed by zeros.
// The contracts cite specs/NumberBytes.antt, over the bytes of a number.
#![tactic(auto)]

ghost use Rattle.std.specs.Prelude.{◌≡◌, ℕ, List, true, refl, length, map};
ghost use Rattle.std.specs.Int.{is_in_range};
ghost use Rattle.number_bytes.specs.NumberBytes.{byte_at, number_bytes, same_values};

// A number of as many bytes as its type has.
pub trait Number: Copy + Into<u64> {
    const BYTES: usize;

    ghost BYTES: { ℕ };

    // Which number it is.
    ghost value: { Self → ℕ };

    ghost bytes: { List Self → ℕ → List ℕ };

    ghost width: { is_in_range 1 8 BYTES ≡ true };

    ghost converts_to_value: { (x : Self) (n : ℕ) → Self.converts x n → n ≡ value x };

    ghost bytes_of_values: { (xs : List Self) (room : ℕ) → bytes xs room ≡ number_bytes BYTES (map value xs) room };
}

impl Number for u32 {
    const BYTES: usize = 4;

    ghost BYTES = { 4 };

    ghost value = { λ x. x };

    ghost bytes = { number_bytes 4 };

    ghost width = { refl };

    ghost converts_to_value = { λ _ _ same. same };

    ghost bytes_of_values = { same_values 4 };
}

impl Number for u64 {
    const BYTES: usize = 8;

    ghost BYTES = { 8 };

    ghost value = { λ x. x };

    ghost bytes = { number_bytes 8 };

    ghost width = { refl };

    ghost converts_to_value = { λ _ _ same. same };

    ghost bytes_of_values = { same_values 8 };
}

// Byte i of the numbers, and 0 past them.
fn byte_of<T: Number>(numbers: &[T], i: usize) -> u8
    ensures { result ≡ byte_at T.BYTES (map T.value numbers.now) i }
{
    match numbers.get(i / T::BYTES) {
        Some(number) => {
            let number: u64 = (*number).into();
            number.to_le_bytes()[i % T::BYTES]
        }
        None => 0,
    }
}

// Puts the numbers' bytes, the lowest of each first, and zeros after them.
pub fn put_numbers<T: Number>(from: &[T], to: &mut [u8])
    ensures { to.new ≡ T.bytes from.now (length to.old) }
{
    for (i, byte) in to.iter_mut().enumerate() {
        *byte = byte_of(from, i);
    }
}
