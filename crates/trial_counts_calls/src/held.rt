// What cells, counts and work words hold after a call.
ghost use Rattle.std.specs.Prelude.{◌≡◌, ◌↔◌, EachIndex, IsTrue, slice_index};

use trial_parts::kept::{K, PLAN};
use trial_parts::{count, first, get, put};

// Whether each count or work word is zero.
pub fn are_zero(words: &[u64]) -> bool
    ensures { IsTrue result ↔ EachIndex words.now (λ i. slice_index words.now i ≡ 0) }
{
    words.iter().all(|word| *word == 0)
}

// Keeps the cells as the plan wanted.
pub fn want_cells(kept: &mut [usize], cells: &[u32]) {
    for (l, cell) in cells.iter().enumerate() {
        put(kept, PLAN.wrapping_add(l), *cell as usize);
    }
}

// Whether the cells are those of the plan wanted where one is found, and zeros else.
pub fn holds_plan(kept: &[usize], cells: &[u32], found: bool) -> bool {
    cells.iter().enumerate().all(|(l, cell)| {
        let wanted = if found {
            get(kept, PLAN.wrapping_add(l))
        } else {
            0
        };
        *cell as usize == wanted
    })
}

// Whether each count below n is the plans left with its vertex, and each past n is zero.
pub fn holds_counts(counts: &[u64], left: &[usize], n: usize) -> bool {
    counts.iter().enumerate().all(|(v, count)| {
        let wanted = if v < n { get(left, v) } else { 0 };
        *count as usize == wanted
    })
}

// The counts of a link's vertices together.
fn link_sum(kept: &[usize], counts: &[u64], l: usize) -> usize {
    let from = first(kept, l);
    (0..count(kept, l)).fold(0, |sum: usize, i| {
        sum.wrapping_add(get(counts, from.wrapping_add(i)))
    })
}

// Whether the counts of each link's vertices are so many together.
pub fn sums_to(kept: &[usize], counts: &[u64], plans: usize) -> bool {
    (0..get(kept, K)).all(|l| link_sum(kept, counts, l) == plans)
}
