// Spacing to spare, a signed number of half kHz: of a rule's numbers and without a rule. The contracts cite
// specs/Spacing.antt.
#![tactic(auto)]

ghost use Rattle.std.specs.Prelude.{◌≡◌, ◌^◌, ◌<◌};
ghost use Rattle.std.proofs.Math.IntN.{sub_ℕ};
ghost use Rattle.spacing.specs.Spacing.{distance as distance_of, zero_or_more, spare_by, spare_without};

// How far x and y differ.
pub fn distance(x: usize, y: usize) -> usize
    ensures { result ≡ distance_of x y }
{
    x.abs_diff(y)
}

// Whether a pair with so much to spare is allowed.
pub fn is_allowed(spare: i64) -> bool
    ensures { result ≡ zero_or_more spare }
{
    spare >= 0
}

// What frequencies so far apart have to spare without a rule.
pub fn spare_without(apart: u32) -> i64
    ensures { result ≡ spare_without apart }
{
    2 * i64::from(apart) - 1
}

// What a rule of a kind and value leaves two frequencies so far apart, whose positions are listed or not, of links with
// these widths together. The kind is a number, as a sheet's may be any.
#[tactic(auto, using(std::proofs::lemmas::Bool::Decides::nat_tests), unfolding(crate::specs::Spacing::spare_by))]
pub fn spare_by(kind: usize, value: u32, widths: u32, apart: u32, listed: bool) -> i64
    ensures { result ≡ spare_by kind value widths apart listed }
{
    match kind {
        1 => 2 * i64::from(apart) - 2 * i64::from(value) - i64::from(widths),
        2 => -2 * i64::from(apart.abs_diff(value)),
        3 if listed => 0,
        _ => -1,
    }
}
