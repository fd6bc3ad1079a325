// What a sheet's form says, and the fields of its rows, each by the row's number in its section.
// The contracts cite `Form`, what each form has, and `Rows`: how many bytes a row takes, and where its fields are.
#![tactic(auto)]

mod forms;
mod links;

ghost use Rattle.std.specs.Prelude.{◌≡◌, ◌<◌};
ghost use Rattle.sheet_rows.specs.Rows.{HasRow, freq_bytes, rule_bytes, pair_bytes};
ghost use Rattle.sheet_rows.specs.Rows.{freq as freq_of, pair_first, pair_second};
ghost use Rattle.sheet_rows.specs.Rows.{rule_a, rule_b, rule_kind, rule_count, rule_value};

pub use forms::{form_of, link_bytes};
pub use links::{link_count, link_first, link_width, row_count, row_first, row_width};
use wire::{half, word};

// What a form of sheet has: whether there is one, the bytes of a link row, the most links and frequencies, and the work
// words that planning needs.
#[derive(Clone, Copy)]
pub struct Form {
    // a field, as the contracts ask for the sizes of every number, of a form or not
    pub known: bool,
    pub bytes: usize,
    pub links: usize,
    pub freqs: usize,
    pub words: usize,
}

// Each field below is one expression over `half` or `word`: a shared reader would be no shorter.

// The v-th frequency.
pub fn freq(p: &[u8], v: usize) -> usize
    requires { HasRow freq_bytes p.now v }
    ensures { (result ≡ freq_of p.now v) × (result < 4294967296) }
{
    word(p, 4 * v)
}

// The lower link of rule j.
pub fn rule_a(p: &[u8], j: usize) -> usize
    requires { HasRow rule_bytes p.now j }
    ensures { (result ≡ rule_a p.now j) × (result < 65536) }
{
    half(p, 12 * j)
}

// The higher link of rule j.
pub fn rule_b(p: &[u8], j: usize) -> usize
    requires { HasRow rule_bytes p.now j }
    ensures { (result ≡ rule_b p.now j) × (result < 65536) }
{
    half(p, 12 * j + 2)
}

// The kind of rule j.
pub fn rule_kind(p: &[u8], j: usize) -> usize
    requires { HasRow rule_bytes p.now j }
    ensures { (result ≡ rule_kind p.now j) × (result < 65536) }
{
    half(p, 12 * j + 4)
}

// The count of rule j.
pub fn rule_count(p: &[u8], j: usize) -> usize
    requires { HasRow rule_bytes p.now j }
    ensures { (result ≡ rule_count p.now j) × (result < 65536) }
{
    half(p, 12 * j + 6)
}

// The value of rule j.
pub fn rule_value(p: &[u8], j: usize) -> usize
    requires { HasRow rule_bytes p.now j }
    ensures { (result ≡ rule_value p.now j) × (result < 4294967296) }
{
    word(p, 12 * j + 8)
}

// The position in the lower link's list, of pair i.
pub fn pair_first(p: &[u8], i: usize) -> usize
    requires { HasRow pair_bytes p.now i }
    ensures { (result ≡ pair_first p.now i) × (result < 65536) }
{
    half(p, 4 * i)
}

// The position in the higher link's list, of pair i.
pub fn pair_second(p: &[u8], i: usize) -> usize
    requires { HasRow pair_bytes p.now i }
    ensures { (result ≡ pair_second p.now i) × (result < 65536) }
{
    half(p, 4 * i + 2)
}
