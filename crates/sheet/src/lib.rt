// The reader of job sheets: accepted, or the first cause that refuses the sheet; and where its counts and sections are.
// The contracts cite `Sheet`, what header and rows have to say, and `Refusal`, the causes 1 to 8 and 16 in the order
// tested.
#![tactic(auto)]

mod freq_rows;
mod header;
mod link_rows;
mod places;
mod sections;
mod width_rows;

ghost use Rattle.std.specs.Prelude.{◌≡◌};
ghost use Rattle.sheet.specs.Refusal.{cause_number, number_of, refusal};

use header::{counts_ok, offsets_ok};
pub use header::{form_ok, link_count_ok};
pub use places::{end_at, freqs_at, freqs_of, links_of, pairs_at, pairs_of, rules_at, rules_of};
use sections::sections;

// Why the reader refuses a sheet.
#[derive(Clone, Copy, Debug, PartialEq, Eq)]
pub enum Cause {
    Form,
    Links,
    Counts,
    Offsets,
    LinkRow,
    Width,
    Frequency,
    RuleRow,
    PairRow,
}

// A link row.
#[derive(Clone, Copy)]
struct Row {
    first: usize,
    count: usize,
}

// The paper's number for a cause.
impl From<Cause> for u32 {
    ghost from_gives = { λ cause number. number ≡ cause_number cause };

    fn from(cause: Cause) -> u32 {
        match cause {
            Cause::Form => 1,
            Cause::Links => 2,
            Cause::Counts => 3,
            Cause::Offsets => 4,
            Cause::LinkRow => 5,
            Cause::Width => 16,
            Cause::Frequency => 6,
            Cause::RuleRow => 7,
            Cause::PairRow => 8,
        }
    }
}

// The reader, for any bytes: accepted, or the first cause that refuses the sheet.
pub fn check_sheet(s: &[u8]) -> Result<(), Cause>
    ensures { number_of result ≡ refusal s.now }
{
    if !form_ok(s) {
        return Err(Cause::Form);
    }
    if !link_count_ok(s) {
        return Err(Cause::Links);
    }
    if !counts_ok(s) {
        return Err(Cause::Counts);
    }
    if !offsets_ok(s) {
        return Err(Cause::Offsets);
    }
    sections(s)
}
