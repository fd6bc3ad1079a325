// The sections of a sheet whose header is right, each read as the part of the sheet that begins at its offset. Links
// are looked up in the sheet itself.
ghost use Rattle.std.specs.Prelude.{◌≡◌, true};
ghost use Rattle.sheet.specs.Sheet.{k_of, n_of, q_of, t_of, freq_part, rule_part, pair_part};
ghost use Rattle.rule_sections.specs.Rules.{rules_ok, pairs_ok};
ghost use Rattle.sheet.specs.Sheet.{links_ok, widths_ok, freqs_ok};
ghost use Rattle.sheet.specs.Refusal.{number_of, passing, unless, section_cause};
ghost use Rattle.sheet.specs.Accepted.{Head};

use crate::Cause;
use crate::freq_rows::freqs;
use crate::link_rows::links;
use crate::places::{freqs_at, freqs_of, links_of, pairs_at, pairs_of, rules_at, rules_of};
use crate::width_rows::widths;
use rule_sections::{pairs, rules};
use sheet_rows::link_bytes;

// The widths of the link section.
fn widths_right(s: &[u8]) -> bool
    requires { Head s.now }
    ensures { result ≡ widths_ok s.now (k_of s.now) }
{
    widths(&s[40..], link_bytes(s), links_of(s))
}

// The link section.
fn link_section(s: &[u8]) -> Result<(), Cause>
    requires { Head s.now }
    ensures { number_of result ≡
        (passing (links_ok s.now (k_of s.now) (n_of s.now)) 5 λ _.
        unless (widths_ok s.now (k_of s.now)) 16) }
{
    let wide = widths_right(s);
    links(&s[40..], link_bytes(s), links_of(s), freqs_of(s), wide)
}

// The frequency section, after the link section was accepted.
fn freq_section(s: &[u8]) -> bool
    requires { Head s.now × (links_ok s.now (k_of s.now) (n_of s.now) ≡ true) }
    ensures { result ≡ freqs_ok s.now (freq_part s.now) (k_of s.now) }
{
    let at = freqs_at(s);
    freqs(s, &s[at..], links_of(s))
}

// The rule section.
fn rule_section(s: &[u8]) -> bool
    requires { Head s.now }
    ensures { result ≡ rules_ok (rule_part s.now)
        (k_of s.now) (q_of s.now) (t_of s.now) }
{
    let at = rules_at(s);
    rules(&s[at..], links_of(s), rules_of(s), pairs_of(s))
}

// The pair section, after the rule section was accepted.
fn pair_section(s: &[u8]) -> bool
    requires { Head s.now × (rules_ok (rule_part s.now) (k_of s.now) (q_of s.now) (t_of s.now) ≡ true) }
    ensures { result ≡ pairs_ok s.now (rule_part s.now)
        (pair_part s.now) (q_of s.now) }
{
    let at = rules_at(s);
    let from = pairs_at(s);
    pairs(s, &s[at..], &s[from..], rules_of(s))
}

// The sections in turn.
pub fn sections(s: &[u8]) -> Result<(), Cause>
    requires { Head s.now }
    ensures { number_of result ≡ section_cause s.now }
{
    link_section(s)?;
    if !freq_section(s) {
        return Err(Cause::Frequency);
    }
    if !rule_section(s) {
        return Err(Cause::RuleRow);
    }
    if !pair_section(s) {
        return Err(Cause::PairRow);
    }
    Ok(())
}
