// The sections of an accepted sheet after its link section, each the part of the sheet that begins at its offset.
ghost use Rattle.std.specs.Prelude.{◌≡◌};
ghost use Rattle.sheet.specs.Sheet.{freq_part, rule_part, pair_part};
ghost use Rattle.sheet.specs.Accepted.{Accepted};

use sheet::{freqs_at, pairs_at, rules_at};

// Each section is one expression, with its own offset: a shared function would be no shorter.

// The frequency section.
pub fn freq_part(s: &[u8]) -> &[u8]
    requires { Accepted s.now }
    ensures { result.now ≡ freq_part s.now }
{
    &s[freqs_at(s)..]
}

// The rule section.
pub fn rule_part(s: &[u8]) -> &[u8]
    requires { Accepted s.now }
    ensures { result.now ≡ rule_part s.now }
{
    &s[rules_at(s)..]
}

// The pair section.
pub fn pair_part(s: &[u8]) -> &[u8]
    requires { Accepted s.now }
    ensures { result.now ≡ pair_part s.now }
{
    &s[pairs_at(s)..]
}
