// The setting of a planning call: its numbers, and whether they are in range.
// The contract cites `in_range` of specs/Setting.antt.
#![tactic(auto)]

ghost use Rattle.std.specs.Prelude.{◌≡◌};
ghost use Rattle.setting.specs.Setting.{in_range};

// The numbers of a setting: filter number, partition choice, limit on the nodes; numbers, as the caller's may be any.
// The caller's list is lent beside them.
#[derive(Clone, Copy, Debug, PartialEq, Eq)]
pub struct Options {
    pub filter: u32,
    pub choice: u32,
    pub limit: u32,
}

// Whether the numbers are in range: cause 9 refuses all others.
pub fn is_in_range(options: Options) -> bool
    ensures { result ≡ in_range options.filter options.choice options.limit }
{
    let limit = options.limit;
    (options.filter <= 7) & (options.choice <= 2) & (0 < limit) & (limit <= 1000000000)
}
