// Stretches of vertices, added to a row of w words or taken from it.
ghost use Rattle.std.specs.Prelude.{◌+◌, ◌*◌, ◌≤◌, length};
ghost use Rattle.sets.specs.Sets.{◌∪◌, ◌∖◌};
ghost use Rattle.rows.specs.Rows.{set_at, Put};
ghost use Rattle.rule_strikes.specs.Strikes.{stretch};

// The vertices from `first` up to `end` are added to row `to`.
pub fn add_span(part: &mut [u64], w: usize, to: usize, first: usize, end: usize)
    requires { (to + w ≤ length part.old) × (first ≤ end) × (end ≤ 64 * w) }
    ensures { Put (set_at part.old w to ∪ stretch first end) w to part.old
        part.new }
{
    for v in first..end {
        rows::insert(part, w, to, v);
    }
}

// The vertices from `first` up to `end` are taken from row `to`.
pub fn take_span(part: &mut [u64], w: usize, to: usize, first: usize, end: usize)
    requires { (to + w ≤ length part.old) × (first ≤ end) × (end ≤ 64 * w) }
    ensures { Put (set_at part.old w to ∖ stretch first end) w to part.old
        part.new }
{
    for v in first..end {
        rows::remove(part, w, to, v);
    }
}
