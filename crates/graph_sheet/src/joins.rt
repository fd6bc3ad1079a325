// How many pairs join two links, and which links get a rule.
ghost use Rattle.std.specs.Prelude.{◌≡◌, ◌+◌, ◌*◌, ◌<◌, length};
ghost use Rattle.sets.specs.Below.{count};
ghost use Rattle.vset.specs.Words.{has};
ghost use Rattle.dimacs.specs.Made.{joined};
ghost use Rattle.graph_read.specs.Graphs.{Links, CodesFit};
ghost use Rattle.graph_sheet.specs.Pairs.{FirstsTo, GraphLaid, counts_in, adjacent_in};
ghost use Rattle.graph_sheet.specs.Pairs.{TwoOf, Among, joined_in, PairCount, RuleTold};

use graph_read::{GraphSizes, is_joined};

// Two links: the first vertex and the count of each.
#[derive(Clone, Copy)]
pub struct Two {
    pub first: usize,
    pub count: usize,
    pub second: usize,
    pub width: usize,
}

// Rules, and the pairs of their links.
#[derive(Clone, Copy)]
pub struct Totals {
    pub rules: usize,
    pub pairs: usize,
}

// Keeps the first vertex of each link.
pub fn keep_firsts(counts: &[u64], s: GraphSizes, firsts: &mut [u64])
    requires { Links counts.now s.links × (length firsts.old ≡ 64) }
    ensures { FirstsTo (counts_in counts.now s) firsts.new s.links }
{
    let mut first: u64 = 0;
    for l in 0..s.links {
        firsts[l] = first;
        first += counts[l];
    }
}

// Links a and b.
pub fn two_links(counts: &[u64], firsts: &[u64], s: GraphSizes, a: usize, b: usize) -> Two
    requires { Links counts.now s.links × FirstsTo (counts_in counts.now s) firsts.now s.links
        × (a < s.links) × (b < s.links) }
    ensures { TwoOf (counts_in counts.now s) a b result }
{
    Two {
        first: firsts[a] as usize,
        count: counts[a] as usize,
        second: firsts[b] as usize,
        width: counts[b] as usize,
    }
}

// How many vertices of the second link are adjacent to position x of the first.
fn row_count(codes: &[u64], n: usize, p: Two, x: usize) -> usize
    requires { CodesFit n (length codes.now) × Among n p × (x < p.count) }
    ensures { result ≡ count p.width (joined_in (joined n (has codes.now)) p x) }
{
    let u = p.first + x;
    let mut m = 0;
    for y in 0..p.width {
        m += usize::from(is_joined(codes, n, u, p.second + y));
    }
    m
}

// How many pairs join two links.
fn pair_count(codes: &[u64], n: usize, p: Two) -> usize
    requires { CodesFit n (length codes.now) × Among n p }
    ensures { PairCount (joined n (has codes.now)) p result }
{
    let mut m = 0;
    for x in 0..p.count {
        m += row_count(codes, n, p, x);
    }
    m
}

// How many pairs join the links with the code z, if they get a rule.
pub fn rule_at(
    counts: &[u64],
    firsts: &[u64],
    codes: &[u64],
    s: GraphSizes,
    z: usize,
) -> Option<usize>
    requires { GraphLaid counts.now firsts.now s (length codes.now) × (z < s.links * s.links) }
    ensures { RuleTold (counts_in counts.now s) (adjacent_in codes.now s) z result }
{
    let k = s.links;
    let a = z / k;
    let b = z % k;
    if a >= b {
        return None;
    }
    let p = two_links(counts, firsts, s, a, b);
    let pairs = pair_count(codes, s.vertices, p);
    let most = p.count * p.width;
    (pairs != most).then_some(pairs)
}
