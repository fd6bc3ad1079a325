// Equal frequencies: vertices on one frequency are struck from each other's rows. A table of buckets finds them, so
// that no vertex is compared with all others.
ghost use Rattle.std.specs.Prelude.{◌+◌, ◌*◌, ◌<◌, ◌≤◌, ◌≡◌, length};
ghost use Rattle.sets.specs.Sets.{◌∩◌, ◌∖◌, just};
ghost use Rattle.sheet_rows.specs.Rows.{HasRow, freq_bytes};
ghost use Rattle.sheet_rows.specs.Form.{most_freqs};
ghost use Rattle.rows.specs.Rows.{set_at, Put};
ghost use Rattle.rule_strikes.specs.Rows.{RowsFit};
ghost use Rattle.rule_strikes.specs.Strikes.{Rewritten};
ghost use Rattle.graph.specs.Buckets.{buckets, most_wide, bucket_of, Filed, sharing, on_freq, separated};

use cliques::Place;
use sheet_rows::freq;

// Where the bucket of the frequency x begins, of buckets of `wide` words.
fn bucket_at(x: usize, wide: usize) -> usize
    requires { wide ≤ most_wide }
    ensures { (result ≡ bucket_of x * wide) × (result + wide ≤ buckets * most_wide) }
{
    x % 65536 * 40503 % 65536 / 512 * wide
}

// Vertex v enters the bucket of its frequency.
fn file_vertex(table: &mut [u64], wide: usize, fs: &[u8], v: usize)
    requires { Filed fs.now v wide table.old × (wide ≤ most_wide) × (v < 64 * wide)
        × HasRow freq_bytes fs.now v }
    ensures { Filed fs.now (v + 1) wide table.new }
{
    let at = bucket_at(freq(fs, v), wide);
    rows::insert(table, wide, at, v);
}

// The first n vertices enter their buckets.
fn file_vertices(table: &mut [u64], wide: usize, fs: &[u8], n: usize)
    requires { Filed fs.now 0 wide table.old × (wide ≤ most_wide) × (n ≤ 64 * wide)
        × (freq_bytes * n ≤ length fs.now) }
    ensures { Filed fs.now n wide table.new }
{
    for v in 0..n {
        file_vertex(table, wide, fs, v);
    }
}

// Vertex v is struck from row `to`, where it is on the frequency x.
fn strike_on(part: &mut [u64], w: usize, to: usize, fs: &[u8], x: usize, v: usize)
    requires { (to + w ≤ length part.old) × (v < 64 * w) × HasRow freq_bytes fs.now v }
    ensures { Put (set_at part.old w to ∖ (just v ∩ sharing fs.now x)) w to
        part.old part.new }
{
    if freq(fs, v) != x {
        return;
    }
    rows::remove(part, w, to, v);
}

// The vertices on the frequency x are struck from row `to`.
fn strike_bucket(
    part: &mut [u64],
    w: usize,
    to: usize,
    table: &[u64],
    wide: usize,
    fs: &[u8],
    n: usize,
    x: usize,
)
    requires { Filed fs.now n wide table.now × (wide ≤ most_wide) × (n ≤ 64 * wide)
        × (freq_bytes * n ≤ length fs.now) × (to + w ≤ length part.old) × (n ≤ 64 * w) }
    ensures { Put (set_at part.old w to ∖ on_freq fs.now n x) w to part.old
        part.new }
{
    let at = bucket_at(x, wide);
    let mut v = rows::next_member(table, wide, at, 0);
    while v < n {
        strike_on(part, w, to, fs, x, v);
        v = rows::next_member(table, wide, at, v + 1);
    }
}

// The vertices on the frequency of u are struck from row u.
fn separate_row(part: &mut [u64], place: Place, table: &[u64], wide: usize, fs: &[u8], u: usize)
    requires { Filed fs.now place.n wide table.now × (wide ≤ most_wide) × (place.n ≤ 64 * wide)
        × (freq_bytes * place.n ≤ length fs.now)
        × RowsFit place.w place.graph place.n (length part.old) × (u < place.n) }
    ensures { Rewritten (separated fs.now place.n) u (u + 1)
        place.w place.graph place.n part.old part.new }
{
    let row = rows::row_at(place.graph, place.w, u, place.n);
    strike_bucket(part, place.w, row, table, wide, fs, place.n, freq(fs, u));
}

// The vertices on its frequency are struck from each row.
fn separate_all(part: &mut [u64], place: Place, table: &[u64], wide: usize, fs: &[u8])
    requires { Filed fs.now place.n wide table.now × (wide ≤ most_wide) × (place.n ≤ 64 * wide)
        × (freq_bytes * place.n ≤ length fs.now)
        × RowsFit place.w place.graph place.n (length part.old) }
    ensures { Rewritten (separated fs.now place.n) 0 place.n
        place.w place.graph place.n part.old part.new }
{
    for u in 0..place.n {
        separate_row(part, place, table, wide, fs, u);
    }
}

// The same with a table of its own, whose buckets have a bit for each vertex.
pub fn separate_rows(part: &mut [u64], place: Place, fs: &[u8])
    requires { (place.n ≤ most_freqs) × (freq_bytes * place.n ≤ length fs.now)
        × RowsFit place.w place.graph place.n (length part.old) }
    ensures { Rewritten (separated fs.now place.n) 0 place.n
        place.w place.graph place.n part.old part.new }
{
    let wide = place.n.div_ceil(64);
    let mut table = [0u64; 2048];
    file_vertices(&mut table, wide, fs, place.n);
    separate_all(part, place, &table, wide, fs);
}
