// Whether cells are an assignment that keeps every rule of an accepted sheet, on no channel on air.
ghost use Rattle.std.specs.Prelude.{◌≡◌, true, ◌+◌, ◌*◌, ◌<◌, ◌≤◌, length};
ghost use Rattle.sets.specs.Below.{all};
ghost use Rattle.sheet_rows.specs.Rows.{freq_bytes};
ghost use Rattle.sheet.specs.Sheet.{k_of, q_of, rule_part};
ghost use Rattle.sheet.specs.Accepted.{Accepted};
ghost use Rattle.channels.specs.Channels.{channels_ok};
ghost use Rattle.pair_test.specs.Layers.{InLink};
ghost use Rattle.pair_test.specs.Asked.{Sought};
ghost use Rattle.rules.specs.Job.{job_with};
ghost use Rattle.rules.specs.Plans.{place_of, cells_of, clear, keeps_sheet, keeps_job};
ghost use Rattle.rules.specs.Asked.{Taken, in_list, vertex_in, cell_listed, cells_spare, cells_keep, cell_keeps};

use channels::is_on_air;
use pair_test::{freq_part, seek_rule, spare, spare_at};
use sheet::links_of;
use sheet_rows::{freq, link_count, link_first};
use spacing::is_allowed;

// The place of the frequency x among `count` from vertex `from` on, or `count`.
// A number where there is none too: `has_freq` compares it with the count, and `vertex` adds it.
fn place(fs: &[u8], from: usize, count: usize, x: usize) -> usize
    requires { freq_bytes * (from + count) ≤ length fs.now }
    ensures { result ≡ place_of fs.now from count x }
{
    for i in 0..count {
        if freq(fs, from + i) == x {
            return i;
        }
    }
    count
}

// Whether x is in the list of link l.
fn has_freq(s: &[u8], l: usize, x: usize) -> bool
    requires { Accepted s.now × (l < k_of s.now) }
    ensures { result ≡ in_list s.now l x }
{
    let count = link_count(s, l);
    place(freq_part(s), link_first(s, l), count, x) < count
}

// The vertex of the frequency x of link l.
fn vertex(s: &[u8], l: usize, x: usize) -> usize
    requires { Accepted s.now × (l < k_of s.now) × (in_list s.now l x ≡ true) }
    ensures { result ≡ vertex_in s.now l x }
{
    let from = link_first(s, l);
    from + place(freq_part(s), from, link_count(s, l), x)
}

// Whether cell l is in the list of link l.
fn cell_listed(s: &[u8], cells: &[u32], l: usize) -> bool
    requires { Accepted s.now × (k_of s.now ≤ length cells.now) × (l < k_of s.now) }
    ensures { result ≡ cell_listed s.now cells.now l }
{
    has_freq(s, l, cells[l] as usize)
}

// Whether each of the first k cells is in its link's list.
pub fn cells_listed(s: &[u8], cells: &[u32]) -> bool
    requires { Accepted s.now × (k_of s.now ≤ length cells.now) }
    ensures { result ≡ all (k_of s.now) (cell_listed s.now cells.now) }
{
    let k = links_of(s);
    for l in 0..k {
        if !cell_listed(s, cells, l) {
            return false;
        }
    }
    true
}

// The vertex of the cell of link l.
fn cell_vertex(s: &[u8], cells: &[u32], l: usize) -> usize
    requires { Taken s.now cells.now × (l < k_of s.now) }
    ensures { (result ≡ vertex_in s.now l (cells_of cells.now l))
        × InLink s.now l result }
{
    vertex(s, l, cells[l] as usize)
}

// What the cells of links a and b have to spare.
pub fn cells_spare(s: &[u8], cells: &[u32], a: usize, b: usize) -> i64
    requires { Taken s.now cells.now × (a ≡ b → ⊥) × (a < k_of s.now) × (b < k_of s.now) }
    ensures { result ≡ cells_spare s.now cells.now a b }
{
    let u = cell_vertex(s, cells, a);
    let v = cell_vertex(s, cells, b);
    spare(s, a, b, u, v)
}

// Whether the cells of links a and b are allowed. Their rule, if there is one, is row j.
fn pair_kept(s: &[u8], cells: &[u32], a: usize, b: usize, j: usize) -> bool
    requires { Taken s.now cells.now × (a < b) × (b < k_of s.now)
        × Sought (rule_part s.now) (q_of s.now) a b j }
    ensures { result ≡ cells_keep s.now cells.now a b }
{
    let u = cell_vertex(s, cells, a);
    let v = cell_vertex(s, cells, b);
    is_allowed(spare_at(s, j, a, b, u, v))
}

// Whether the cell of link a is allowed with those of all higher links. The rules of link a begin at row `from`.
fn link_kept(s: &[u8], cells: &[u32], a: usize, from: usize) -> bool
    requires { Taken s.now cells.now × (a < k_of s.now) × Sought (rule_part s.now) (q_of s.now) a 0 from }
    ensures { result ≡ cell_keeps s.now cells.now a }
{
    let k = links_of(s);
    let mut j = from;
    for b in a + 1..k {
        j = seek_rule(s, a, b, j);
        if !pair_kept(s, cells, a, b, j) {
            return false;
        }
    }
    true
}

// Whether the cells of every two links are allowed.
fn links_kept(s: &[u8], cells: &[u32]) -> bool
    requires { Taken s.now cells.now }
    ensures { result ≡ all (k_of s.now) (cell_keeps s.now cells.now) }
{
    let k = links_of(s);
    let mut j = 0;
    for a in 0..k {
        j = seek_rule(s, a, 0, j);
        if !link_kept(s, cells, a, j) {
            return false;
        }
    }
    true
}

// Whether the cells are an assignment that keeps every rule of the sheet.
fn keeps_sheet(s: &[u8], cells: &[u32]) -> bool
    requires { Accepted s.now × (k_of s.now ≤ length cells.now) }
    ensures { result ≡ keeps_sheet s.now (cells_of cells.now) }
{
    if !cells_listed(s, cells) {
        return false;
    }
    links_kept(s, cells)
}

// Whether no channel on air covers one of the first cells, one for each of so many links.
fn cells_clear(channels: &[u8], cells: &[u32], links: usize) -> bool
    requires { (channels_ok channels.now ≡ true) × (links ≤ length cells.now) }
    ensures { result ≡ all links (clear channels.now (cells_of cells.now)) }
{
    for cell in &cells[..links] {
        if is_on_air(channels, *cell as usize) {
            return false;
        }
    }
    true
}

// Whether the cells are an assignment that keeps every rule of the job.
pub fn keeps_job(s: &[u8], channels: &[u8], cells: &[u32]) -> bool
    requires { Accepted s.now × (k_of s.now ≤ length cells.now) × (channels_ok channels.now ≡ true) }
    ensures { result ≡ keeps_job (job_with s.now channels.now)
        (cells_of cells.now) }
{
    if !cells_clear(channels, cells, links_of(s)) {
        return false;
    }
    keeps_sheet(s, cells)
}
