// The lines of the two texts.
ghost use Rattle.std.specs.Prelude.{◌≡◌, ◌++◌, ◌+◌, ◌*◌, ◌≤◌, ◌<◌, length};
ghost use Rattle.sets.specs.Below.{tabulate};
ghost use Rattle.sheet_rows.specs.Form.{most_links, most_freqs};
ghost use Rattle.sheet_rows.specs.Rows.{HasLinks, link_count};
ghost use Rattle.output.specs.Output.{Wrote, most_text};
ghost use Rattle.output.specs.Puts.{Puts};
ghost use Rattle.lines.specs.Lines.{ascii, decimal, line};
ghost use Rattle.dimacs.specs.Export.{graph_text, count_text, counts_text};
ghost use Rattle.graph_export.specs.Gives.{most_graph, most_counts};
ghost use Rattle.graph_export.specs.Rows.{RowsIn, LinesPut, TextPut};

use crate::edges::{edge_count, next_neighbour};
use lines::{put_decimal, put_ending};
use output::Output;
use sheet_rows::link_count;

// Puts a line: a word, a number right after it, a space, another number and a newline.
fn put_numbers(out: &mut Output, word: &[u8], a: u32, b: u32)
    requires { out.old.end + length word.now + 22 ≤ most_text }
    ensures { Puts (line (word.now ++ decimal a) b) out.old out.new
        × (out.new.end ≤ out.old.end + length word.now + 22) }
{
    out.put_word(word);
    put_decimal(out, a);
    put_ending(out, b);
}

// Puts the `e` line of u and v, which are numbered from 1 in it.
fn put_edge(out: &mut Output, u: usize, v: usize)
    requires { (u < most_freqs) × (v < most_freqs) × (out.old.end + 24 ≤ most_text) }
    ensures { Puts (line (ascii "e " ++ decimal (u + 1)) (v + 1)) out.old out.new
        × (out.new.end ≤ out.old.end + 24) }
{
    put_numbers(out, b"e ", (u + 1) as u32, (v + 1) as u32);
}

// Puts the `e` lines of the edges of u with higher vertices.
fn put_row(out: &mut Output, part: &[u64], n: usize, u: usize)
    requires { RowsIn n (length part.now) × (u < n) × (out.old.end + 24 * n ≤ most_text) }
    ensures { LinesPut n (u * n) (u * n + n) (24 * n) part.now out.old out.new }
{
    let mut v = next_neighbour(part, n, u, u + 1);
    while v < n {
        put_edge(out, u, v);
        v = next_neighbour(part, n, u, v + 1);
    }
}

// Puts the `e` lines.
fn put_edges(out: &mut Output, part: &[u64], n: usize)
    requires { RowsIn n (length part.now) × (out.old.end ≤ 64) }
    ensures { LinesPut n 0 (n * n) (24 * (n * n)) part.now out.old out.new }
{
    for u in 0..n {
        put_row(out, part, n, u);
    }
}

// Puts the graph text: its first line, then the `e` lines. Gives its length.
pub fn put_graph(out: &mut [u8], part: &[u64], n: usize) -> usize
    requires { RowsIn n (length part.now) }
    ensures { TextPut (graph_text n) n most_graph part.now out.old out.new result }
{
    let m = edge_count(part, n);
    let mut text = Output::new(out);
    put_numbers(&mut text, b"p edge ", n as u32, m as u32);
    put_edges(&mut text, part, n);
    text.end
}

// Puts the line of a count.
fn put_count(out: &mut Output, count: u32)
    requires { out.old.end + 11 ≤ most_text }
    ensures { Puts (count_text count) out.old out.new × (out.new.end ≤ out.old.end + 11) }
{
    put_decimal(out, count);
    out.put_byte(b'\n');
}

// Puts the counts of k links of the sheet.
fn put_each(out: &mut Output, sheet: &[u8], k: usize)
    requires { HasLinks sheet.now k × (k ≤ most_links) × (out.old.end ≡ 0) }
    ensures { Puts (counts_text (tabulate k (link_count sheet.now))) out.old out.new
        × (out.new.end ≤ most_counts) }
{
    for l in 0..k {
        put_count(out, link_count(sheet, l) as u32);
    }
}

// Puts the count text: the counts of k links of the sheet. Gives its length.
pub fn put_counts(out: &mut [u8], sheet: &[u8], k: usize) -> usize
    requires { HasLinks sheet.now k × (k ≤ most_links) }
    ensures { Wrote (counts_text (tabulate k (link_count sheet.now)))
        out.old 0 out.new result × (result ≤ most_counts) }
{
    let mut text = Output::new(out);
    put_each(&mut text, sheet, k);
    text.end
}
