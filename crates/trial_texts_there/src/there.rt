// A job's sheet exported, and the two texts imported again.
ghost use Rattle.std.specs.Prelude.{◌≡◌, ◌≤◌, length};

use std::io;
use trial_job::make_job;
use trial_parts::kept::{N, SEED};
use trial_parts::{SKIP, encode, first_bytes, get, put};
use trial_texts_back::{CAUSE, comes_back};
use trial_texts_calls::{Texts, exports_all, is_same};
use trial_texts_parts::{first_difference, put_count_text, put_graph_text, put_head, put_joined};

// The place of the edges that a row names.
const EDGES: usize = 17;

// Whether the graph text begins with the number of edges that the row names, if any.
fn has_edges(rt: &impl Print, kept: &[usize], text: &[u8]) -> io::Result<bool> {
    let mut head = [0u8; 64];
    let m = get(kept, EDGES);
    if m == SKIP {
        return Ok(true);
    }
    let length = put_head(&mut head, get(kept, N), m);
    let at = first_difference(first_bytes(text, length), &head);
    is_same(
        rt,
        b"place of another digit in the number of edges",
        at,
        length,
    )
}

// There by the texts of the job's graph, and back, with room for a table and texts of so many bytes.
fn there_and_back<const TABLE: usize, const TEXT: usize, const SIZES: usize>(
    rt: &impl Print,
    kept: &mut [usize],
    sheet: &[u8],
) -> io::Result<bool>
    requires table_fits { TABLE ≤ 1048576 }
    requires text_fits { TEXT ≤ 1300000 }
    requires sizes_fit { SIZES ≤ 512 }
{
    let mut table = [0u8; TABLE];
    let mut text = [0u8; TEXT];
    let mut sizes = [0u8; SIZES];
    let mut graph = [0u8; TEXT];
    let mut counts = [0u8; SIZES];
    put_joined(kept, &mut table);
    let g = put_graph_text(&table, get(kept, N), &mut text);
    let c = put_count_text(kept, &mut sizes);
    let texts = Texts {
        graph: first_bytes(&text, g),
        counts: first_bytes(&sizes, c),
    };
    Ok(
        has_edges(rt, kept, texts.graph)?
            && exports_all(rt, kept, sheet, &mut graph, &mut counts, texts)?
            && comes_back(rt, kept, sheet, &table, texts, &mut graph, &mut counts)?,
    )
}

// A job's sheet, with its edges and the number of the import; `SKIP` for any. The room is that of any sheet: the largest
// texts of forms 1 and 2 have 1,235,834 and 177 bytes.
pub fn comes_there(
    rt: &impl Print,
    kept: &mut [usize],
    sheet: &[u8],
    edges: usize,
    number: usize,
) -> io::Result<bool>
    ensures { length kept.new ≡ length kept.old }
{
    put(kept, EDGES, edges);
    put(kept, CAUSE, number);
    there_and_back::<1048576, 1300000, 512>(rt, kept, sheet)
}

// One job of the pseudo-random sequence, with the room of a sheet of up to 20 vertices.
fn small_sheet(rt: &impl Print, kept: &mut [usize]) -> io::Result<bool> {
    let mut sheet = [0u8; 1200];
    make_job(kept);
    let length = encode(kept, &mut sheet);
    there_and_back::<400, 2048, 32>(rt, kept, first_bytes(&sheet, length))
}

// So many small sheets, up to a difference.
pub fn small_sheets(rt: &impl Print, kept: &mut [usize], m: usize) -> io::Result<bool>
    ensures { length kept.new ≡ length kept.old }
{
    put(kept, EDGES, SKIP);
    put(kept, CAUSE, SKIP);
    put(kept, SEED, 1);
    for _ in 0..m {
        if !small_sheet(rt, kept)? {
            return Ok(false);
        }
    }
    Ok(true)
}
