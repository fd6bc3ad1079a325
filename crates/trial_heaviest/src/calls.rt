// Calls for a heaviest job beside what is wanted of them, in buffers that are filled before.
ghost use Rattle.std.specs.Prelude.{◌≡◌, length};

use crate::apart::make_heaviest;
use heaviest::{HeaviestRefusal, heaviest, heaviest_number};
use std::io;
use trial_parts::{encode, first_bytes, more, narrow, next};
use trial_texts_calls::is_same;
use trial_texts_parts::{fill_bytes, first_difference};

// Calls since the last line printed.
pub const HEAVIEST: usize = 16;

fn call_over(
    kept: &mut [usize],
    k: usize,
    m: usize,
    buffer: &mut [u8],
) -> Result<usize, HeaviestRefusal> {
    more(kept, HEAVIEST);
    fill_bytes(buffer, 7);
    heaviest(narrow(k), narrow(m), buffer)
}

// Whether an answer says a number and a length, none where it is refused.
fn says(
    rt: &impl Print,
    answer: Result<usize, HeaviestRefusal>,
    number: usize,
    length: usize,
) -> io::Result<bool> {
    let got = heaviest_number(answer) as usize;
    Ok(
        is_same(rt, b"number of the heaviest job", got, number)?
            && is_same(
                rt,
                b"length of the heaviest job",
                answer.unwrap_or(0),
                length,
            )?,
    )
}

// Whether the call says a number and writes the bytes wanted, with zeros after them.
fn gives(
    rt: &impl Print,
    kept: &mut [usize],
    k: usize,
    m: usize,
    buffer: &mut [u8],
    number: usize,
    wanted: &[u8],
) -> io::Result<bool> {
    let answer = call_over(kept, k, m, buffer);
    let at = first_difference(buffer, wanted);
    let end = buffer.len();
    Ok(
        says(rt, answer, number, wanted.len())?
            && is_same(
                rt,
                b"first byte of the heaviest job that is another",
                at,
                end,
            )?,
    )
}

// The same in the first bytes of a buffer.
fn gives_first(
    rt: &impl Print,
    kept: &mut [usize],
    k: usize,
    m: usize,
    buffer: &mut [u8],
    room: usize,
    number: usize,
    wanted: &[u8],
) -> io::Result<bool> {
    if buffer.len() < room {
        return Ok(false);
    }
    gives(rt, kept, k, m, &mut buffer[..room], number, wanted)
}

// The same in a buffer of 65,536 bytes, and in a longer one; and 18 in one that is a byte too short.
fn gives_all(
    rt: &impl Print,
    kept: &mut [usize],
    k: usize,
    m: usize,
    number: usize,
    wanted: &[u8],
) -> io::Result<bool> {
    let mut buffer = [0u8; 65600];
    Ok(
        gives_first(rt, kept, k, m, &mut buffer, 65535, 18, b"")?
            && gives_first(rt, kept, k, m, &mut buffer, 65536, number, wanted)?
            && gives(rt, kept, k, m, &mut buffer, number, wanted)?,
    )
}

// The call beside the sheet formed apart.
fn beside_apart(rt: &impl Print, kept: &mut [usize], k: usize, m: usize) -> io::Result<bool> {
    let mut sheet = [0u8; 60000];
    make_heaviest(kept, k, m);
    let length = encode(kept, &mut sheet);
    gives_all(rt, kept, k, m, 0, first_bytes(&sheet, length))
}

// `heaviest`: k, m, and the number of the answer.
pub fn heaviest_row(rt: &impl Print, kept: &mut [usize]) -> io::Result<bool>
    ensures { length kept.new ≡ length kept.old }
{
    let k = next(kept);
    let m = next(kept);
    let number = next(kept);
    if number == 0 {
        beside_apart(rt, kept, k, m)
    } else {
        gives_all(rt, kept, k, m, number, b"")
    }
}
