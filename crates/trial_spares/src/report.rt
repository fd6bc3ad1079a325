// What is printed of a difference.
use std::{fmt, io};
use trial_job::ZERO;

// A number of half kHz, ZERO larger, with its sign.
#[derive(Clone, Copy, PartialEq, Eq, Debug)]
struct HalfKhz(usize);

impl fmt::Display for HalfKhz {
    fn fmt<W: fmt::Write>(&self, f: &mut fmt::Formatter<W>) -> fmt::Result {
        let sign = if self.0 < ZERO { "-" } else { "" };
        write!(f, "{sign}{}", self.0.abs_diff(ZERO))
    }
}

// Whether the number of an answer, for cells with this first one, is as wanted.
pub fn is_answer(rt: &impl Print, got: usize, wanted: usize, cell: usize) -> io::Result<bool> {
    if got == wanted {
        return Ok(true);
    }
    println!(rt; "difference: spares, wanted, first cell {got} {wanted} {cell}")?;
    Ok(false)
}

// Whether place i of a table is as wanted.
pub fn is_place(rt: &impl Print, i: usize, got: usize, wanted: usize) -> io::Result<bool> {
    if got == wanted {
        return Ok(true);
    }
    println!(rt;
        "difference: place, spare, wanted {i} {} {}",
        HalfKhz(got),
        HalfKhz(wanted)
    )?;
    Ok(false)
}
