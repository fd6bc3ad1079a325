// The job that rows of the input say.
ghost use Rattle.std.specs.Prelude.{◌≡◌, length};

use crate::even::{make_even, put_gaps, put_own, put_widths};
use crate::input::{next, next_run};
use trial_tables::kept::{
    CHANNELS, FESTIVAL, FREQUENCIES, K, LINKS, N, ON_AIR, PAIRS, Q, RULES, T, WIDE, WIDTHS,
};
use trial_tables::{get, put, times};

// The counts. The sheet is of form 1, until a row gives widths, and no channel is on air, until a row gives some.
fn read_counts(job: &mut [usize]) {
    put(job, WIDE, 0);
    put(job, FESTIVAL, 0);
    put(job, ON_AIR, 0);
    next_run(job, K, 4);
}

// The counts, and then the fields in the sheet's order.
fn read_sheet(job: &mut [usize]) {
    read_counts(job);
    next_run(job, LINKS, times(2, get(job, K)));
    next_run(job, FREQUENCIES, get(job, N));
    read_rules(job);
}

fn read_rules(job: &mut [usize]) {
    next_run(job, RULES, times(5, get(job, Q)));
    next_run(job, PAIRS, times(2, get(job, T)));
}

fn read_even(job: &mut [usize]) {
    read_counts(job);
    make_even(job);
}

fn read_widths(job: &mut [usize]) {
    put(job, WIDE, 1);
    put(job, FESTIVAL, 0);
    next_run(job, WIDTHS, get(job, K));
}

fn read_festival(job: &mut [usize]) {
    let width = next(job);
    put(job, WIDE, 1);
    put(job, FESTIVAL, 1);
    put_widths(job, width);
}

fn read_gap(job: &mut [usize]) {
    let spacing = next(job);
    put_gaps(job, spacing);
}

fn read_channels(job: &mut [usize]) {
    let m = next(job);
    put(job, ON_AIR, m);
    next_run(job, CHANNELS, m);
}

fn read_own(job: &mut [usize]) {
    read_even(job);
    put_own(job);
}

// Reads a row with a job, which the words `sheet`, `even` and `own` begin, or one that changes the job, which `khz`,
// `many`, `gap` and `uhf` begin, each by its first byte. Says whether the word begins one.
pub fn reads_job(job: &mut [usize], word: usize) -> bool
    ensures { length job.new ≡ length job.old }
{
    match u8::try_from(word) {
        Ok(b's') => read_sheet(job),
        Ok(b'e') => read_even(job),
        Ok(b'o') => read_own(job),
        Ok(b'k') => read_widths(job),
        Ok(b'm') => read_festival(job),
        Ok(b'g') => read_gap(job),
        Ok(b'u') => read_channels(job),
        _ => return false,
    }
    true
}
