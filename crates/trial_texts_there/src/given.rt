// Texts that are given, imported.
ghost use Rattle.std.specs.Prelude.{◌≡◌, length};

use std::io;
use trial_parts::first_bytes;
use trial_texts_back::is_accepted;
use trial_texts_calls::{Texts, imported_length, imports};

// Whether texts that are taken give a sheet that the planner accepts.
fn takes(rt: &impl Print, kept: &mut [usize], texts: Texts, sheet: &mut [u8]) -> io::Result<bool> {
    let Some(length) = imported_length(rt, kept, texts, sheet)? else {
        return Ok(false);
    };
    is_accepted(rt, kept, first_bytes(sheet, length))
}

// Whether an import gives a number: 0 with a sheet that the planner accepts, or a refusal with zeros.
pub fn gives(rt: &impl Print, kept: &mut [usize], texts: Texts, number: usize) -> io::Result<bool>
    ensures { length kept.new ≡ length kept.old }
{
    let mut sheet = [0u8; 60000];
    if number == 0 {
        takes(rt, kept, texts, &mut sheet)
    } else {
        imports(rt, kept, texts, &mut sheet, number, b"")
    }
}
