// The form of a sheet.
ghost use Rattle.std.specs.Prelude.{◌≡◌, ◌≤◌, length};
ghost use Rattle.sheet_rows.specs.Form.{form_by, form_of};
ghost use Rattle.sheet_rows.specs.Rows.{header_bytes, link_bytes};

use crate::Form;
use wire::word;

// What form 1 has.
const HALL: Form = Form {
    known: true,
    bytes: 4,
    links: 64,
    freqs: 512,
    words: 8192,
};

// The form of a number.
fn form_by(number: usize) -> Form
    ensures { result ≡ form_by number }
{
    match number {
        1 => HALL,
        2 => Form { bytes: 8, ..HALL },
        3 => Form {
            known: true,
            bytes: 8,
            links: 128,
            freqs: 1024,
            words: 32768,
        },
        _ => Form {
            known: false,
            ..HALL
        },
    }
}

// The form of the sheet s.
pub fn form_of(s: &[u8]) -> Form
    requires { header_bytes ≤ length s.now }
    ensures { result ≡ form_of s.now }
{
    form_by(word(s, 0))
}

// The bytes of a link row of the sheet s.
pub fn link_bytes(s: &[u8]) -> usize
    requires { header_bytes ≤ length s.now }
    ensures { (result ≡ link_bytes s.now) × (4 ≤ result) × (result ≤ 8) }
{
    let form = form_of(s);
    form.bytes
}
