// The rows of texts. Each says whether all was as wanted.
use std::io;
use trial_parts::{EQUALS, first_bytes, line_end, next};
use trial_texts_calls::Texts;
use trial_texts_parts::{put_equal_counts, put_head, put_quoted};
use trial_texts_there::gives;

// `counts`: how many counts, the number of each, n and m of the graph text, and the number of the import.
pub fn counts_row(rt: &impl Print, kept: &mut [usize]) -> io::Result<bool> {
    let mut sizes = [0u8; 1024];
    let mut text = [0u8; 64];
    let l = next(kept);
    let x = next(kept);
    let c = put_equal_counts(&mut sizes, l, x);
    let n = next(kept);
    let m = next(kept);
    let g = put_head(&mut text, n, m);
    let number = next(kept);
    let texts = Texts {
        graph: first_bytes(&text, g),
        counts: first_bytes(&sizes, c),
    };
    gives(rt, kept, texts, number)
}

// The next quoted text. Gives its length.
fn quoted(words: &[u8], kept: &mut [usize], out: &mut [u8]) -> usize {
    if next(kept) != EQUALS {
        return 0;
    }
    let from = next(kept);
    put_quoted(words, from, line_end(words, from), out)
}

// `bytes`: the number of the import, the graph text and the count text.
pub fn bytes_row(rt: &impl Print, words: &[u8], kept: &mut [usize]) -> io::Result<bool> {
    let mut text = [0u8; 256];
    let mut sizes = [0u8; 256];
    let number = next(kept);
    let g = quoted(words, kept, &mut text);
    let c = quoted(words, kept, &mut sizes);
    let texts = Texts {
        graph: first_bytes(&text, g),
        counts: first_bytes(&sizes, c),
    };
    gives(rt, kept, texts, number)
}
