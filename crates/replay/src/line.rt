// A line of the list by its columns: an operation's name, what it is called with, and what the original Rust answered.
use super::outcome::Outcome;
use text::{LINE_END, read_column};

// The bytes of a line, the last of them its end.
pub(crate) const LINE: usize = 113;

// The bytes of the first column, the name with spaces behind it.
const NAME: usize = 26;

// What an operation is called with.
#[derive(Clone, Copy)]
pub(crate) struct Arguments {
    pub a: u64,
    pub b: u64,
    pub c: u64,
    pub n: u64,
    pub m: u64,
}

// The name, without the spaces behind it.
pub(crate) fn read_name(line: &[u8; LINE]) -> &[u8] {
    let column = &line[..NAME];
    match column.iter().rposition(|byte| *byte != b' ') {
        Some(last) => &column[..=last],
        None => &[],
    }
}

// The columns of the arguments.
pub(crate) fn read_arguments(line: &[u8; LINE]) -> Option<Arguments> {
    Some(Arguments {
        a: read_column(&line[26..43])?,
        b: read_column(&line[43..60])?,
        c: read_column(&line[60..77])?,
        n: read_column(&line[77..82])?,
        m: read_column(&line[82..87])?,
    })
}

// The columns of what the Rust answered, and the line's end.
pub(crate) fn read_outcome(line: &[u8; LINE]) -> Option<Outcome> {
    if line[112] != LINE_END {
        return None;
    }
    Some(Outcome {
        number: read_column(&line[87..90])?,
        index: read_column(&line[90..95])?,
        word: read_column(&line[95..112])?,
    })
}
