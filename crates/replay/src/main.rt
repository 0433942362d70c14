// Replays a list of calls of the original Rust, which it reads from standard input: it calls the operations of `goldilocks` with the same numbers
// and writes each line that does not agree, with what it got, and last how many do and do not.
//
// Where reading or writing fails, it stops, standard error says why, the exit status is not 0, and no count is written: a run that failed is never
// taken for a good one.
#![tactic(auto)]

ghost use Rattle.std.specs.Prelude.{◌≡◌, ◌≢◌, ◌+◌, ◌-◌, ◌%◌, ◌^◌, ◌<◌, ◌≤◌, All, IfOk, length, min, slice_index, take};

mod call;
mod line;
mod lists;
mod outcome;

use call::{Room, call};
use line::{LINE, read_arguments, read_name, read_outcome};
use outcome::Outcome;
use std::io;
use std::io::{Read, Write};
use text::LINE_END;

// The bytes of the piece of the input that is read at a time, 512 lines.
const PIECE: usize = 512 * LINE;

// How many lines agree and how many do not.
#[derive(Clone, Copy, Default)]
struct Tally {
    agree: u64,
    differ: u64,
}

impl Tally {
    // One line more that agrees. No input has 2^64 lines.
    fn agreed(&mut self)
        ensures { (self.new.agree ≡ (self.old.agree + 1) % 2 ^ 64) × (self.new.differ ≡ self.old.differ) }
    {
        self.agree = self.agree.wrapping_add(1);
    }

    // One line more that does not.
    fn differed(&mut self)
        ensures { (self.new.agree ≡ self.old.agree) × (self.new.differ ≡ (self.old.differ + 1) % 2 ^ 64) }
    {
        self.differ = self.differ.wrapping_add(1);
    }
}

// What of a line stands before its end: all, where it has none, but never the last byte of a whole line, where the end belongs.
fn before_end(line: &[u8]) -> &[u8]
    ensures front { result.now ≡ take (length result.now) line.now }
    ensures short { length result.now < LINE }
    ensures no_end { All (λ b. b ≢ LINE_END) result.now }
    ensures at_end { length result.now < min (length line.now) (LINE - 1) → slice_index line.now (length result.now) ≡ LINE_END }
{
    let front = &line[..line.len().min(LINE - 1)];
    match front.iter().position(|byte| *byte == LINE_END) {
        Some(end) => &front[..end],
        None => front,
    }
}

// A replay: where it writes, the counts so far, and the room for the lists of a call.
#[derive(Drop)]
struct Replay<'a, W> {
    writer: &'a mut W,
    tally: Tally,
    room: Room,
}

// Makes the call of a line, and gives what the original Rust answered and what came now. There is neither where the line cannot be read.
fn both_outcomes(line: &[u8; LINE], room: &mut Room) -> Option<(Outcome, Outcome)> {
    let asked = read_arguments(line)?;
    let expected = read_outcome(line)?;
    let got = call(read_name(line), asked, room)?;
    Some((expected, got))
}

impl<'a, W: Write> Replay<'a, W> {
    // The replay before any line.
    fn new(writer: &'a mut W) -> Self {
        Replay {
            writer,
            tally: Tally::default(),
            room: Room::default(),
        }
    }

    // Counts a line that cannot be read, and writes it.
    fn unreadable(&mut self, line: &[u8]) -> io::Result<()> {
        self.tally.differed();
        self.writer.write_all(before_end(line))?;
        self.writer.write_all(b" unreadable\n")
    }

    // Counts a line that does not agree, and writes it with the outcome, in as many digits as the line has for it.
    fn differs(&mut self, line: &[u8], got: Outcome) -> io::Result<()> {
        self.tally.differed();
        self.writer.write_all(before_end(line))?;
        self.writer.write_all(&got.spelled())
    }

    // Reads a line, makes its call, and compares.
    fn judge(&mut self, line: &[u8; LINE]) -> io::Result<()> {
        match both_outcomes(line, &mut self.room) {
            None => self.unreadable(line),
            Some((expected, got)) if got == expected => {
                self.tally.agreed();
                Ok(())
            }
            Some((_, got)) => self.differs(line, got),
        }
    }

    // Judges the lines of a piece. Only the last piece of an input can end in a short one.
    fn judge_all(&mut self, piece: &[u8]) -> io::Result<()> {
        let (lines, short) = piece.as_chunks::<LINE>();
        for line in lines {
            self.judge(line)?;
        }
        if short.is_empty() {
            return Ok(());
        }
        self.unreadable(short)
    }

    // The last line, with the counts.
    fn write_counts(&mut self) -> io::Result<()> {
        let Tally { agree, differ } = self.tally;
        writeln!(self.writer, "{agree} agree, {differ} do not")
    }
}

// Reads until the piece is full or the input has ended, so that a piece is short only at the end, and answers how many bytes it has.
// No method of `Read` does this into a lent buffer: `read` may stop before, and `read_exact` refuses a short piece.
fn fill<R: Read>(reader: &mut R, piece: &mut [u8]) -> io::Result<usize>
    ensures { IfOk result (λ n. n ≤ length piece.new) }
{
    let mut at = 0;
    while at < piece.len() {
        let more = reader.read(&mut piece[at..])?;
        if more == 0 {
            break;
        }
        at += more;
    }
    Ok(at)
}

// Reads the input piece by piece and judges its lines, and at its end writes the counts. A proved loop has to end, and nothing says that an
// input does: this one takes no more turns than a number that no run uses up.
fn run<R: Read, W: Write>(reader: &mut R, writer: &mut W) -> io::Result<()> {
    let mut piece = <[u8; PIECE]>::default();
    let mut replay = Replay::new(writer);
    for _ in 0..u64::MAX {
        let n = fill(reader, &mut piece)?;
        replay.judge_all(&piece[..n])?;
        if n < PIECE {
            return replay.write_counts();
        }
    }
    Ok(())
}

fn main(rt: HostRuntime) -> io::Result<()> {
    run(&mut rt.stdin(), &mut rt.stdout())
}
