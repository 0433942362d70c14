// The desk tool of document 01: reads lines from standard input and writes a reply to each. What it replies is proved in `desk_line`; here is
// what the system is asked for.
//
// Where reading fails, the lines that had ended are answered and the open one is not, since its end is not known. Where reading or writing
// fails, it stops, standard error says why, and the exit status is not 0.
#![tactic(auto)]

use desk_line::Desk;
use std::io;
use std::io::{Read, Write};

// The desk, room for a piece of the input, and room for the replies to it: 17 bytes for each of its bytes.
#[derive(Drop)]
struct Session {
    desk: Desk,
    piece: [u8; 4096],
    out: [u8; 69632],
}

// Writes all of the bytes at once: whoever types a line waits for its reply.
fn write<W: Write>(writer: &mut W, bytes: &[u8]) -> io::Result<()> {
    writer.write_all(bytes)?;
    writer.flush()
}

impl Session {
    // The session before any input.
    fn new() -> Self {
        Session {
            desk: Desk::new(),
            piece: [0; 4096],
            out: [0; 69632],
        }
    }

    // Reads once and replies to what came; at the end of the input, to the last line. Says whether there may be more to read.
    fn turn<R: Read, W: Write>(&mut self, reader: &mut R, writer: &mut W) -> io::Result<bool> {
        let n = reader.read(&mut self.piece)?;
        if n == 0 {
            write(writer, self.desk.finish().as_slice())?;
            return Ok(false);
        }
        let fed = self.desk.feed(&self.piece[..n], &mut self.out);
        // The piece is taken whole, since each byte of it has its 17 bytes of room.
        prove_eq!(fed.taken, n);
        write(writer, &self.out[..fed.written])?;
        Ok(true)
    }

    // Takes turns to the end of the input. A proved loop has to end, and nothing says that an input does: this one takes no more turns than a
    // number that no run uses up.
    fn run<R: Read, W: Write>(&mut self, reader: &mut R, writer: &mut W) -> io::Result<()> {
        for _ in 0..u64::MAX {
            if !self.turn(reader, writer)? {
                return Ok(());
            }
        }
        Ok(())
    }
}

fn main(rt: HostRuntime) -> io::Result<()> {
    Session::new().run(&mut rt.stdin(), &mut rt.stdout())
}
