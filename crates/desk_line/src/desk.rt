// An input that comes in pieces. What is kept between two of them is the start of the line that is still open.
ghost use Rattle.std.specs.Prelude.{◌≡◌};
ghost use Rattle.desk_line.specs.Replies.{reply};
ghost use Rattle.desk_line.specs.Pieces.{fresh, last};
ghost use Rattle.desk_line.specs.Promises.{Feeds};

use super::lines::answer;
use super::replies::{LONGEST, Reply, spell};
use std::marker::Model;
use text::{LINE_END, Line};

// The first 64 bytes of the open line; contracts see a desk as these bytes. With 64 a line is unreadable whatever follows.
#[derive(Clone, Copy)]
pub struct Desk {
    line: Line<64>,
}

impl Model for Desk {
    ghost use Rattle.std.specs.Prelude.{List, ℕ};

    ghost Value = { List ℕ };

    ghost view = { λ d. d.line };

    ghost inverse = { λ line. record { line = line } };
}

// What feeding a piece answers: how many of its bytes were taken, and how many were written.
#[derive(Clone, Copy)]
pub struct Fed {
    pub taken: usize,
    pub written: usize,
}

impl Desk {
    // The desk before any input.
    pub fn new() -> Self
        ensures { result ≡ fresh }
    {
        Desk { line: Line::new() }
    }

    // The reply to the open line.
    fn reply(&self) -> Reply
        ensures { result ≡ reply self.now }
    {
        spell(answer(self.line.as_slice()))
    }

    // Takes a piece of the input and writes the replies to the lines that end in it to the front of out. It takes no more bytes than out has
    // 17 bytes for each, so that no reply finds too little room.
    pub fn feed(&mut self, piece: &[u8], out: &mut [u8]) -> Fed
        ensures { Feeds self.old piece.now out.old self.new out.new result }
    {
        let taken = piece.len().min(out.len() / LONGEST);
        let mut written = 0;
        // Where the bytes of the open line begin that are not kept yet.
        let mut begun = 0;
        for (i, &byte) in piece[..taken].iter().enumerate() {
            if byte == LINE_END {
                self.line.extend(&piece[begun..i]);
                let reply = self.reply();
                let text = reply.as_slice();
                let end = written + text.len();
                out[written..end].copy_from_slice(text);
                written = end;
                self.line = Line::new();
                begun = i + 1;
            }
        }
        self.line.extend(&piece[begun..taken]);
        Fed { taken, written }
    }

    // The input has ended: the reply to the open line, if it has a byte.
    #[tactic(auto, unfolding(crate::specs::Pieces::last))]
    pub fn finish(&self) -> Reply
        ensures { result ≡ last self.now }
    {
        if self.line.as_slice().is_empty() {
            return Reply::new();
        }
        self.reply()
    }
}
