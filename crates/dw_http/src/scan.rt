ghost use Rattle.std.specs.Prelude.{◌≡◌, ◌≤◌, ◌||◌, length, drop, nat_lt};
ghost use Rattle.dw_http.specs.Heads.{max_head};
ghost use Rattle.dw_http.specs.Scans.{line_after, lines_after, ends_with, walked, ends_within};

use crate::head::{MAX_FIELDS, MAX_HEAD};

/// A walk over bytes to where a head may end, at an empty line below a line that is not empty, or has too
/// many lines. It looks at each byte once, in whatever pieces the bytes come.
#[derive(Clone, Copy, Drop)]
pub(crate) struct Scan {
    /// How many bytes were looked at.
    at: usize,
    /// How many whole lines there are from the first on that is not empty.
    lines: usize,
    line: Line,
}

/// What stands so far in a line.
#[derive(Clone, Copy)]
pub(crate) enum Line {
    Nothing,
    Return,
    Text,
}

impl Scan {
    pub(crate) fn new() -> Scan
        ensures { result.at ≡ 0 }
    {
        Scan {
            at: 0,
            lines: 0,
            line: Line::Nothing,
        }
    }

    /// Whether a head may end, or has too many lines, among the bytes that were not looked at before, or
    /// there are more bytes than one has. Of the bytes before these it sees their number alone.
    pub(crate) fn is_due(&mut self, bytes: &[u8]) -> bool
        requires { self.old.at ≤ length bytes.now }
        ensures place { self.new.at ≡ length bytes.now }
        ensures walked { self.new ≡ record (walked self.old (drop self.old.at bytes.now)) { at = length bytes.now } }
        ensures due { result ≡ (ends_within self.old (drop self.old.at bytes.now) || nat_lt max_head (length bytes.now)) }
    {
        let ends = self.walk(&bytes[self.at..]);
        self.at = bytes.len();
        ends || bytes.len() > MAX_HEAD
    }

    /// Looks at some bytes, each once.
    fn walk(&mut self, bytes: &[u8]) -> bool
        ensures walked { self.new ≡ walked self.old bytes.now }
        ensures ends { result ≡ ends_within self.old bytes.now }
    {
        let mut ends = false;
        for byte in bytes {
            ends = self.step(*byte) || ends;
        }
        ends
    }

    /// Whether an empty line ends with the byte, below one that is not, or a line begins that is one too many.
    fn step(&mut self, byte: u8) -> bool
        ensures after { self.new ≡ record self.old { lines = lines_after self.old.lines self.old.line byte; line = line_after self.old.line byte } }
        ensures ends { result ≡ ends_with self.old.lines self.old.line byte }
    {
        match (byte, self.line) {
            (b'\n', Line::Text) => {
                self.lines = self.lines.saturating_add(1);
                self.line = Line::Nothing;
                false
            }
            (b'\n', _) => {
                self.line = Line::Nothing;
                self.lines > 0
            }
            (b'\r', Line::Nothing) => {
                self.line = Line::Return;
                false
            }
            _ => {
                self.line = Line::Text;
                self.lines > MAX_FIELDS
            }
        }
    }
}
