//! Where in a line of a deck a reader stands.

ghost use Rattle.std.specs.Prelude.{◌≡◌, ◌<◌, ◌-◌, length, get_or};
ghost use Rattle.report_streams.specs.DecksInRow.InRow.{behind_byte};
ghost use Rattle.report_streams.specs.DecksInRow.Rows.{begins_line, behind_read, given_of, lacks_end};

/// Where in a line of a deck the next byte stands.
#[derive(Clone, Copy)]
pub enum Stand {
    /// It begins a line.
    LineStart,
    /// It follows a CR that begins a line. The CR was read and is held back: if the deck ends here, it is no line.
    HeldCr,
    /// It follows a byte of its line that was given.
    InLine,
}

impl Stand {
    /// Where the next byte stands behind one that was given.
    pub fn behind_byte(byte: u8) -> Stand
        ensures { result ≡ behind_byte byte }
    {
        if byte == b'\n' {
            Stand::LineStart
        } else {
            Stand::InLine
        }
    }

    // Whether the last of the bytes that were read from here begins a line.
    fn begins_line(self, read: &[u8]) -> bool
        requires { 0 < length read.now }
        ensures { result ≡ begins_line self read.now (length read.now - 1) }
    {
        match read.len() {
            1 => matches!(self, Stand::LineStart),
            many => read[many - 2] == b'\n',
        }
    }

    /// Where the next byte stands behind those that were read from here. Of these the last is held back if it is a CR that begins a line.
    pub fn behind_read(self, read: &[u8]) -> Stand
        requires { 0 < length read.now }
        ensures { result ≡ behind_read (begins_line self read.now (length read.now - 1)) (get_or read.now (length read.now - 1) 0) }
    {
        let last = read[read.len() - 1];
        if last == b'\r' && self.begins_line(read) {
            Stand::HeldCr
        } else {
            Stand::behind_byte(last)
        }
    }

    /// How many of the bytes that were read are given, if the next byte stands here behind them.
    pub fn given_of(self, count: usize) -> usize
        requires { 0 < count }
        ensures { result ≡ given_of count self }
    {
        match self {
            Stand::HeldCr => count - 1,
            Stand::LineStart | Stand::InLine => count,
        }
    }

    /// Whether the last line of a deck that ends here lacks its end.
    pub fn lacks_end(self) -> bool
        ensures { result ≡ lacks_end self }
    {
        matches!(self, Stand::InLine)
    }
}
