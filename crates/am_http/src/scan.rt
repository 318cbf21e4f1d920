//! Where the head of a request ends.
ghost use Rattle.std.specs.Prelude.{◌≡◌, ◌≤◌, length, drop};
ghost use Rattle.am_http.specs.Scan.{kind_and, next_place, scanned};

/// What came so far of a line.
#[derive(Clone, Copy)]
pub(crate) enum Line {
    /// Nothing.
    Empty,
    /// A CR alone.
    Return,
    /// Anything else.
    Text,
}

/// How far a head that hasn't ended has come.
#[derive(Clone, Copy)]
pub(crate) struct Place {
    /// Whether a line that isn't empty came.
    pub begun: bool,
    /// What came of the present line.
    pub line: Line,
}

/// What a search for the end of a head gives.
#[derive(Clone, Copy)]
pub(crate) enum Scan {
    /// The head has this many bytes.
    Ended(usize),
    /// The head goes on.
    Open(Place),
}

impl Line {
    // The line with one byte more, which is no LF.
    fn and(self, byte: u8) -> Line
        ensures { result ≡ kind_and self byte }
    {
        match self {
            Line::Empty if byte == b'\r' => Line::Return,
            _ => Line::Text,
        }
    }
}

impl Place {
    /// Where a head begins.
    pub const START: Place = Place {
        begun: false,
        line: Line::Empty,
    };

    // The place after this byte, unless the head ends with it.
    fn after(self, byte: u8) -> Option<Place>
        ensures { result ≡ next_place self byte }
    {
        if byte != b'\n' {
            return Some(Place {
                begun: self.begun,
                line: self.line.and(byte),
            });
        }
        match self.line {
            Line::Text => Some(Place {
                begun: true,
                line: Line::Empty,
            }),
            _ => if self.begun { None } else { Some(Place::START) },
        }
    }
}

/// Goes on from a place that was reached after `from` bytes of the text.
pub(crate) fn find_end(place: Place, text: &[u8], from: usize) -> Scan
    requires { from ≤ length text.now }
    ensures { result ≡ scanned from place (drop from text.now) }
{
    let rest = &text[from..];
    let mut reached = place;
    for (i, byte) in rest.iter().enumerate() {
        match reached.after(*byte) {
            Some(next) => reached = next,
            None => return Scan::Ended(from + i + 1),
        }
    }
    Scan::Open(reached)
}
