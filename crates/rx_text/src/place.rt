// Where something stands in an input.

ghost use Rattle.std.specs.Prelude.{◌≡◌, ◌<◌, ◌≤◌, ◌-◌, ◌^◌, length, take, count_by};
ghost use Rattle.rx_text.specs.TextPlace.{is_line_feed, place_behind, since_line_feed};

/// A place in an input.
#[derive(Clone, Copy, Debug, PartialEq, Eq)]
pub enum Place {
    /// In a text: line and column, both from 1, the column in bytes.
    Text { line: u32, column: u32 },
    /// In a layout: the unit square of lambda with its lower left corner at (x, y).
    Square { x: i64, y: i64 },
    /// The input as a whole.
    Whole,
}

fn is_line_feed(byte: u8) -> bool
    ensures { result ≡ is_line_feed byte }
{
    byte == b'\n'
}

fn line_feeds(text: &[u8]) -> usize
    ensures count { result ≡ count_by is_line_feed text.now }
    ensures within { result ≤ length text.now }
{
    text.iter().filter(|byte| is_line_feed(**byte)).count()
}

// How many bytes stand behind the last line feed.
fn last_line_length(text: &[u8]) -> usize
    ensures count { result ≡ since_line_feed text.now }
    ensures within { result ≤ length text.now }
{
    text.iter()
        .rev()
        .take_while(|byte| !is_line_feed(**byte))
        .count()
}

/// The line and column of the byte with this number, or of the end of the text. A line ends at its line feed alone.
pub fn place_at(text: &[u8], at: usize) -> Place
    requires within { at ≤ length text.now }
    requires few_bytes { length text.now < 2 ^ 32 - 1 }
    ensures { result ≡ place_behind (take at text.now) }
{
    let (before, _) = text.split_at(at);
    Place::Text {
        line: line_feeds(before) as u32 + 1,
        column: last_line_length(before) as u32 + 1,
    }
}
