// The lines of an input, one at a time.
ghost use Rattle.std.specs.Prelude.{◌≡◌, ◌≤◌, length, ◌==◌};
ghost use Rattle.std.specs.List.{position};
ghost use Rattle.std.specs.Iterator.{item_count};
ghost use Rattle.std.specs.Option.{option_map};
ghost use Rattle.wire.specs.Bytes.{line_feed};
ghost use Rattle.wire.specs.Lines.{lines_from, NextLine};

use wire::text::LINE_FEED;

/// Reads the lines of an input, each as a part of it, and knows the place that it has come to.
#[derive(Drop)]
pub struct FrameReader<'a> {
    input: &'a [u8],
    place: usize,
    ghost inside: { place ≤ length input.now },
}

impl<'a> FrameReader<'a> {
    /// A reader at the start of an input.
    pub fn new(input: &'a [u8]) -> FrameReader<'a>
        ensures input { result.input.now ≡ input.now }
        ensures place { result.place ≡ 0 }
    {
        FrameReader { input, place: 0 }
    }
}

impl<'a> Iterator for FrameReader<'a> {
    type Item = &'a [u8];

    // By a relation of our own: with `YieldsFirstRef` and clauses on `next` (tried), a `for` over the reader gets no proof.
    ghost next_gives = { λ r line s. NextLine r.input.now r.place (option_map (λ x. x.now) line) s.input.now s.place };

    ghost remaining = { item_count (λ r. lines_from r.input.now r.place) };

    // The next line, without its line feed.
    fn next(&mut self) -> Option<&'a [u8]> {
        let rest = &self.input[self.place..];
        if rest.is_empty() {
            return None;
        }
        let length = first_line_feed(rest).unwrap_or(rest.len());
        self.place = self.input.len().min(self.place + length + 1);
        Some(&rest[..length])
    }
}

// Where the first line feed stands.
fn first_line_feed(bytes: &[u8]) -> Option<usize>
    ensures { result ≡ position (λ b. b == line_feed) bytes.now }
{
    bytes.iter().position(|b| *b == LINE_FEED)
}
