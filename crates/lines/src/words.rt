// A line cut into its words, which borrow the line.
ghost use Rattle.std.specs.Prelude.{◌≡◌, List, ℕ};
ghost use Rattle.std.specs.Iterator.{YieldsFirstRef, item_count};
ghost use Rattle.lines.specs.Lines.{is_blank, without_return, without_comment, words_in, words_of};

use std::marker::Model;

// The words of a line that are still to come: a contract sees the list of them.
#[derive(Drop)]
pub struct Words<'a> {
    rest: &'a [u8],
}

impl<'a> Model for Words<'a> {
    ghost Value = { List (List ℕ) };

    ghost view = { λ w. words_in w.rest.now };
}

fn is_blank(byte: u8) -> bool
    ensures { result ≡ is_blank byte }
{
    byte == b' ' || byte == b'\t'
}

fn without_return(line: &[u8]) -> &[u8]
    ensures { result.now ≡ without_return line.now }
{
    line.strip_suffix(b"\r").unwrap_or(line)
}

fn without_comment(text: &[u8]) -> &[u8]
    ensures { result.now ≡ without_comment text.now }
{
    let end = text.iter().position(|byte| *byte == b'#');
    &text[..end.unwrap_or(text.len())]
}

impl<'a> Words<'a> {
    // All words of a line, which comes without its newline.
    pub fn of_line(line: &'a [u8]) -> Words<'a>
        ensures { result ≡ words_of line.now }
    {
        // The return goes first: one before a comment is not at the end of the line.
        let rest = without_comment(without_return(line));
        Words { rest }
    }
}

impl<'a> Iterator for Words<'a> {
    type Item = &'a [u8];

    ghost next_gives = { YieldsFirstRef (λ words. words) };

    ghost remaining = { item_count (λ words. words) };

    fn next(&mut self) -> Option<&'a [u8]> {
        let Some(start) = self.rest.iter().position(|byte| !is_blank(*byte)) else {
            // No later call looks at these blanks again.
            self.rest = b"";
            return None;
        };
        let text = &self.rest[start..];
        let end = text.iter().position(|byte| is_blank(*byte));
        let (word, rest) = text.split_at(end.unwrap_or(text.len()));
        self.rest = rest;
        Some(word)
    }
}
