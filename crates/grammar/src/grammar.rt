// Words taken one after the other.
#![tactic(auto, unfolding(crate::specs::Grammar::word_in, crate::specs::Grammar::read_in, crate::specs::Grammar::ended))]

ghost use Rattle.std.specs.Prelude.{◌≡◌, pos, negsuc, vec_items};
ghost use Rattle.grammar.specs.Grammar.{leaving, heard_as, word_of, word_in, unsigned_in, signed_in, bytes_in, ended, UnlessNoMemory};

use crate::wrong::Wrong;
use lines::words::Words;
use std::alloc::Global;
use text::bytes::bytes;
use text::numbers::{signed, unsigned};

pub fn take_word<'a>(words: &mut Words<'a>) -> Result<&'a [u8], Wrong>
    ensures { leaving (word_of result) words.new ≡ word_in words.old }
{
    words.next().ok_or(Wrong::MissingWord)
}

// A caller casts what is to fit fewer bits, here and in what is built on this: over `T: TryFrom<u32>` a clause would hang
// on what each type says of itself, and be no equation.
pub fn take_unsigned(words: &mut Words<'_>, highest: u32) -> Result<u32, Wrong>
    ensures { leaving result words.new ≡ unsigned_in highest words.old }
{
    let word = take_word(words)?;
    Ok(unsigned(word, highest)?)
}

pub fn take_signed(words: &mut Words<'_>, lowest: i32, highest: i32) -> Result<i32, Wrong>
    ensures { leaving result words.new ≡ signed_in lowest highest words.old }
{
    let word = take_word(words)?;
    Ok(signed(word, lowest, highest)?)
}

// The heap comes beside the words: most that is taken from words needs none.
pub fn take_bytes(heap: Global, words: &mut Words<'_>) -> Result<Vec<u8>, Wrong>
    ensures { UnlessNoMemory (leaving (heard_as vec_items result) words.new) (bytes_in words.old) }
{
    let word = take_word(words)?;
    Ok(bytes(heap, word)?)
}

pub fn take_end(words: &mut Words<'_>) -> Result<(), Wrong>
    ensures { result ≡ ended tt words.old }
{
    // `map_or` with a unit in it is no plainer.
    match words.next() {
        Some(_) => Err(Wrong::SuperfluousWord),
        None => Ok(()),
    }
}
