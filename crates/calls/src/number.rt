// Numbers of 16 bits, cast from wider ones: one function for every type would have no equation for its clause.
ghost use Rattle.std.specs.Prelude.{◌≡◌};
ghost use Rattle.text.specs.Numerals.{unsigned_of};
ghost use Rattle.grammar.specs.Grammar.{leaving, unsigned_in};
ghost use Rattle.calls.specs.Calls.{optional_in};

use grammar::grammar::take_unsigned;
use grammar::wrong::Wrong;
use lines::words::Words;
use text::fault::Fault;
use text::numbers::unsigned;

fn number(word: &[u8], highest: u16) -> Result<u16, Fault>
    ensures { result ≡ unsigned_of highest word.now }
{
    unsigned(word, u32::from(highest)).map(|value| value as u16)
}

#[tactic(auto, unfolding(grammar::specs::Grammar::word_in, grammar::specs::Grammar::read_in))]
pub(crate) fn take_u16(words: &mut Words<'_>) -> Result<u16, Wrong>
    ensures { leaving result words.new ≡ unsigned_in 65535 words.old }
{
    Ok(take_unsigned(words, u32::from(u16::MAX))? as u16)
}

// A number where a word is left for it.
#[tactic(auto, unfolding(crate::specs::Calls::optional_in, grammar::specs::Grammar::read_in))]
pub(crate) fn take_optional(words: &mut Words<'_>, highest: u16) -> Result<Option<u16>, Wrong>
    ensures { leaving result words.new ≡ optional_in highest words.old }
{
    let number = words.next().map(|word| number(word, highest));
    Ok(number.transpose()?)
}
