// Byte strings, written as hexadecimal digits.
ghost use Rattle.std.specs.Prelude.{◌≡◌};
ghost use Rattle.text.specs.ByteTexts.{all_digits, bytes_of, given, memory_failed, or_no_memory};

use crate::fault::Fault;
use std::alloc::Global;

fn all_digits(word: &[u8]) -> bool
    ensures { result ≡ all_digits word.now }
{
    word.iter().all(u8::is_ascii_hexdigit)
}

// The bytes that the word is. A byte that is no digit counts before an odd number of digits.
pub fn bytes(heap: Global, word: &[u8]) -> Result<Vec<u8>, Fault>
    ensures { given result ≡ or_no_memory (memory_failed result) (bytes_of word.now) }
{
    if let [b'-'] = word {
        return Ok(Vec::new(heap));
    }
    if !all_digits(word) {
        return Err(Fault::NotBytes);
    }
    let bytes = hex::decode(heap, word)?;
    Ok(bytes)
}
