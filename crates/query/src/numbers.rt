// What single words write: numbers, and bytes in hexadecimal.
ghost use Rattle.std.specs.Prelude.{◌≡◌, true, MatchResult, vec_items};
ghost use Rattle.std.specs.Char.{is_ascii_hexdigit};
ghost use Rattle.std.specs.List.{list_all};
ghost use Rattle.std.specs.Option.{option_map};
ghost use Rattle.query.specs.Queries.{Found, Parsed, Signed, Unsigned};
ghost use Rattle.query.specs.Words.{unhex};

use std::alloc::{AllocError, Global};
use std::str::FromStr;

// What a type reads in a word, which std would also read after a plus.
fn number<N: FromStr>(word: &[u8]) -> Option<N>
where
    N::Err: Drop,
    ensures { Parsed N.from_str_gives word.now result }
{
    match word {
        [b'+', ..] => None,
        _ => std::str::from_utf8(word).ok()?.parse().ok(),
    }
}

// The number below 2^32 that a word of decimal digits writes: in our words, what `number` reads at this type.
pub fn unsigned(word: &[u8]) -> Option<u32>
    ensures { Found (Unsigned word.now) result }
{
    number::<u32>(word)
}

// The number of 32 bits that a word of decimal digits, or a minus and digits, writes: what `number` reads at that one.
pub fn signed(word: &[u8]) -> Option<i32>
    ensures { Found (Signed word.now) result }
{
    number::<i32>(word)
}

// Whether a word has hexadecimal digits alone. It does not stop at the first byte that is none: on words of digits that took half as long again.
fn all_digits(word: &[u8]) -> bool
    ensures { result ≡ list_all is_ascii_hexdigit word.now }
{
    let mut all = true;
    for c in word {
        all &= c.is_ascii_hexdigit();
    }
    all
}

// The bytes that a word of hexadecimal digits writes, in either case of the letters. Memory can be wanted only where the word has digits alone.
pub fn read_hex(heap: Global, word: &[u8]) -> Result<Option<Vec<u8>>, AllocError>
    ensures { MatchResult result (λ bytes. option_map vec_items bytes ≡ unhex word.now) (λ _. list_all is_ascii_hexdigit word.now ≡ true) }
{
    if !all_digits(word) {
        return Ok(None);
    }
    let mut bytes = vec![in heap; 0; word.len() / 2]?;
    let all_read = hex::decode_to_slice(word, bytes.as_mut_slice()).is_ok();
    Ok(all_read.then_some(bytes))
}
