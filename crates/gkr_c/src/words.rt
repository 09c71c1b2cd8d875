//! Words that a caller gives as bytes.

ghost use Rattle.std.specs.Prelude.{◌≡◌, ◌∷◌, [], ◌++◌, IfOk, OnOk, codes, map, string_bytes, drop};
ghost use Rattle.gkr_c.specs.Split.{split_from, words_in};

use gkr_cmd::NoWords;
use std::alloc::Global;

/// A word of these bytes, where they are text.
fn word_of(bytes: Vec<u8>) -> Result<String, NoWords>
    ensures { IfOk result (λ word. string_bytes word ≡ bytes.items) }
{
    match String::from_utf8(bytes) {
        Ok(word) => Ok(word),
        Err(_) => Err(NoWords::Unreadable),
    }
}

/// Puts a word after others.
fn put_word(words: &mut Vec<String>, word: Vec<u8>) -> Result<(), NoWords>
    ensures { OnOk result (map string_bytes words.new.items
        ≡ map string_bytes words.old.items ++ word.items ∷ []) }
{
    let word = word_of(word)?;
    if words.push(word).is_err() {
        return Err(NoWords::Memory);
    }
    Ok(())
}

/// The words of a command line: the program's own name, and those between the bytes 0.
pub(crate) fn words_of(alloc: Global, bytes: &[u8]) -> Result<Vec<String>, NoWords>
    ensures { IfOk result (λ words. map string_bytes words.items ≡ words_in bytes.now) }
{
    let mut words = Vec::new(alloc);
    let Ok(name) = Vec::from_slice(alloc, b"gkr") else {
        return Err(NoWords::Memory);
    };
    put_word(&mut words, name)?;
    let mut word = Vec::new(alloc);
    let mut at = 0;
    while at < bytes.len() {
        let byte = bytes[at];
        if byte == 0 {
            put_word(&mut words, word)?;
            word = Vec::new(alloc);
        } else {
            if word.push(byte).is_err() {
                return Err(NoWords::Memory);
            }
        }
        at += 1;
    }
    put_word(&mut words, word)?;
    Ok(words)
}
