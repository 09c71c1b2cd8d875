//! What a program is read from: its text, and the numbers of its names.

ghost use Rattle.std.specs.Prelude.{◌≡◌, ℕ, List, [], ◌∷◌, length, IfOk, OnOk};
ghost use Rattle.arr_parse.specs.Mark.{part_of, found_in, number_in, number_at};
ghost use Rattle.arr_parse.specs.NameMap.{found, or_else};
ghost use Rattle.arr_parse.specs.Names.{words, named_at, names_from};

use arr_ast::{Lang, Name};
use arr_lex::{Symbol, Token};
use std::alloc::{AllocError, Global};
use std::collections::BTreeMap;
use std::marker::Model;

/// A text in its language, with the place of the first token for each of its names.
#[derive(Drop)]
pub struct Source<'a> {
    lang: Lang,
    text: &'a [u8],
    places: BTreeMap<Vec<u8>, usize>,
}

impl<'a> Model for Source<'a> {
    ghost use Rattle.arr_parse.specs.Mark.{Source};
    ghost use Rattle.arr_parse.specs.NameMap.{entries_of};

    ghost Value = { Source };

    ghost view = { λ s. record {
      lang = s.lang;
      text = s.text.now;
      names = entries_of s.places.entries;
    } };
}

impl<'a> Source<'a> {
    /// A text of which these are the tokens.
    pub fn new(
        alloc: Global,
        lang: Lang,
        text: &'a [u8],
        tokens: &[Token],
    ) -> Result<Source<'a>, AllocError>
        ensures lang { IfOk result (λ source. source.lang ≡ lang) }
        ensures text { IfOk result (λ source. source.text ≡ text.now) }
        ensures names { IfOk result (λ source. (name : List ℕ) → found_in source.names name
            ≡ found_in (names_from 0 (words text.now tokens.now)) name) }
    {
        let places = places_of(alloc, text, tokens)?;
        Ok(Source { lang, text, places })
    }

    /// The language of the text.
    pub fn lang(&self) -> Lang
        ensures { result ≡ self.now.lang }
    {
        self.lang
    }

    /// The length of the text.
    pub fn len(&self) -> usize
        ensures { result ≡ length self.now.text }
    {
        self.text.len()
    }

    /// The name that a token spells.
    pub fn name(&self, token: &Token) -> Name
        ensures at { result.at ≡ token.now.start }
        ensures number { result.number ≡ number_at self.now token.now }
    {
        Name {
            at: token.start,
            number: self.number(part(self.text, token.start, token.end)),
        }
    }

    /// The number of a name.
    fn number(&self, name: &[u8]) -> usize
        ensures { result ≡ number_in self.now name.now }
    {
        match self.places.get(name) {
            Some(place) => *place,
            None => 0,
        }
    }
}

/// The place of the first token for each name.
fn places_of(
    alloc: Global,
    text: &[u8],
    tokens: &[Token],
) -> Result<BTreeMap<Vec<u8>, usize>, AllocError>
    ensures { IfOk result (λ places. (name : List ℕ)
        → found places name ≡ found_in (names_from 0 (words text.now tokens.now)) name) }
{
    let mut places = BTreeMap::new(alloc);
    'each: for (place, token) in tokens.iter().enumerate() {
        let bytes = part(text, token.start, token.end);
        add_word(&mut places, alloc, token.symbol, bytes, place)?;
    }
    Ok(places)
}

/// Adds the place of a word, if it is a name and the first of its bytes.
fn add_word(
    places: &mut BTreeMap<Vec<u8>, usize>,
    alloc: Global,
    symbol: Symbol,
    bytes: &[u8],
    place: usize,
) -> Result<(), AllocError>
    ensures { OnOk result ((name : List ℕ) → found places.new name
        ≡ or_else (found places.old name) (found_in (named_at place symbol bytes.now []) name)) }
{
    match symbol {
        Symbol::Name => add_name(places, alloc, bytes, place),
        _ => Ok(()),
    }
}

/// Adds the place of a name, if it is the first of its bytes.
fn add_name(
    places: &mut BTreeMap<Vec<u8>, usize>,
    alloc: Global,
    bytes: &[u8],
    place: usize,
) -> Result<(), AllocError>
    ensures { OnOk result ((name : List ℕ) → found places.new name
        ≡ or_else (found places.old name) (found_in ((bytes.now, place) ∷ []) name)) }
{
    if places.contains_key(bytes) {
        return Ok(());
    }
    let key = Vec::from_slice(alloc, bytes)?;
    places.insert(key, place)?;
    Ok(())
}

/// The bytes from start to end.
fn part(text: &[u8], start: usize, end: usize) -> &[u8]
    ensures { result.now ≡ part_of text.now start end }
{
    let end = end.min(text.len());
    let start = start.min(end);
    &text[start..end]
}
