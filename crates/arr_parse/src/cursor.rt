//! The tokens of a text, from the left.

ghost use Rattle.std.specs.Prelude.{◌≡◌, ◌≤◌, ◌<◌, ℕ, suc, true, false, List, [], ◌∷◌, Some, length, IfOk, OnOk, IfErr, IfNone, IfSome, OnSome, MatchBool, MatchResult, map};
ghost use Rattle.arr_lex.specs.declared.token.Symbol.TheVariants.{Input as InputWord, Def as DefinitionWord, Output as OutputWord, Star, OpenRound, CloseRound, OpenSquare, Comma, Equals, Semicolon};
ghost use Rattle.arr_ast.specs.declared.lang.Lang.{Lang};
ghost use Rattle.arr_parse.specs.declared.refused.ParseRefused.TheVariants.{Syntax, Nesting};
ghost use Rattle.arr_parse.specs.Mark.{Separator, Placed, mark, number_at};
ghost use Rattle.arr_parse.specs.IndexSpelling.{sign_symbol, name_spelling};
ghost use Rattle.arr_parse.specs.Grammar.{Part, The, AName, AnExpression, Inputs, Definitions, Parameters, MoreParameters, AfterName, MoreArguments, TopStatements, ATopStatement, Statements, AStatement, OneArgument, TwoArguments, FirstDimension, SecondDimension, FirstIndex, SecondIndex, ATerm, MoreTerms, AFactor, MoreFactors, AnIndexTerm, MoreIndexTerms, AnIndexFactor, MoreIndexFactors, is_the};
ghost use Rattle.arr_parse.specs.Reading.{levels as levels_of, unless_refused, refusal};
ghost use Rattle.arr_parse.specs.Parsed.{Agrees};
ghost use Rattle.arr_parse.specs.Steps.{Takes, Leads, Reads, IsSkipped, Chains, ChainsNames};

use crate::refused::ParseRefused;
use crate::source::Source;
use arr_ast::{Lang, Name, Sign};
use arr_lex::{Symbol, Token};
use std::alloc::Global;
use std::marker::Model;

const MAX_LEVELS: usize = 64;

/// The tokens of a source that are left, and how many levels are open.
#[derive(Drop)]
pub struct Cursor<'t> {
    alloc: Global,
    source: &'t Source<'t>,
    tokens: &'t [Token],
    levels: usize,
}

impl<'t> Model for Cursor<'t> {
    ghost use Rattle.std.specs.Prelude.{◌≤◌};
    ghost use Rattle.arr_parse.specs.Steps.{Rest};

    ghost Value = { Rest };

    ghost view = { λ c. record {
      source = c.source.now;
      tokens = c.tokens.now;
      levels = c.levels;
    } };

    ghost invariant = { λ c. c.levels ≤ 64 };
}

impl<'t> Cursor<'t> {
    /// All tokens of a source, with no level open.
    pub fn new(alloc: Global, source: &'t Source<'t>, tokens: &'t [Token]) -> Cursor<'t>
        ensures source { result.source ≡ source.now }
        ensures tokens { result.tokens ≡ tokens.now }
        ensures levels { result.levels ≡ 0 }
    {
        Cursor {
            alloc,
            source,
            tokens,
            levels: 0,
        }
    }

    /// Where trees are put.
    pub fn alloc(&self) -> Global {
        self.alloc
    }

    /// Whether no token is left.
    #[tactic(auto, using(crate::proofs::Due::refusal_top))]
    pub fn is_empty(&self) -> bool
        ensures { MatchBool result (self.now.tokens ≡ []) ((lang : Lang) (end : ℕ) →
            refusal lang end (TopStatements ∷ []) self.now.tokens
            ≡ refusal lang end (ATopStatement ∷ (TopStatements ∷ [])) self.now.tokens) }
    {
        match self.tokens.split_first() {
            Some(_) => false,
            None => true,
        }
    }

    /// The next token, which is due.
    pub fn next(&mut self) -> Result<&'t Token, ParseRefused>
        ensures token { IfOk result (λ token. self.old.tokens ≡ token.now ∷ self.new.tokens) }
        ensures source { self.new.source ≡ self.old.source }
        ensures levels { self.new.levels ≡ self.old.levels }
        ensures within { self.old.levels ≤ 64 }
        ensures refused { IfErr result (λ refused. (self.old.tokens ≡ [])
            × (refused ≡ Syntax (length self.old.source.text))) }
    {
        let Some((token, rest)) = self.tokens.split_first() else {
            return Err(ParseRefused::Syntax {
                at: self.source.len(),
            });
        };
        self.tokens = rest;
        Ok(token)
    }

    /// Takes a separator, which is due.
    pub fn take(&mut self, due: Symbol) -> Result<(), ParseRefused>
        requires { is_the due due ≡ true }
        ensures spelled { OnOk result (Takes [] self.old (Separator due ∷ []) self.new) }
        ensures within { self.old.levels ≤ 64 }
        ensures exact { (others : List Part) → levels_of others ≤ 64 →
            Agrees (λ _. refusal self.old.source.lang (length self.old.source.text) others
            self.new.tokens) result
            (refusal self.old.source.lang (length self.old.source.text) (The due ∷ others)
            self.old.tokens) }
    {
        let token = self.next()?;
        if is_due(due, token.symbol) {
            Ok(())
        } else {
            Err(ParseRefused::Syntax { at: token.start })
        }
    }

    /// Opens a level, which the token at a place begins.
    pub fn open(&mut self, at: usize) -> Result<(), ParseRefused>
        ensures source { self.new.source ≡ self.old.source }
        ensures tokens { self.new.tokens ≡ self.old.tokens }
        ensures levels { MatchResult result
            (λ _. (self.new.levels ≡ suc self.old.levels) × (self.new.levels ≤ 64))
            (λ refused. (self.old.levels ≡ 64) × (refused ≡ Nesting at)) }
    {
        if self.levels == MAX_LEVELS {
            return Err(ParseRefused::Nesting { at });
        }
        self.levels += 1;
        Ok(())
    }

    /// Ends the level that was opened last.
    pub fn end_level(&mut self)
        requires { 0 < self.old.levels }
        ensures source { self.new.source ≡ self.old.source }
        ensures tokens { self.new.tokens ≡ self.old.tokens }
        ensures levels { self.old.levels ≡ suc self.new.levels }
    {
        self.levels -= 1;
    }

    /// Takes the bracket that ends the level that was opened last.
    pub fn close(&mut self, due: Symbol) -> Result<(), ParseRefused>
        requires separator { is_the due due ≡ true }
        requires open { 0 < self.old.levels }
        ensures spelled { OnOk result (map (mark self.old.source) self.old.tokens
            ≡ Separator due ∷ map (mark self.old.source) self.new.tokens) }
        ensures shorter { OnOk result (length self.new.tokens < length self.old.tokens) }
        ensures source { OnOk result (self.new.source ≡ self.old.source) }
        ensures levels { OnOk result (self.old.levels ≡ suc self.new.levels) }
        ensures within { self.old.levels ≤ 64 }
        ensures exact { (others : List Part) → levels_of others ≤ 64 →
            Agrees (λ _. refusal self.old.source.lang (length self.old.source.text) others
            self.new.tokens) result
            (refusal self.old.source.lang (length self.old.source.text) (The due ∷ others)
            self.old.tokens) }
    {
        self.take(due)?;
        self.end_level();
        Ok(())
    }

    /// Takes the `(` of a call, which is due and opens a level, and gives its place.
    pub fn open_call(&mut self) -> Result<usize, ParseRefused>
        ensures spelled { IfOk result (λ at. map (mark self.old.source) self.old.tokens
            ≡ Placed at OpenRound ∷ map (mark self.old.source) self.new.tokens) }
        ensures shorter { OnOk result (length self.new.tokens < length self.old.tokens) }
        ensures source { OnOk result (self.new.source ≡ self.old.source) }
        ensures levels { OnOk result ((self.new.levels ≡ suc self.old.levels)
            × (self.new.levels ≤ 64)) }
        ensures argument { Leads (OneArgument ∷ []) (λ _. AnExpression ∷ The CloseRound ∷ [])
            self.old result self.new }
        ensures arguments { Leads (TwoArguments ∷ [])
            (λ _. AnExpression ∷ The Comma ∷ AnExpression ∷ The CloseRound ∷ [])
            self.old result self.new }
        ensures parameters { Leads (Parameters ∷ [])
            (λ _. AName ∷ MoreParameters 7 ∷ The CloseRound ∷ []) self.old result self.new }
    {
        let token = self.next()?;
        let at = token.start;
        match token.symbol {
            Symbol::OpenRound => {
                self.open(at)?;
                Ok(at)
            }
            _ => Err(ParseRefused::Syntax { at }),
        }
    }

    /// The name that a token spells.
    pub fn name(&self, token: &Token) -> Name
        ensures at { result.at ≡ token.now.start }
        ensures number { result.number ≡ number_at self.now.source token.now }
    {
        self.source.name(token)
    }

    /// The name that is due.
    pub fn declared_name(&mut self) -> Result<Name, ParseRefused>
        ensures spelled { IfOk result
            (λ name. Takes [] self.old (name_spelling name) self.new) }
        ensures exact { Reads (AName ∷ []) self.old result self.new }
    {
        let token = self.next()?;
        match token.symbol {
            Symbol::Name => Ok(self.name(token)),
            _ => Err(ParseRefused::Syntax { at: token.start }),
        }
    }

    /// The sign of a further term and its place, where the tokens begin with one.
    pub fn added_sign(&mut self) -> Option<(Sign, usize)>
        ensures spelled { IfSome result (λ found. Takes [] self.old
            (Placed found.1 (sign_symbol found.0) ∷ []) self.new) }
        ensures shorter { OnSome result (length self.new.tokens < length self.old.tokens) }
        ensures source { self.new.source ≡ self.old.source }
        ensures levels { self.new.levels ≡ self.old.levels }
        ensures none { IfNone result (self.new.tokens ≡ self.old.tokens) }
        ensures terms { Chains MoreTerms ATerm self.old result self.new }
        ensures index_terms { Chains MoreIndexTerms AnIndexTerm self.old result self.new }
    {
        let (token, rest) = self.tokens.split_first()?;
        match token.symbol {
            Symbol::Plus => {
                self.tokens = rest;
                Some((Sign::Plus, token.start))
            }
            Symbol::Minus => {
                self.tokens = rest;
                Some((Sign::Minus, token.start))
            }
            _ => None,
        }
    }

    /// The place of a `*`, where the tokens begin with one.
    pub fn times_sign(&mut self) -> Option<usize>
        ensures spelled { IfSome result (λ at. Takes [] self.old (Placed at Star ∷ []) self.new) }
        ensures shorter { OnSome result (length self.new.tokens < length self.old.tokens) }
        ensures source { self.new.source ≡ self.old.source }
        ensures levels { self.new.levels ≡ self.old.levels }
        ensures none { IfNone result (self.new.tokens ≡ self.old.tokens) }
        ensures factors { Chains MoreFactors AFactor self.old result self.new }
        ensures index_factors { Chains MoreIndexFactors AnIndexFactor self.old result self.new }
    {
        let (token, rest) = self.tokens.split_first()?;
        match token.symbol {
            Symbol::Star => {
                self.tokens = rest;
                Some(token.start)
            }
            _ => None,
        }
    }

    /// A `[`, where the tokens begin with one.
    pub fn open_square(&mut self) -> Option<&'t Token>
        ensures found { IfSome result (λ found. (self.old.tokens ≡ found.now ∷ self.new.tokens)
            × (found.now.symbol ≡ OpenSquare)) }
        ensures source { self.new.source ≡ self.old.source }
        ensures levels { self.new.levels ≡ self.old.levels }
        ensures none { IfNone result (self.new.tokens ≡ self.old.tokens) }
        ensures no_index { IfNone result (IsSkipped FirstIndex self.old.tokens) }
        ensures no_second_index { IfNone result (IsSkipped SecondIndex self.old.tokens) }
        ensures no_dimension { IfNone result (IsSkipped FirstDimension self.old.tokens) }
        ensures no_second_dimension { IfNone result (IsSkipped SecondDimension self.old.tokens) }
    {
        let (token, rest) = self.tokens.split_first()?;
        match token.symbol {
            Symbol::OpenSquare => {
                self.tokens = rest;
                Some(token)
            }
            _ => None,
        }
    }

    /// The word of an input, where the tokens begin with it.
    pub fn input_word(&mut self) -> Option<&'t Token>
        ensures found { IfSome result (λ found. (self.old.tokens ≡ found.now ∷ self.new.tokens)
            × (found.now.symbol ≡ InputWord)) }
        ensures source { self.new.source ≡ self.old.source }
        ensures levels { self.new.levels ≡ self.old.levels }
        ensures none { IfNone result ((self.new.tokens ≡ self.old.tokens)
            × ((lang : Lang) (end : ℕ) → refusal lang end (Inputs ∷ []) self.old.tokens
            ≡ refusal lang end (Definitions ∷ []) self.old.tokens)) }
    {
        let (token, rest) = self.tokens.split_first()?;
        match token.symbol {
            Symbol::Input => {
                self.tokens = rest;
                Some(token)
            }
            _ => None,
        }
    }

    /// The word of a definition, where the tokens begin with it and the language has definitions.
    pub fn definition_word(&mut self) -> Option<&'t Token>
        ensures found { IfSome result (λ found. (self.old.tokens ≡ found.now ∷ self.new.tokens)
            × (found.now.symbol ≡ DefinitionWord)) }
        ensures source { self.new.source ≡ self.old.source }
        ensures levels { self.new.levels ≡ self.old.levels }
        ensures due { OnSome result ((end : ℕ) →
            refusal self.old.source.lang end (Definitions ∷ []) self.old.tokens
            ≡ refusal self.old.source.lang end (AName ∷ Parameters ∷ The Equals ∷ AnExpression
            ∷ The Semicolon ∷ Definitions ∷ []) self.new.tokens) }
        ensures none { IfNone result ((self.new.tokens ≡ self.old.tokens) × ((end : ℕ) →
            refusal self.old.source.lang end (Definitions ∷ []) self.old.tokens
            ≡ refusal self.old.source.lang end (TopStatements ∷ []) self.old.tokens)) }
    {
        let (token, rest) = self.tokens.split_first()?;
        match (self.source.lang(), token.symbol) {
            (Lang::Two, Symbol::Def) => {
                self.tokens = rest;
                Some(token)
            }
            _ => None,
        }
    }

    /// A `(`, where the tokens begin with one and the language has calls.
    pub fn open_arguments(&mut self) -> Option<&'t Token>
        ensures found { IfSome result (λ found. (self.old.tokens ≡ found.now ∷ self.new.tokens)
            × (found.now.symbol ≡ OpenRound)) }
        ensures source { self.new.source ≡ self.old.source }
        ensures levels { self.new.levels ≡ self.old.levels }
        ensures due { IfSome result (λ found. (end : ℕ) (due : List Part) →
            refusal self.old.source.lang end (AfterName ∷ due) self.old.tokens
            ≡ unless_refused found.now.start
            (Some (AnExpression ∷ MoreArguments ∷ The CloseRound ∷ due))
            (λ next. refusal self.old.source.lang end next self.new.tokens)) }
        ensures none { IfNone result ((self.new.tokens ≡ self.old.tokens)
            × ((end : ℕ) (due : List Part) →
            refusal self.old.source.lang end (AfterName ∷ due) self.old.tokens
            ≡ refusal self.old.source.lang end (FirstIndex ∷ due) self.old.tokens)) }
    {
        let (token, rest) = self.tokens.split_first()?;
        match (self.source.lang(), token.symbol) {
            (Lang::Two, Symbol::OpenRound) => {
                self.tokens = rest;
                Some(token)
            }
            _ => None,
        }
    }

    /// The place of a `,`, where the tokens begin with one.
    pub fn comma(&mut self) -> Option<usize>
        ensures spelled { OnSome result (Takes [] self.old (Separator Comma ∷ []) self.new) }
        ensures shorter { OnSome result (length self.new.tokens < length self.old.tokens) }
        ensures source { self.new.source ≡ self.old.source }
        ensures levels { self.new.levels ≡ self.old.levels }
        ensures none { IfNone result (self.new.tokens ≡ self.old.tokens) }
        ensures arguments { Chains MoreArguments AnExpression self.old result self.new }
        ensures parameters { ChainsNames self.old result self.new }
    {
        let (token, rest) = self.tokens.split_first()?;
        match token.symbol {
            Symbol::Comma => {
                self.tokens = rest;
                Some(token.start)
            }
            _ => None,
        }
    }

    /// The word of an output, where the tokens begin with it.
    pub fn output_word(&mut self) -> Option<&'t Token>
        ensures found { IfSome result (λ found. (self.old.tokens ≡ found.now ∷ self.new.tokens)
            × (found.now.symbol ≡ OutputWord)) }
        ensures within { OnSome result (self.old.levels ≤ 64) }
        ensures source { self.new.source ≡ self.old.source }
        ensures levels { self.new.levels ≡ self.old.levels }
        ensures none { IfNone result ((self.new.tokens ≡ self.old.tokens)
            × ((lang : Lang) (end : ℕ) (due : List Part) →
            refusal lang end (ATopStatement ∷ due) self.old.tokens
            ≡ refusal lang end (AStatement ∷ due) self.old.tokens)) }
    {
        let (token, rest) = self.tokens.split_first()?;
        match token.symbol {
            Symbol::Output => {
                self.tokens = rest;
                Some(token)
            }
            _ => None,
        }
    }

    /// Whether the tokens begin with a statement.
    pub fn begins_statement(&self) -> bool
        ensures { MatchBool result
            ((lang : Lang) (end : ℕ) (due : List Part)
            → refusal lang end (Statements ∷ due) self.now.tokens
            ≡ refusal lang end (AStatement ∷ Statements ∷ due) self.now.tokens)
            (IsSkipped Statements self.now.tokens) }
    {
        let Some((token, _)) = self.tokens.split_first() else {
            return false;
        };
        match token.symbol {
            Symbol::Let => true,
            Symbol::Name => true,
            Symbol::For => true,
            _ => false,
        }
    }
}

/// Whether a symbol is the separator that is due.
fn is_due(due: Symbol, symbol: Symbol) -> bool
    requires { is_the due due ≡ true }
    ensures { MatchBool result (symbol ≡ due) (is_the due symbol ≡ false) }
{
    symbol == due
}
