//! Laws of the grammar's definitions, each a function that does nothing and ensures the law.

ghost use Rattle.std.specs.Prelude.{◌≡◌, ℕ, List, [], ◌∷◌, length, map, Contains, is_some, None};
ghost use Rattle.arr_ast.specs.declared.lang.Lang.{Lang};
ghost use Rattle.arr_ast.specs.declared.lang.Lang.TheVariants.{One, Two};
ghost use Rattle.arr_ast.specs.IndexTree.{Sum};
ghost use Rattle.arr_ast.specs.ProgramTree.{ProgramTree};
ghost use Rattle.arr_lex.specs.declared.token.Symbol.TheVariants.{Name};
ghost use Rattle.arr_lex.specs.declared.token.Token.{Token};
ghost use Rattle.arr_parse.specs.Grammar.{Part, Inputs};
ghost use Rattle.arr_parse.specs.IndexSpelling.{sum_marks};
ghost use Rattle.arr_parse.specs.Names.{KnowsNames};
ghost use Rattle.arr_parse.specs.Parsed.{IsTreeOf};
ghost use Rattle.arr_parse.specs.ProgramSpelling.{program_marks};
ghost use Rattle.arr_parse.specs.Reading.{refusal, OnlyNests};
ghost use Rattle.arr_parse.specs.Unplaced.{SameWords, unplaced};
ghost use Rattle.arr_parse.specs.Written.{Has};

/// No two trees of index expressions have one spelling.
pub fn one_index_tree()
    ensures { (a b : Sum) → sum_marks a ≡ sum_marks b → a ≡ b }
{}

/// No two trees of programs have one spelling and one length.
pub fn one_program_tree()
    ensures { (a b : ProgramTree) → program_marks a ≡ program_marks b → a.end ≡ b.end → a ≡ b }
{}

/// A text's tokens have at most one tree.
pub fn one_tree()
    ensures { (lang : Lang) (text : List ℕ) (tokens : List Token) (a b : ProgramTree)
        → IsTreeOf lang text tokens a → IsTreeOf lang text tokens b → a ≡ b }
{}

/// Texts whose tokens are the same words in the same order have the same tree, but for places.
pub fn one_tree_of_words()
    ensures { (lang : Lang) (text other : List ℕ) (tokens others : List Token) (a b : ProgramTree)
        → SameWords text tokens other others →
        IsTreeOf lang text tokens a → IsTreeOf lang other others b → unplaced a ≡ unplaced b }
{}

/// Whether a text is refused is decided by its tokens' symbols, wherever they are.
pub fn refused_by_symbols()
    ensures { (lang : Lang) (end other_end : ℕ) (due : List Part) (tokens others : List Token)
        → map (λ token. token.symbol) tokens ≡ map (λ token. token.symbol) others →
        is_some (refusal lang end due tokens) ≡ is_some (refusal lang other_end due others) }
{}

/// Two names of a program have one number exactly where they have the same bytes.
pub fn numbers_determine_names()
    ensures { (lang : Lang) (text : List ℕ) (tokens : List Token) (a b : Token)
        → Contains tokens a → Contains tokens b → a.symbol ≡ Name → b.symbol ≡ Name
        → KnowsNames lang text tokens a b }
{}

/// Tokens that reading doesn't refuse have a tree.
pub fn read_or_refused()
    ensures { (lang : Lang) (text : List ℕ) (tokens : List Token)
        → refusal lang (length text) (Inputs ∷ []) tokens ≡ None →
        (tree : ProgramTree) × IsTreeOf lang text tokens tree }
{}

/// The tokens of a tree that the language has are read to their end, or refused for nesting alone.
pub fn trees_are_read()
    ensures { (lang : Lang) (text : List ℕ) (tokens : List Token) (tree : ProgramTree)
        → Has lang tree → IsTreeOf lang text tokens tree →
        OnlyNests (refusal lang (length text) (Inputs ∷ []) tokens) }
{}

/// Tokens that the first language reads are read in the second, and have the same tree there.
pub fn read_in_two()
    ensures read { (text : List ℕ) (tokens : List Token)
        → refusal One (length text) (Inputs ∷ []) tokens ≡ None
        → refusal Two (length text) (Inputs ∷ []) tokens ≡ None }
    ensures tree { (text : List ℕ) (tokens : List Token) (tree : ProgramTree)
        → IsTreeOf One text tokens tree → IsTreeOf Two text tokens tree }
{}
