//! Laws of the definitions: what a string is, with no word about reading, and where reading ends.
ghost use Rattle.std.specs.Prelude.{◌≡◌, [], ◌∷◌, ◌++◌, ℕ, List, Some, None};
ghost use Rattle.sql_tokens.specs.declared.token.Token.{Token};
ghost use Rattle.sql_tokens.specs.declared.token.TokenKind.TheVariants as kind;
ghost use Rattle.sql_tokens.specs.Strings.{string_at, IsString, IsLongestString};
ghost use Rattle.sql_tokens.specs.Tokens.{tokens_of};

/// The string that is read behind an opening quote is the longest there, and where none is read there is none.
pub fn strings_are_longest()
    ensures longest { (q : ℕ) (bytes text rest : List ℕ) → string_at q bytes ≡ Some (text, rest) → IsLongestString q bytes text rest }
    ensures none { (q : ℕ) (bytes text rest : List ℕ) → string_at q bytes ≡ None → IsString q bytes text rest → ⊥ }
{}

/// Where no token begins, reading ends: nothing stands behind a stray token.
pub fn strays_stand_last()
    ensures { (text : List ℕ) (front rest : List Token) (t : Token) → tokens_of text ≡ front ++ t ∷ rest → t.kind ≡ kind.Stray → rest ≡ [] }
{}
