// What lists hold.
ghost use Rattle.std.specs.Prelude.{ℕ, ◌<◌, List, length, Result, IfOk};
ghost use Rattle.sql_tokens.specs.declared.token.Token.{Token};
ghost use Rattle.sql_grammar.specs.Reading.{Gives};

use crate::one_token::name;
use crate::stop::Stop;
use dl_values::Name;
use sql_tokens::Token;
use std::alloc::Global;

/// A part of statements that stands in lists.
pub trait Piece: Drop {
    ghost reader: { List Token → Result (Self × List Token) ℕ };

    /// The part that the tokens begin with, and the tokens behind it.
    fn read(alloc: Global, tokens: &[Token]) -> Result<(Self, &[Token]), Stop>
        ensures gives { Gives (λ x. (x.0, x.1.now)) result (reader tokens.now) }
        ensures shorter { IfOk result (λ x. length x.1.now < length tokens.now) };
}

impl Piece for Name {
    ghost use Rattle.sql_grammar.specs.Reading.{name_at};

    ghost reader = { name_at };

    #[tactic(auto, using(crate::proofs::Singles::name_leaves_less))]
    fn read(alloc: Global, tokens: &[Token]) -> Result<(Name, &[Token]), Stop> {
        name(alloc, tokens)
    }
}
