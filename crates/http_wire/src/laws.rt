//! Laws over the definitions, each the contract of a function that does nothing.
ghost use Rattle.std.specs.Prelude.{◌≡◌, List, [], Option, ℕ};
ghost use Rattle.http_wire.specs.Heads.{TakesHead};
ghost use Rattle.http_wire.specs.Requests.{Fails, Request, Requests, TakesBody};
ghost use Rattle.http_wire.specs.declared.error.WireError.{WireError};
ghost use Rattle.http_wire.specs.declared.head.Head.{Head};

/// A text has one list of requests, and one end.
pub fn requests_are_unique()
    ensures { (at : ℕ) (text : List ℕ) (these those : List Request) (end other : Option WireError)
        → Requests at text these end → Requests at text those other → (these ≡ those) × (end ≡ other) }
{}

/// At the front of a text stands one head at most, and behind a head one body. Where a request stands, the text has not ended
/// there, and no request that cannot be read stands there.
pub fn first_requests_are_unique()
    ensures heads { (at : ℕ) (text : List ℕ) (one other : Head) (rest left : List ℕ)
        → TakesHead at text one rest → TakesHead at text other left → (one ≡ other) × (rest ≡ left) }
    ensures bodies { (text : List ℕ) (head : Head) (one other rest left : List ℕ)
        → TakesBody text head one rest → TakesBody text head other left → (one ≡ other) × (rest ≡ left) }
    ensures some { (at : ℕ) (head : Head) (rest : List ℕ) → TakesHead at [] head rest → ⊥ }
    ensures whole { (at : ℕ) (text : List ℕ) (error : WireError) (head : Head) (behind body rest : List ℕ)
        → Fails at text error → TakesHead at text head behind → TakesBody behind head body rest → ⊥ }
{}
