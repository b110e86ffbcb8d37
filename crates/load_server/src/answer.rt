// What is answered to a request.
ghost use Rattle.std.specs.Prelude.{◌≡◌, MatchResult};
ghost use Rattle.load_server.specs.Responses.{response_of, out_of_memory};

use dl_values::NoMemory;

/// What is answered to a request. But for the JSON of a request that was served, it takes no memory.
#[derive(Drop)]
pub enum Answer {
    /// The request was served, and this is its JSON.
    Json(Vec<u8>),
    NotFound,
    KeeperFault,
    OutOfMemory,
}

impl Answer {
    ghost use Rattle.std.specs.Prelude.{◌≡◌};
    ghost use Rattle.load_server.specs.Responses.{response_of};

    /// The status (RFC 9110, section 15).
    pub fn status(&self) -> u16
        ensures { result ≡ (response_of self.now).status }
    {
        match self {
            Answer::Json(_) => 200,
            Answer::NotFound => 404,
            Answer::KeeperFault | Answer::OutOfMemory => 503,
        }
    }

    /// The body.
    #[tactic(auto, unfolding(crate::specs::Responses::fault_body, json::specs::Print::escape_byte))]
    pub fn body(&self) -> &[u8]
        ensures { result.now ≡ (response_of self.now).body }
    {
        match self {
            Answer::Json(body) => body.as_slice(),
            Answer::NotFound => b"{\"error\":\"NotFound\"}",
            Answer::KeeperFault => b"{\"error\":\"KeeperFault\"}",
            Answer::OutOfMemory => b"{\"error\":\"OutOfMemory\"}",
        }
    }
}

/// The JSON, where there was memory for it.
pub fn made(body: Result<Vec<u8>, NoMemory>) -> Answer
    ensures { MatchResult body (λ b. response_of result ≡ record { status = 200; body = b.items }) (λ _. response_of result ≡ out_of_memory) }
{
    match body {
        Ok(body) => Answer::Json(body),
        Err(_) => Answer::OutOfMemory,
    }
}
