// The reports of ends of two-phase loads.
ghost use Rattle.std.specs.Prelude.{[]};
ghost use Rattle.front_defs.specs.Script.{Served};
ghost use Rattle.load_server.specs.Ends.{ended, refused_end};
ghost use Rattle.load_server.specs.Responses.{response_of};
ghost use Rattle.load_server.specs.Scripts.{refused_by, made as made_or_lacking};
ghost use Rattle.reply_texts.specs.Texts.{refusal_text as text_of_refusal};

use crate::answer::{Answer, made};
use dl_values::{NoMemory, Text};
use front_defs::Reply;
use reply_json::{EndReport, render_end};
use reply_texts::refusal_text;
use std::alloc::Global;

/// The load was committed and published, or not yet published, or aborted.
#[tactic(auto, unfolding(crate::specs::Ends::ended))]
pub fn ended(alloc: Global, commit: bool, published: bool, txn: u64) -> Answer
    ensures { Served (made_or_lacking (ended commit published txn)) [] (response_of result) }
{
    let report = EndReport::Done {
        commit,
        published,
        txn,
    };
    made(render_end(alloc, &report))
}

/// The end was refused, with this message.
#[tactic(auto, unfolding(crate::specs::Ends::refused_end))]
pub fn refused_end(alloc: Global, message: Text) -> Answer
    ensures { Served (made_or_lacking (refused_end message)) [] (response_of result) }
{
    made(render_end(alloc, &EndReport::Refused(message)))
}

/// The core refused the end.
pub fn refused_by(alloc: Global, reply: &Reply) -> Answer
    ensures { Served (refused_by reply.now) [] (response_of result) }
{
    match reply {
        Reply::KeeperFault => Answer::KeeperFault,
        Reply::NoMemory => Answer::OutOfMemory,
        _ => refused_with_text(alloc, reply),
    }
}

fn refused_with_text(alloc: Global, reply: &Reply) -> Answer
    ensures { Served (made_or_lacking (refused_end (text_of_refusal reply.now))) [] (response_of result) }
{
    match refusal_text(alloc, reply) {
        Ok(message) => refused_end(alloc, message),
        Err(NoMemory) => Answer::OutOfMemory,
    }
}
