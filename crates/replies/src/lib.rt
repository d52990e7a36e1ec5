// Answers as structs and forms as enums, for interfaces without enums.
#![tactic(auto)]

ghost use Rattle.std.specs.Prelude.{◌≡◌};
ghost use Rattle.definitions.specs.Services.{done, refused, refusal_number, refusal_place, outcome_of, read_outcome};
ghost use Rattle.definitions.specs.Replies.{Replies, content_of};
ghost use Rattle.replies.specs.Searches.{search_reply};

use definitions::{Answer, Content, ReadAnswer, Refusal, Reply, Search, SearchReply};
use refusals::{number_of, place_of};

// An answer as a struct.
#[tactic(auto, unfolding(definitions::specs::Services::outcome_of))]
pub fn replied(answer: Answer) -> Reply
    ensures { Replies result (outcome_of answer) }
{
    match answer {
        Ok(n) => success(n, 0),
        Err(r) => refusal(r),
    }
}

// An answer to reading as a struct.
#[tactic(auto, unfolding(definitions::specs::Services::read_outcome))]
pub fn replied_read(answer: ReadAnswer) -> Reply
    ensures { Replies result (read_outcome answer) }
{
    match answer {
        Ok(b) => success(b.samples, b.chair),
        Err(r) => refusal(r),
    }
}

// An answer to counting or locating as a struct: that of the answer, and the tests.
pub fn replied_search(s: Search) -> SearchReply
    ensures { result ≡ search_reply s }
{
    let r = replied(s.answer);
    SearchReply {
        number: r.number,
        chair: r.chair,
        place: r.place,
        count: r.count,
        tests: s.tests as u64,
    }
}

// What a table holds, by its form.
pub fn content_of(form: u32) -> Content
    ensures { result ≡ content_of form }
{
    if form % 2 == 1 {
        Content::Steps
    } else {
        Content::Samples
    }
}

// The reply of success.
#[tactic(auto, unfolding(definitions::specs::Replies::reply_of))]
fn success(count: usize, chair: u16) -> Reply
    ensures { Replies result (done count chair) }
{
    Reply {
        number: 0,
        chair: chair as u32,
        place: 0,
        count: count as u64,
    }
}

// The reply of a refusal.
#[tactic(auto, unfolding(definitions::specs::Replies::reply_of))]
fn refusal(r: Refusal) -> Reply
    ensures { Replies result (refused (refusal_number r) (refusal_place r)) }
{
    Reply {
        number: number_of(r),
        chair: 0,
        place: place_of(r) as u64,
        count: 0,
    }
}
