// The services for C, Rust and Python: the same promises, with the answer as a struct. A slice is a pointer and a length; slices overlap
// neither each other nor the inputs, and word pointers are aligned: that is the caller's part.
#![tactic(auto)]

ghost use Rattle.std.specs.Prelude.{◌≡◌, [], ◌∷◌};
ghost use Rattle.definitions.specs.Services.{Serves, sample_order, former_order, build_service, check_service, build_profile_service, check_profile_service, read_service, extract_service, count_service, locate_service, cuts_service, lyndon_length_service, lyndon_array_service, convert_order_service, to_steps_service, from_steps_service, census_service};
ghost use Rattle.definitions.specs.Replies.{Replies, SearchReplies, content_of, interface_number};

use definitions::{Reply, SearchReply};
use replies::{content_of, replied, replied_read, replied_search};

// The number of this interface, by which a program can tell another library from its own.
#[unsafe(no_mangle)]
pub extern "C" fn sirbolta_interface() -> u32
    ensures { result ≡ interface_number }
{
    3
}

// Builds the table of a text and a chair number: `index::build`.
#[unsafe(no_mangle)]
pub extern "C" fn sirbolta_build(
    text: &[u8],
    chair: u16,
    work: &mut [u32],
    res: &mut [u32],
) -> Reply
    ensures { Serves (build_service sample_order text.now chair work.old res.old) (Replies result) (work.new ∷ res.new ∷ []) }
{
    replied(index::build(text, chair, work, res))
}

// Checks a table: `index::check`.
#[unsafe(no_mangle)]
pub extern "C" fn sirbolta_check(table: &[u32], work: &mut [u32]) -> Reply
    ensures { Serves (check_service sample_order table.now work.old) (Replies result) (work.new ∷ []) }
{
    replied(index::check(table, work))
}

// Builds the table of a drive in the nine-heading profile: `index::build_profile`.
#[unsafe(no_mangle)]
pub extern "C" fn sirbolta_build_profile(
    text: &[u8],
    chair: u16,
    work: &mut [u32],
    res: &mut [u32],
) -> Reply
    ensures { Serves (build_profile_service sample_order text.now chair work.old res.old) (Replies result) (work.new ∷ res.new ∷ []) }
{
    replied(index::build_profile(text, chair, work, res))
}

// Checks a table in the nine-heading profile: `index::check_profile`.
#[unsafe(no_mangle)]
pub extern "C" fn sirbolta_check_profile(table: &[u32], work: &mut [u32]) -> Reply
    ensures { Serves (check_profile_service sample_order table.now work.old) (Replies result) (work.new ∷ []) }
{
    replied(index::check_profile(table, work))
}

// Reads a table back, text and chair number: `index::read`.
#[unsafe(no_mangle)]
pub extern "C" fn sirbolta_read(table: &[u32], work: &mut [u32], res: &mut [u8]) -> Reply
    ensures { Serves (read_service sample_order table.now work.old res.old) (Replies result) (work.new ∷ res.new ∷ []) }
{
    replied_read(index::read(table, work, res))
}

// Reads a part of the text: `index::extract`.
#[unsafe(no_mangle)]
pub extern "C" fn sirbolta_extract(
    table: &[u32],
    start: usize,
    count: usize,
    work: &mut [u32],
    res: &mut [u8],
) -> Reply
    ensures { Serves (extract_service sample_order table.now start count work.old res.old) (Replies result) (work.new ∷ res.new ∷ []) }
{
    replied(index::extract(table, start, count, work, res))
}

// Counts the finds of a pattern in a table that holds what the form says: `index::count`.
#[unsafe(no_mangle)]
pub extern "C" fn sirbolta_count(
    table: &[u32],
    form: u32,
    pattern: &[u8],
    work: &mut [u32],
) -> SearchReply
    ensures { Serves (count_service sample_order table.now (content_of form) pattern.now work.old) (SearchReplies result) (work.new ∷ []) }
{
    replied_search(index::count(table, content_of(form), pattern, work))
}

// Lists them: `index::locate`.
#[unsafe(no_mangle)]
pub extern "C" fn sirbolta_locate(
    table: &[u32],
    form: u32,
    pattern: &[u8],
    work: &mut [u32],
    res: &mut [u32],
) -> SearchReply
    ensures { Serves (locate_service sample_order table.now (content_of form) pattern.now work.old res.old) (SearchReplies result) (work.new ∷ res.new ∷ []) }
{
    replied_search(index::locate(table, content_of(form), pattern, work, res))
}

// Lists the live cuts of a pattern that a search tries: `index::live_cuts`.
#[unsafe(no_mangle)]
pub extern "C" fn sirbolta_live_cuts(pattern: &[u8], res: &mut [u32]) -> Reply
    ensures { Serves (cuts_service sample_order pattern.now res.old) (Replies result) (res.new ∷ []) }
{
    replied(index::live_cuts(pattern, res))
}

// The length of the longest Lyndon word that begins at a position of the text: `index::lyndon_length`.
#[unsafe(no_mangle)]
pub extern "C" fn sirbolta_lyndon_length(table: &[u32], position: usize, work: &mut [u32]) -> Reply
    ensures { Serves (lyndon_length_service sample_order table.now position work.old) (Replies result) (work.new ∷ []) }
{
    replied(index::lyndon_length(table, position, work))
}

// These lengths at all positions: `index::lyndon_array`.
#[unsafe(no_mangle)]
pub extern "C" fn sirbolta_lyndon_array(table: &[u32], work: &mut [u32], res: &mut [u32]) -> Reply
    ensures { Serves (lyndon_array_service sample_order table.now work.old res.old) (Replies result) (work.new ∷ res.new ∷ []) }
{
    replied(index::lyndon_array(table, work, res))
}

// The table in the order of signed samples: `index::to_signed`.
#[unsafe(no_mangle)]
pub extern "C" fn sirbolta_to_signed(table: &[u32], work: &mut [u32], res: &mut [u32]) -> Reply
    ensures { Serves (convert_order_service former_order sample_order table.now work.old res.old) (Replies result) (work.new ∷ res.new ∷ []) }
{
    replied(index::to_signed(table, work, res))
}

// The drive rearranged to its steps: `index::to_steps`.
#[unsafe(no_mangle)]
pub extern "C" fn sirbolta_to_steps(text: &[u8], res: &mut [u8]) -> Reply
    ensures { Serves (to_steps_service text.now res.old) (Replies result) (res.new ∷ []) }
{
    replied(index::to_steps(text, res))
}

// The drive restored: `index::from_steps`.
#[unsafe(no_mangle)]
pub extern "C" fn sirbolta_from_steps(text: &[u8], res: &mut [u8]) -> Reply
    ensures { Serves (from_steps_service text.now res.old) (Replies result) (res.new ∷ []) }
{
    replied(index::from_steps(text, res))
}

// Lists the distinct runs of q samples of the text, and how often each begins there: `census::census`.
#[unsafe(no_mangle)]
pub extern "C" fn sirbolta_census(
    table: &[u32],
    q: usize,
    work: &mut [u32],
    runs: &mut [u8],
    counts: &mut [u32],
) -> Reply
    ensures { Serves (census_service sample_order table.now q work.old runs.old counts.old) (Replies result) (work.new ∷ runs.new ∷ counts.new ∷ []) }
{
    replied(census::census(table, q, work, runs, counts))
}
