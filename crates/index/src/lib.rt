// The services, each from the crate that has it: it checks what it is handed in the paper's order, and does its work or refuses with number and place.
// What it answers and what every lent slice holds afterwards is given by its definition (definitions/specs/Services.antt), from the inputs alone: the promise stands
// with the function, in that crate.
#![tactic(auto)]

pub use building::{build, build_profile};
pub use checking::{check, check_profile};
pub use converting::to_signed;
pub use lyndon_words::{lyndon_array, lyndon_length};
pub use reading::{extract, read};
pub use rearranging::{from_steps, to_steps};
pub use searching::{count, live_cuts, locate};
