// The stack of rules in the work slice: pushing a rule, which is looked up by its two words and added if it is new, and joining the two
// rules on top.
#![tactic(auto)]

ghost use Rattle.std.specs.Prelude.{◌≡◌, ℕ, ◌≤◌, ◌<◌, length};
ghost use Rattle.lists.specs.Newest.{has_words};
ghost use Rattle.lists.specs.Parts.{part};
ghost use Rattle.lyndon.specs.Closings.{push, joins};
ghost use Rattle.layout.specs.Layout.{LINKS, TABLE, WORK};
ghost use Rattle.dict.specs.Dictionary.{Dict, IsLatest};
ghost use Rattle.stack.specs.Areas.{Holds, Pushable, Joinable, Below, added};

use layout::{LEFT_HALF, LINKS, RIGHT_HALF, STACK, TABLE, TABLE_END};

// How many rules there are, and how many stand on the stack.
#[derive(Clone, Copy)]
pub struct Counts {
    pub rules: usize,
    pub depth: usize,
}

// Joins the two rules on top, k times.
pub fn join_all(work: &mut [u32], c: Counts, k: u32) -> Counts
    requires { Joinable work.old c.rules c.depth k }
    ensures { ((p : Joinable work.old c.rules c.depth k) → Holds p.o (joins k p.s) work.new result.rules result.depth) × Below work.old work.new }
{
    let mut t = c;
    for _ in 0..k {
        t = join_top(work, t);
    }
    t
}

// Joins the two rules on top.
fn join_top(work: &mut [u32], c: Counts) -> Counts
    requires { Joinable work.old c.rules c.depth 1 }
    ensures { ((p : Joinable work.old c.rules c.depth 1) → Holds p.o (joins 1 p.s) work.new result.rules result.depth) × Below work.old work.new }
{
    let Counts { rules, depth } = c;
    let i = work[STACK + depth - 2];
    let j = work[STACK + depth - 1];
    let below = Counts {
        rules,
        depth: depth - 2,
    };
    push_rule(work, below, LEFT_HALF + i, RIGHT_HALF + j)
}

// Pushes the rule with the words x and y, which is added if it is new.
pub fn push_rule(work: &mut [u32], c: Counts, x: u32, y: u32) -> Counts
    requires { Pushable work.old c.rules c.depth x y }
    ensures { ((p : Pushable work.old c.rules c.depth x y) → Holds p.o (push p.s.rules p.rule p.s.stack) work.new result.rules result.depth) × Below work.old work.new }
{
    let Counts { rules, depth } = c;
    match look_up(work, x, y) {
        Some(r) => {
            work[STACK + depth] = r as u32;
            Counts {
                rules,
                depth: depth + 1,
            }
        }
        None => {
            add(work, rules, x, y);
            work[STACK + depth] = rules as u32;
            Counts {
                rules: rules + 1,
                depth: depth + 1,
            }
        }
    }
}

// The newest rule with the words x and y.
fn look_up(work: &[u32], x: u32, y: u32) -> Option<usize>
    requires { ((n : ℕ) × Dict (part TABLE 4608 work.now) (part LINKS 3328 work.now) n × (n ≤ 2304)) × (WORK ≤ length work.now) }
    ensures { (n : ℕ) → Dict (part TABLE 4608 work.now) (part LINKS 3328 work.now) n → IsLatest (has_words (part TABLE 4608 work.now) x y) n result }
{
    dict::find(&work[TABLE..TABLE_END], &work[LINKS..TABLE], x, y)
}

// Adds rule n with the words x and y.
fn add(work: &mut [u32], n: usize, x: u32, y: u32)
    requires { (n < 2304) × (WORK ≤ length work.old) }
    ensures { work.new ≡ added work.old n x y }
{
    dict::store(work, TABLE, n, x, y);
    dict::link(work, LINKS, n, x, y);
}
