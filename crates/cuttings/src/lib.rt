// A record's text through a session, cut at two places (one, where they are equal) and after every byte.
#![tactic(auto)]

ghost use Rattle.std.specs.Prelude.{◌≡◌, ◌≤◌, IfSome};
ghost use Rattle.answers.specs.Refusals.{answer_of};

use session::{Handed, Session};

mod cut;
pub mod macing;
pub mod opening;
pub mod sealing;

// The longest text that is cut.
pub const LONGEST: usize = 65;

// How many cuttings of a text there were, all equal.
#[derive(Clone, Copy, PartialEq, Eq)]
pub struct Cuttings {
    pub count: usize,
    pub ghost few: { count ≤ 8192 },
}

// The session after a call that was done.
fn session_after(handed: Handed<()>) -> Option<Session>
    ensures { IfSome result (λ t. (answer_of handed.outcome ≡ 0) × (t ≡ handed.session)) }
{
    let Handed { outcome, session } = handed;
    outcome.ok()?;
    Some(session)
}
