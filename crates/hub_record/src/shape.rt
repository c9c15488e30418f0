// The shape of a hub record, on numbers: the first rule that it breaks, in document 01's order.
ghost use Rattle.std.specs.Prelude.{◌≡◌};
ghost use Rattle.answers.specs.Answers.{unless};
ghost use Rattle.answers.specs.Refusals.{number, answer_of};
ghost use Rattle.hub_record.specs.Record as spec;

use crate::{AD_LIMIT, HEAD, INPUT_LIMIT, TEXT_LIMIT};
use answers::Refusal;
use answers::once::tag_size;

// A rung of the ladder.
fn refuse_unless(holds: bool, refusal: Refusal) -> Result<(), Refusal>
    ensures { answer_of result ≡ unless (number refusal) holds 0 }
{
    if holds { Ok(()) } else { Err(refusal) }
}

// `n` is the input's length, `tag` the tag size and `ad` the AD length that its head gives.
pub fn shape(n: usize, tag: u8, ad: u16) -> Result<(), Refusal>
    ensures { answer_of result ≡ spec.shape n tag ad }
{
    let least = HEAD + ad as usize + tag as usize;
    refuse_unless(n <= INPUT_LIMIT, Refusal::WrongShape)?;
    refuse_unless(HEAD <= n, Refusal::WrongShape)?;
    refuse_unless(ad as usize <= AD_LIMIT, Refusal::WrongShape)?;
    refuse_unless(tag_size(tag as usize), Refusal::TagSize)?;
    refuse_unless(least <= n, Refusal::WrongShape)?;
    refuse_unless(n <= least + TEXT_LIMIT, Refusal::WrongShape)
}
