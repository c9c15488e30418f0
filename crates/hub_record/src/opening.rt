// Opening a hub record in place.
ghost use Rattle.std.specs.Prelude.{◌≡◌, ◌+◌, ◌≤◌, length};
ghost use Rattle.answers.specs.Refusals.{answer_of};
ghost use Rattle.oneshot.specs.Leaves.{left};
ghost use Rattle.hub_record.specs.Record.{head_size, tag_size_in, ad_length_in, open_parts, open_record_of};
ghost use Rattle.hub_record.specs.View.{record_left};

use crate::HEAD;
use crate::part::Part;
use crate::shape::shape;
use answers::Refusal;

// What the head says: the tag size and the AD length.
#[derive(Clone, Copy)]
struct Head {
    tag: u8,
    ad: u16,
}

impl Head {
    // Past the end of the input stands 0.
    fn read(input: &[u8]) -> Head
        ensures { (result.tag ≡ tag_size_in input.now) × (result.ad ≡ ad_length_in input.now) }
    {
        let byte = |i: usize| input.get(i).copied().unwrap_or(0);
        Head {
            tag: byte(0),
            ad: u16::from_le_bytes([byte(33), byte(34)]),
        }
    }
}

// A record of the right shape, whose ciphertext is this part of it.
fn open_parts(input: &mut [u8], text: Part) -> Result<(), Refusal>
    requires { (head_size ≤ text.start) × (text.start + text.count ≤ length input.old) }
    ensures { left (answer_of result) input.new
        ≡ open_parts input.old text.start (text.start + text.count) }
{
    let (front, rest) = input.split_at_mut(text.start);
    let (ciphertext, tag) = rest.split_at_mut(text.count);
    oneshot::aegis128l_open_in_place(
        &front[1..17],
        &front[17..33],
        &front[HEAD..],
        ciphertext,
        tag,
    )
}

// The record in `input`, opened in place, and where its plaintext then stands: where the ciphertext stood. Refused with 7, that place is
// 0xaa; with 1 and 11 nothing is changed. No other byte changes.
pub fn open_record(input: &mut [u8]) -> Result<Part, Refusal>
    ensures { record_left result input.new ≡ open_record_of input.old }
{
    let head = Head::read(input);
    let n = input.len();
    shape(n, head.tag, head.ad)?;
    let start = HEAD + head.ad as usize;
    let text = Part {
        start,
        count: n - start - head.tag as usize,
    };
    open_parts(input, text)?;
    Ok(text)
}
