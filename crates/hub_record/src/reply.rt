// What the hub program writes, made in the buffer that holds its input.
ghost use Rattle.std.specs.Prelude.{◌≡◌, ◌+◌, ◌≤◌, length};
ghost use Rattle.answers.specs.Refusals.{number};
ghost use Rattle.hub_record.specs.Reply as spec;
ghost use Rattle.hub_record.specs.View.{replied};

use crate::line::line;
use crate::opening::open_record;
use crate::part::Part;
use answers::Refusal;

// At the start of the buffer; nothing where there is no room.
fn refuse(refusal: Refusal, buf: &mut [u8]) -> Part
    ensures { replied result buf.new
        ≡ spec.placed (spec.line spec.refused_word (number refusal)) 0 buf.old }
{
    let text = line("refused ", refusal.number() as usize);
    let count = text.len();
    if buf.len() < count {
        return Part { start: 0, count: 0 };
    }
    buf[..count].copy_from_slice(text.as_bytes());
    Part { start: 0, count }
}

// Right before the plaintext.
fn announce(plaintext: Part, buf: &mut [u8]) -> Part
    requires { (32 ≤ plaintext.start) × (plaintext.start + plaintext.count ≤ length buf.old) }
    ensures { replied result buf.new
        ≡ spec.placed (spec.opened_text plaintext.start plaintext.count buf.old)
        (plaintext.start + plaintext.count) buf.old }
{
    let text = line("opened ", plaintext.count);
    let start = plaintext.start - text.len();
    buf[start..plaintext.start].copy_from_slice(text.as_bytes());
    Part {
        start,
        count: text.len() + plaintext.count,
    }
}

// The reply to the first n bytes of the buffer: the whole of what the program writes.
pub fn reply(buf: &mut [u8], n: usize) -> Part
    ensures { replied result buf.new ≡ spec.reply_of buf.old n }
{
    let n = n.min(buf.len());
    match open_record(&mut buf[..n]) {
        Ok(plaintext) => announce(plaintext, buf),
        Err(refusal) => refuse(refusal, buf),
    }
}
