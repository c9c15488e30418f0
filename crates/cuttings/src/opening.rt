// A sealed record through an opening session. One plaintext buffer is lent at each call.
ghost use Rattle.std.specs.Prelude.{◌≡◌, length, IfSome, OnSome};
ghost use Rattle.machine.specs.Bytes.{zeros};
ghost use Rattle.promises.specs.Session.{opening};
ghost use Rattle.promises.specs.SessionCalls.{started};
ghost use Rattle.promises.specs.Texts.{keyed};
ghost use Rattle.aegis128l.specs.Cipher.{aegis128l};
ghost use Rattle.session.specs.View.{session_of};
ghost use Rattle.recorded.specs.Records.{IsAccepted, flipped};
ghost use Rattle.cuttings.specs.Pieces.{Opening, OpeningPart, Tagged, cutting_count};

use crate::Cuttings;
use crate::cut::Cut;
use answers::Refusal;
use recorded::bytes;
use recorded::list::Record;
use session::Session;

// After a piece the start of the buffer holds the message so far.
#[tactic(auto, unfolding(promises::specs::SessionCalls::open_piece))]
fn piece(s: Session, ct: &[u8], so_far: &[u8], plain: &mut [u8]) -> Option<Session>
    ensures { IfSome result (λ t. Opening (session_of s) ct.now (session_of t)) }
{
    let next = crate::session_after(session_pieces::open_piece(s, ct, plain))?;
    plain.starts_with(so_far).then_some(next)
}

// The finish releases the message.
#[tactic(auto, using(lent::proofs::Same::same_equal), unfolding(promises::specs::SessionCalls::open_finish, promises::specs::SessionCalls::released))]
fn released(s: Session, msg: &[u8], tag: &[u8], plain: &mut [u8]) -> Option<()>
    ensures { OnSome result (Tagged tag.now (session_of s)) }
{
    let count = session_finishes::open_finish(s, tag, plain).outcome.ok()?;
    (count == msg.len() && &plain[..] == msg).then_some(())
}

// Another tag is refused, and zeros are left.
fn erased(s: Session, damaged: &[u8], plain: &mut [u8]) -> Option<()>
    ensures { OnSome result (plain.new ≡ zeros (length plain.new)) }
{
    let outcome = session_finishes::open_finish(s, damaged, plain).outcome;
    (outcome == Err(Refusal::TagDiffers) && bytes::is_zero(plain)).then_some(())
}

// A message to open, another tag than its own, and the buffer that the message goes into.
#[derive(Drop)]
struct Opener<'a> {
    parts: Record<'a>,
    damaged: &'a [u8],
    plain: &'a mut [u8],
    ghost one_length: { length parts.msg.now ≡ length parts.ct.now },
    ghost one_bit_changed: { damaged.now ≡ flipped parts.tag.now },
}

impl Cut for Opener<'_> {
    ghost use Rattle.cuttings.specs.Laws.{opening_laws};

    ghost parts = { λ it. it.parts };

    ghost size = { λ r. length r.ct.now };

    ghost Taken = { λ r. OpeningPart r.ct.now };

    ghost Ended = { λ r. Tagged r.tag.now };

    ghost laws = { λ r. opening_laws r.ct.now };

    fn len(&self) -> usize {
        self.parts.ct.len()
    }

    fn piece(&mut self, s: Session, i: usize, j: usize) -> Option<Session> {
        let Record { msg, ct, .. } = self.parts;
        piece(s, &ct[i..j], &msg[..j], self.plain)
    }

    // A copied session goes on by itself.
    fn finish(&mut self, s: Session) -> Option<()> {
        let Record { msg, tag, .. } = self.parts;
        released(s, msg, tag, self.plain)?;
        erased(s, self.damaged, self.plain)
    }
}

// A session of the record's key, nonce and AD, which is lent a buffer of this length at each call.
#[tactic(auto, unfolding(promises::specs::SessionCalls::open_start))]
fn start(record: &Record, room: usize) -> Option<Session>
    ensures { let r = «record».now in IfSome result (λ s. session_of s
        ≡ started aegis128l (keyed aegis128l r.key.now r.nonce.now r.ad.now)
        (length r.ad.now) (length r.tag.now) opening room) }
{
    crate::session_after(session::starts::open_start(
        record.key,
        record.nonce,
        record.ad,
        record.tag.len(),
        room,
    ))
}

// A session that starts with the record, cut everywhere: how many cuttings there were, all equal.
pub fn cuttings(record: &Record, damaged: &mut [u8], plain: &mut [u8]) -> Option<Cuttings>
    ensures accepted { OnSome result (IsAccepted «record».now) }
    ensures counted { IfSome result (λ n. n.count ≡ cutting_count (length «record».now.ct.now)) }
{
    let n = record.ct.len();
    if n > crate::LONGEST || record.msg.len() != n {
        return None;
    }
    bytes::damage(record.tag, damaged)?;
    let s = start(record, plain.len())?;
    let mut opener = Opener {
        parts: *record,
        damaged,
        plain,
    };
    crate::cut::everywhere(&mut opener, s)
}
