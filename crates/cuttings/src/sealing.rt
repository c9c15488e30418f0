// A sealed record through a sealing session.
ghost use Rattle.std.specs.Prelude.{◌≡◌, length, IfSome, OnSome};
ghost use Rattle.promises.specs.Session.{sealing};
ghost use Rattle.promises.specs.SessionCalls.{started};
ghost use Rattle.promises.specs.Texts.{keyed};
ghost use Rattle.aegis128l.specs.Cipher.{aegis128l};
ghost use Rattle.session.specs.View.{session_of};
ghost use Rattle.recorded.specs.Records.{IsSealed};
ghost use Rattle.cuttings.specs.Pieces.{Sealing, SealingPart, Tagged, cutting_count};

use crate::Cuttings;
use crate::cut::Cut;
use recorded::bytes;
use recorded::list::Record;
use session::Session;

// From one buffer to another a piece gives the ciphertext's bytes at its place.
#[tactic(auto, unfolding(promises::specs::SessionCalls::seal_piece))]
fn piece(s: Session, msg: &[u8], ct: &[u8], buf: &mut [u8]) -> Option<Session>
    ensures { IfSome result (λ t. Sealing (session_of s) msg.now ct.now (session_of t)) }
{
    let next = crate::session_after(session_pieces::seal_piece(s, msg, buf))?;
    bytes::same(buf, ct)?;
    Some(next)
}

// In place a piece gives the ciphertext's bytes at its place.
#[tactic(auto, unfolding(promises::specs::SessionCalls::seal_piece_in_place))]
fn piece_in_place(s: Session, msg: &[u8], ct: &[u8], buf: &mut [u8]) -> Option<Session>
    ensures { IfSome result (λ t. Sealing (session_of s) msg.now ct.now (session_of t)) }
{
    bytes::lay(msg, buf)?;
    let next = crate::session_after(session_pieces::seal_piece_in_place(s, buf))?;
    bytes::same(buf, ct)?;
    Some(next)
}

// The finish gives the tag.
#[tactic(auto, unfolding(promises::specs::SessionCalls::seal_finish))]
fn finish(s: Session, tag: &[u8], made: &mut [u8]) -> Option<()>
    ensures { OnSome result (Tagged tag.now (session_of s)) }
{
    crate::session_after(session_finishes::seal_finish(s, made))?;
    bytes::same(made, tag)
}

// A message to seal, and what the session writes: the ciphertext into `buf`, the tag into `made`.
#[derive(Drop)]
struct Sealer<'a> {
    parts: Record<'a>,
    buf: &'a mut [u8],
    made: &'a mut [u8],
    ghost one_length: { (length parts.ct.now ≡ length parts.msg.now)
        × (length buf.now ≡ length parts.msg.now) },
}

impl Cut for Sealer<'_> {
    ghost use Rattle.cuttings.specs.Laws.{sealing_laws};

    ghost parts = { λ it. it.parts };

    ghost size = { λ r. length r.msg.now };

    ghost Taken = { λ r. SealingPart r.msg.now r.ct.now };

    ghost Ended = { λ r. Tagged r.tag.now };

    ghost laws = { λ r. sealing_laws r.msg.now r.ct.now };

    fn len(&self) -> usize {
        self.parts.msg.len()
    }

    fn piece(&mut self, s: Session, i: usize, j: usize) -> Option<Session> {
        let Record { msg, ct, .. } = self.parts;
        piece(s, &msg[i..j], &ct[i..j], &mut self.buf[i..j])
    }

    fn middle(&mut self, s: Session, i: usize, j: usize) -> Option<Session> {
        let Record { msg, ct, .. } = self.parts;
        piece_in_place(s, &msg[i..j], &ct[i..j], &mut self.buf[i..j])
    }

    fn finish(&mut self, s: Session) -> Option<()> {
        finish(s, self.parts.tag, self.made)
    }
}

// A session of the record's key, nonce and AD.
#[tactic(auto, unfolding(promises::specs::SessionCalls::seal_start))]
fn start(record: &Record) -> Option<Session>
    ensures { let r = «record».now in IfSome result (λ s. session_of s
        ≡ started aegis128l (keyed aegis128l r.key.now r.nonce.now r.ad.now)
        (length r.ad.now) (length r.tag.now) sealing 0) }
{
    crate::session_after(session::starts::seal_start(
        record.key,
        record.nonce,
        record.ad,
        record.tag.len(),
    ))
}

// A session that starts with the record, cut everywhere: how many cuttings there were, all equal.
pub fn cuttings(record: &Record, buf: &mut [u8], made: &mut [u8]) -> Option<Cuttings>
    ensures sealed { OnSome result (IsSealed «record».now) }
    ensures counted { IfSome result (λ n. n.count ≡ cutting_count (length «record».now.msg.now)) }
{
    let n = record.msg.len();
    if n > crate::LONGEST || record.ct.len() != n || buf.len() != n {
        return None;
    }
    let s = start(record)?;
    let mut sealer = Sealer {
        parts: *record,
        buf,
        made,
    };
    crate::cut::everywhere(&mut sealer, s)
}
