// A MAC record through a MAC session.
ghost use Rattle.std.specs.Prelude.{◌≡◌, length, IfSome, OnSome};
ghost use Rattle.answers.specs.Refusals.{answer_of};
ghost use Rattle.promises.specs.SessionCalls.{mac_finish_check, started};
ghost use Rattle.promises.specs.Session.{macing};
ghost use Rattle.aegis128l.specs.Aegis128L.{init};
ghost use Rattle.aegis128l.specs.Cipher.{aegis128l, mac_of_aegis128l};
ghost use Rattle.session.specs.View.{session_of};
ghost use Rattle.recorded.specs.Records.{IsMaced, flipped};
ghost use Rattle.cuttings.specs.Pieces.{Macing, MacingPart, MacTagged, cutting_count};

use crate::Cuttings;
use crate::cut::Cut;
use answers::Refusal;
use recorded::bytes;
use recorded::list::Record;
use session::Session;

#[tactic(auto, unfolding(promises::specs::SessionCalls::mac_piece))]
fn piece(s: Session, data: &[u8]) -> Option<Session>
    ensures { IfSome result (λ t. Macing (session_of s) «data».now (session_of t)) }
{
    crate::session_after(session_pieces::mac_piece(s, data))
}

// The finish gives the tag.
#[tactic(auto, unfolding(promises::specs::SessionCalls::mac_finish))]
fn gives(s: Session, tag: &[u8], made: &mut [u8]) -> Option<()>
    ensures { OnSome result (MacTagged tag.now (session_of s)) }
{
    crate::session_after(session_finishes::mac_finish(s, made))?;
    bytes::same(made, tag)
}

// The check at the end has this outcome.
fn checked(s: Session, tag: &[u8], outcome: Result<(), Refusal>) -> Option<()>
    ensures { OnSome result ((mac_finish_check aegis128l mac_of_aegis128l (session_of s) tag.now).answer
        ≡ answer_of outcome) }
{
    (session_finishes::mac_finish_check(s, tag).outcome == outcome).then_some(())
}

// A copied session goes on by itself: one is finished, one accepts the tag, and one refuses another.
fn finish(s: Session, tag: &[u8], damaged: &[u8], made: &mut [u8]) -> Option<()>
    ensures { OnSome result (MacTagged tag.now (session_of s)) }
{
    gives(s, tag, made)?;
    checked(s, tag, Ok(()))?;
    checked(s, damaged, Err(Refusal::TagDiffers))
}

// Data to MAC, another tag than its own, and the buffer that the tag goes into.
#[derive(Drop)]
struct Macer<'a> {
    parts: Record<'a>,
    damaged: &'a [u8],
    made: &'a mut [u8],
    ghost one_bit_changed: { damaged.now ≡ flipped parts.tag.now },
}

impl Cut for Macer<'_> {
    ghost use Rattle.cuttings.specs.Laws.{macing_laws};

    ghost parts = { λ it. it.parts };

    ghost size = { λ r. length r.msg.now };

    ghost Taken = { λ r. MacingPart r.msg.now };

    ghost Ended = { λ r. MacTagged r.tag.now };

    ghost laws = { λ r. macing_laws r.msg.now };

    fn len(&self) -> usize {
        self.parts.msg.len()
    }

    fn piece(&mut self, s: Session, i: usize, j: usize) -> Option<Session> {
        let msg = self.parts.msg;
        piece(s, &msg[i..j])
    }

    fn finish(&mut self, s: Session) -> Option<()> {
        finish(s, self.parts.tag, self.damaged, self.made)
    }
}

// A session of the record's key and nonce.
#[tactic(auto, unfolding(promises::specs::SessionCalls::mac_start))]
fn start(record: &Record) -> Option<Session>
    ensures { let r = «record».now in IfSome result (λ s. session_of s
        ≡ started aegis128l (init r.key.now r.nonce.now) 0 (length r.tag.now) macing 0) }
{
    crate::session_after(session::starts::mac_start(record.key, record.nonce, record.tag.len()))
}

// A session that starts with the record, cut everywhere: how many cuttings there were, all equal.
pub fn cuttings(record: &Record, damaged: &mut [u8], made: &mut [u8]) -> Option<Cuttings>
    ensures maced { OnSome result (IsMaced «record».now) }
    ensures counted { IfSome result (λ n. n.count ≡ cutting_count (length «record».now.msg.now)) }
{
    if record.msg.len() > crate::LONGEST {
        return None;
    }
    bytes::damage(record.tag, damaged)?;
    let s = start(record)?;
    let mut macer = Macer {
        parts: *record,
        damaged,
        made,
    };
    crate::cut::everywhere(&mut macer, s)
}
