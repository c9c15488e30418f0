// Finishes and aborts: they end a session, which then holds zeros and the mark that it is over.
#![tactic(auto)]

ghost use Rattle.std.specs.Prelude.{◌≡◌, ◌<◌, true, eqb, length};
ghost use Rattle.lent.specs.Lent.{same, wiped};
ghost use Rattle.answers.specs.Refusals.{answer_of};
ghost use Rattle.promises.specs.Session as promise;
ghost use Rattle.promises.specs.SessionCalls.{Wrote};
ghost use Rattle.promises.specs.Met.{SealFinishMet, OpenFinishMet, AbortMet, MacFinishMet, MacFinishCheckMet};
ghost use Rattle.aegis128l.specs.Aegis128L as draft;
ghost use Rattle.aegis128l.specs.Aegis128L.{Blocks};
ghost use Rattle.aegis128l.specs.Cipher.{aegis128l, mac_of_aegis128l};
ghost use Rattle.aegis128l.specs.View.{state_of};
ghost use Rattle.session.specs.View.{session_of, count_of};
ghost use Rattle.session_finishes.specs.Due.{due, due_written};

use aegis128l::state::State;
use aegis128l::tag::Lengths;
use aes::Sbox;
use answers::Refusal;
use session::{Handed, Kind, Session};

// The state that a MAC session comes to: where no data came, one block of zeros is absorbed.
#[tactic(auto, unfolding(promises::specs::Session::mac_closed))]
fn mac_closed(s: Session, t: &Sbox) -> State
    requires { s.fill < 32 }
    ensures { state_of result ≡ promise.mac_closed aegis128l mac_of_aegis128l s.msg_len (session_of s) }
{
    if s.msg_len == 0 {
        let none = [0u8; 32];
        return s.core().state.absorb(&none, t);
    }
    s.core().close(t)
}

// What the tag of a session of this kind is made of.
fn closed(s: Session, kind: Kind, t: &Sbox) -> (State, Lengths)
    requires { promise.well_formed 32 (session_of s) ≡ true }
    ensures { draft.tag (state_of result.0) result.1.first result.1.second s.tag_size ≡ due kind (session_of s) }
{
    match kind {
        Kind::Sealing | Kind::Opening => {
            let lengths = Lengths {
                first: s.ad_len,
                second: s.msg_len,
            };
            (s.core().close(t), lengths)
        }
        Kind::Macing => {
            let lengths = Lengths {
                first: s.msg_len,
                second: s.tag_size as u64,
            };
            (mac_closed(s, t), lengths)
        }
    }
}

// The tag that a session of this kind comes to.
fn put_due(s: Session, kind: Kind, tag: &mut [u8])
    requires { (promise.well_formed 32 (session_of s) ≡ true) × (length tag.old ≡ s.tag_size) }
    ensures { tag.new ≡ due kind (session_of s) }
{
    let t = aes::sbox();
    let (state, lengths) = closed(s, kind, &t);
    state.tag(lengths, tag, &t);
}

// Whether a tag is the one that a session of this kind comes to.
fn is_due(s: Session, kind: Kind, tag: &[u8]) -> bool
    requires { (promise.well_formed 32 (session_of s) ≡ true) × (length tag.now ≡ s.tag_size) }
    ensures { result ≡ same tag.now (due kind (session_of s)) }
{
    let t = aes::sbox();
    let (state, lengths) = closed(s, kind, &t);
    state.verify(lengths, tag, &t)
}

// What is handed back of a session that ends.
fn over<T>(outcome: Result<T, Refusal>) -> Handed<T>
    ensures outcome { result.outcome ≡ outcome }
    ensures session { session_of result.session ≡ promise.ended aegis128l }
{
    Handed {
        outcome,
        session: Session::ended(),
    }
}

// A finish that writes the tag.
fn finish(s: Session, kind: Kind, tag: &mut [u8]) -> Handed<()>
    ensures { ◌≡◌ {A = Wrote Blocks}
        (record { answer = answer_of result.outcome; session = session_of result.session; out = tag.new })
        (due_written kind (session_of s) tag.old) }
{
    if let Err(refusal) = answers::pieces::finish(s.is_live(kind), tag.len(), s.tag_size) {
        return s.refused(refusal);
    }
    put_due(s, kind, tag);
    over(Ok(()))
}

#[tactic(auto, unfolding(promises::specs::SessionCalls::seal_finish))]
pub fn seal_finish(s: Session, tag: &mut [u8]) -> Handed<()>
    ensures { SealFinishMet aegis128l (session_of s) tag.old
        (answer_of result.outcome) (session_of result.session) tag.new }
{
    finish(s, Kind::Sealing, tag)
}

#[tactic(auto, unfolding(promises::specs::SessionCalls::mac_finish))]
pub fn mac_finish(s: Session, tag: &mut [u8]) -> Handed<()>
    ensures { MacFinishMet aegis128l mac_of_aegis128l (session_of s) tag.old
        (answer_of result.outcome) (session_of result.session) tag.new }
{
    finish(s, Kind::Macing, tag)
}

#[tactic(auto, unfolding(promises::specs::SessionCalls::mac_finish_check))]
pub fn mac_finish_check(s: Session, tag: &[u8]) -> Handed<()>
    ensures { MacFinishCheckMet aegis128l mac_of_aegis128l (session_of s) tag.now
        (answer_of result.outcome) (session_of result.session) }
{
    if let Err(refusal) = answers::pieces::finish(s.is_live(Kind::Macing), tag.len(), s.tag_size) {
        return s.refused(refusal);
    }
    let verdict = if is_due(s, Kind::Macing, tag) {
        Ok(())
    } else {
        Err(Refusal::TagDiffers)
    };
    over(verdict)
}

// An opener erases what it wrote; other kinds have nothing to erase.
fn erase(s: Session, plain: &mut [u8])
    ensures { plain.new ≡ promise.if_opening (session_of s) (wiped s.written 0 plain.old) plain.old }
{
    if s.is_for(Kind::Opening) {
        lent::wipe(plain, s.written, 0);
    }
}

// Only an opening whose tag is right releases the written prefix; a wrong tag erases it.
#[tactic(auto, unfolding(promises::specs::SessionCalls::open_finish, promises::specs::SessionCalls::released))]
pub fn open_finish(s: Session, tag: &[u8], plain: &mut [u8]) -> Handed<usize>
    ensures { OpenFinishMet aegis128l (session_of s) tag.now plain.old
        (answer_of result.outcome) (count_of result.outcome) (session_of result.session) plain.new }
{
    let live = s.is_live(Kind::Opening);
    if let Err(first) = answers::pieces::open_finish(
        live,
        plain.len(),
        s.room,
        tag.len(),
        s.tag_size,
    ) {
        return s.refused(first);
    }
    if is_due(s, Kind::Opening, tag) {
        return over(Ok(s.written));
    }
    erase(s, plain);
    over(Err(Refusal::TagDiffers))
}

// Live, whatever its kind.
#[tactic(auto, unfolding(promises::specs::Session::abort_live))]
fn abort_live(s: Session) -> bool
    ensures { result ≡ promise.abort_live aegis128l (session_of s) }
{
    let marked = s.mark < session::OVER;
    marked && s.is_well_formed()
}

// An opener is lent the buffer of its start.
fn same_buffer_lent(s: Session, held: usize) -> bool
    ensures { result ≡ promise.if_opening (session_of s) (eqb held s.room) true }
{
    !s.is_for(Kind::Opening) || held == s.room
}

#[tactic(auto, unfolding(promises::specs::SessionCalls::abort))]
pub fn abort(s: Session, plain: &mut [u8]) -> Handed<()>
    ensures { AbortMet aegis128l (session_of s) plain.old
        (answer_of result.outcome) (session_of result.session) plain.new }
{
    if let Err(refusal) = answers::pieces::abort(abort_live(s), same_buffer_lent(s, plain.len())) {
        return s.refused(refusal);
    }
    erase(s, plain);
    over(Ok(()))
}
