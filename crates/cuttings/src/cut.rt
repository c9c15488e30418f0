// A text that a session takes in pieces, cut at two places (one, where they are equal) and after every byte.
ghost use Rattle.std.specs.Prelude.{◌≡◌, ℕ, ◌≤◌, ◌+◌, IfSome, OnSome};
ghost use Rattle.promises.specs.Session.{Session};
ghost use Rattle.aegis128l.specs.Aegis128L.{Blocks};
ghost use Rattle.session.specs.View.{session_of};
ghost use Rattle.recorded.specs.declared.list.Record.{Record};
ghost use Rattle.cuttings.specs.Pieces.{PieceLaws, Shown, cutting_count};

use crate::Cuttings;
use session::Session;

// A record's text, and the buffers that a session writes where it takes the text.
pub trait Cut {
    ghost parts: { Self → Record };

    ghost size: { Record → ℕ };

    // What a piece from one place to another shows, of the session before it and the session after.
    ghost Taken: { Record → ℕ → ℕ → Session Blocks → Session Blocks → Type 0 };

    // What a finish shows.
    ghost Ended: { Record → Session Blocks → Type 0 };

    fn len(&self) -> usize
        ensures { result ≡ size (parts self.now) };

    fn piece(&mut self, s: Session, i: usize, j: usize) -> Option<Session>
        requires { (i ≤ j) × (j ≤ size (parts self.old)) }
        ensures kept { parts self.new ≡ parts self.old }
        ensures taken { IfSome result (λ t.
            Taken (parts self.old) i j (session_of s) (session_of t)) };

    // The second of three pieces, which a session may take in another way.
    fn middle(&mut self, s: Session, i: usize, j: usize) -> Option<Session>
        requires { (i ≤ j) × (j ≤ size (parts self.old)) }
        ensures kept { parts self.new ≡ parts self.old }
        ensures taken { IfSome result (λ t.
            Taken (parts self.old) i j (session_of s) (session_of t)) }
    {
        self.piece(s, i, j)
    }

    fn finish(&mut self, s: Session) -> Option<()>
        ensures kept { parts self.new ≡ parts self.old }
        ensures ended { OnSome result (Ended (parts self.old) (session_of s)) };

    ghost laws: { (r : Record) → PieceLaws (Taken r) };
}

// Cut at i and at j.
fn in_three<C: Cut>(cut: &mut C, s: Session, i: usize, j: usize) -> Option<()>
    requires { (i ≤ j) × (j ≤ C.size (C.parts cut.old)) }
    ensures kept { C.parts cut.new ≡ C.parts cut.old }
    ensures shown { let r = C.parts cut.old in
        OnSome result (Shown (C.Taken r) (C.Ended r) (C.size r) (session_of s)) }
{
    let n = cut.len();
    let a = cut.piece(s, 0, i)?;
    let b = cut.middle(a, i, j)?;
    let c = cut.piece(b, j, n)?;
    cut.finish(c)
}

// Cut after every byte.
fn bytewise<C: Cut>(cut: &mut C, s: Session) -> Option<()>
    ensures kept { C.parts cut.new ≡ C.parts cut.old }
    ensures shown { let r = C.parts cut.old in
        OnSome result (Shown (C.Taken r) (C.Ended r) (C.size r) (session_of s)) }
{
    let mut t = s;
    for i in 0..cut.len() {
        t = cut.piece(t, i, i + 1)?;
    }
    cut.finish(t)
}

// Cut at i and at every place from i on: how many cuttings there were.
fn from_place<C: Cut>(cut: &mut C, s: Session, i: usize) -> Option<usize>
    requires { (i ≤ C.size (C.parts cut.old)) × (C.size (C.parts cut.old) ≤ 65) }
    ensures kept { C.parts cut.new ≡ C.parts cut.old }
    ensures shown { let r = C.parts cut.old in
        OnSome result (Shown (C.Taken r) (C.Ended r) (C.size r) (session_of s)) }
    ensures counted { IfSome result (λ n. n + i ≡ C.size (C.parts cut.old) + 1) }
{
    let mut count = 0;
    for j in i..=cut.len() {
        in_three(cut, s, i, j)?;
        count += 1;
    }
    Some(count)
}

// Every cutting at two places, and after every byte.
pub fn everywhere<C: Cut>(cut: &mut C, s: Session) -> Option<Cuttings>
    requires { C.size (C.parts cut.old) ≤ 65 }
    ensures shown { let r = C.parts cut.old in
        OnSome result (Shown (C.Taken r) (C.Ended r) (C.size r) (session_of s)) }
    ensures counted { IfSome result (λ n. n.count ≡ cutting_count (C.size (C.parts cut.old))) }
{
    bytewise(cut, s)?;
    let mut count = 1;
    for i in 0..=cut.len() {
        count += from_place(cut, s, i)?;
    }
    Some(Cuttings { count })
}
