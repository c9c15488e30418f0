// A session takes a message in pieces. It goes in by value and comes back by value: here are the record and the starts, in crates
// `session_pieces` and `session_finishes` what goes on with it. Crate `thin` has the form in which the caller lends it.
#![tactic(auto)]

ghost use Rattle.std.specs.Prelude.{◌≡◌, true, eqb, Err, ⊤};
ghost use Rattle.promises.specs.Session as promise;
ghost use Rattle.aegis128l.specs.Cipher.{aegis128l};
ghost use Rattle.aegis128l_core.specs.View.{core_of};
ghost use Rattle.session.specs.View.{session_of, mark_of, with_core, with_total};

use aegis128l::state::State;
use aegis128l_core::Core;
use aes::AesBlock;
use answers::Refusal;
use answers::length::MessageLength;
use std::alloc::AllocError;

pub mod starts;

// What a session is for, with its mark.
#[derive(Clone, Copy, PartialEq, Eq)]
pub enum Kind {
    Sealing = 0,
    Opening = 1,
    Macing = 2,
}

// The mark of a session that is over.
pub const OVER: usize = 3;

#[repr(C)]
#[derive(Clone, Copy)]
pub struct Session {
    pub blocks: [AesBlock; 8],
    pub buf: [u8; 32],
    pub fill: usize,
    pub ad_len: u64,
    pub msg_len: u64,
    pub tag_size: usize,
    pub mark: usize,
    pub room: usize,
    pub written: usize,
}

// What a call hands back: its outcome, and the session to go on with.
#[derive(Drop)]
pub struct Handed<T> {
    pub outcome: Result<T, Refusal>,
    pub session: Session,
}

// By hand: what derive(Clone) writes calls the library's clone of a Result, which no crate of the archive may.
impl<T: Copy> Clone for Handed<T> {
    ghost is_clone = { λ x y. y ≡ x };

    ghost is_infallible = { λ _. ⊤ };

    fn clone(&self) -> Result<Handed<T>, AllocError> {
        Ok(*self)
    }
}

impl<T: Copy> Copy for Handed<T> {}

// What C is told of the finish of an opening: the answer, and how many bytes it releases.
#[repr(C)]
#[derive(Clone, Copy)]
pub struct Opened {
    pub answer: u8,
    pub count: usize,
}

impl Session {
    // Zeros, and the mark that it is over.
    #[tactic(auto, unfolding(promises::specs::Session::ended))]
    pub fn ended() -> Session
        ensures { session_of result ≡ promise.ended aegis128l }
    {
        Session {
            blocks: [AesBlock { bytes: [0; 16] }; 8],
            buf: [0; 32],
            fill: 0,
            ad_len: 0,
            msg_len: 0,
            tag_size: 0,
            mark: OVER,
            room: 0,
            written: 0,
        }
    }

    // Whether it has the mark of this kind.
    pub fn is_for(self, kind: Kind) -> bool
        ensures { result ≡ eqb (session_of self).mark (mark_of kind) }
    {
        self.mark == kind as usize
    }

    // An opening has written what it was given, and has the room for it.
    #[tactic(auto, unfolding(promises::specs::Session::opening_fits))]
    fn opening_fits(self) -> bool
        ensures { result
            ≡ promise.if_opening (session_of self) (promise.opening_fits (session_of self)) true }
    {
        !self.is_for(Kind::Opening)
            || self.written as u64 == self.msg_len && self.written <= self.room
    }

    #[tactic(auto, unfolding(promises::specs::Session::well_formed))]
    pub fn is_well_formed(self) -> bool
        ensures { result ≡ promise.well_formed 32 (session_of self) }
    {
        answers::once::tag_size(self.tag_size)
            && self.ad_len <= answers::LIMIT
            && self.msg_len <= answers::LIMIT
            && self.fill as u64 == self.msg_len % 32
            && self.opening_fits()
    }

    // Well formed, and with this mark, whether a kind has it or none.
    pub fn live(self, mark: usize) -> bool
        ensures { result ≡ promise.live 32 mark (session_of self) }
    {
        let marked = self.mark == mark;
        marked && self.is_well_formed()
    }

    // Well formed, and of this kind.
    pub fn is_live(self, kind: Kind) -> bool
        ensures { result ≡ promise.live 32 (mark_of kind) (session_of self) }
    {
        self.live(kind as usize)
    }

    // What a refused call hands back: the session as it was.
    pub fn refused<T>(self, refusal: Refusal) -> Handed<T>
        ensures outcome { result.outcome ≡ Err refusal }
        ensures session { result.session ≡ self }
    {
        Handed {
            outcome: Err(refusal),
            session: self,
        }
    }

    // The machine at work in it.
    pub fn core(self) -> Core
        ensures { core_of result ≡ promise.core (session_of self) }
    {
        let Session {
            blocks,
            buf,
            fill,
            ..
        } = self;
        Core {
            state: State { blocks },
            buf,
            fill,
        }
    }

    // With its machine brought to `core`.
    pub fn with_core(self, core: Core) -> Session
        ensures { session_of result ≡ with_core (session_of self) (core_of core) }
    {
        let Core { state, buf, fill } = core;
        let State { blocks } = state;
        Session {
            blocks,
            buf,
            fill,
            ..self
        }
    }

    // With its counter brought to `length`.
    pub fn with_length(self, length: MessageLength) -> Session
        ensures { session_of result ≡ with_total (session_of self) length.total }
    {
        Session {
            msg_len: length.total,
            ..self
        }
    }
}
