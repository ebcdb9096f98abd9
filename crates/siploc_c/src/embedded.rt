//! A session at a book of its own, whose octets and replies its caller moves.
ghost use Rattle.std.specs.Prelude.{◌≡◌, IfOk, IfErr, OnOk};
ghost use Rattle.sipl_lines.specs.Desk.{book_rules};
ghost use Rattle.sipl_lines.specs.PlainDesk.{plain_of, plain_rules};
ghost use Rattle.sipl_lines.specs.Settings.{IsWithinLimits};
ghost use Rattle.siploc_c.specs.Embedded.{Puts, PutsFirst, TakesReplies, new_embedded, whole};

use sipl_book::Book;
use sipl_lines::{OutOfMemory, Settings, Talk};
use std::alloc::{AllocError, Global};
use std::marker::Model;

/// A session, its book, and the replies that its caller has not taken yet.
#[derive(Drop)]
pub struct Embedded {
    book: Book,
    talk: Talk,
    replies: Vec<u8>,
}

impl Model for Embedded {
    ghost use Rattle.siploc_c.specs.Embedded.{EmbeddedState};

    ghost Value = { EmbeddedState };

    ghost use Rattle.siploc_c.specs.Codes.{embedded_code};

    ghost coded = { embedded_code };

    ghost view = { λ e. record { book = e.book; talk = e.talk; replies = e.replies.items } };
}

impl Embedded {
    /// A session that had no octets, at a new book with these settings.
    pub(crate) fn boxed(alloc: Global, settings: Settings) -> Result<Box<Embedded>, AllocError>
        requires { IsWithinLimits settings }
        ensures { IfOk result (λ embedded. embedded.value ≡ new_embedded settings) }
    {
        let talk = Talk::new(alloc)?;
        let limits = settings.limits();
        let book = Book::new(alloc, settings.abilities, &limits, settings.held);
        let replies = Vec::new(alloc);
        Ok(Box::new(
            alloc,
            Embedded {
                book,
                talk,
                replies,
            },
        )?)
    }

    /// Whether the session has ended.
    pub(crate) fn has_ended(&self) -> bool
        ensures { result ≡ self.now.talk.session.ended }
    {
        self.talk.has_ended()
    }

    /// Puts octets into the session, and keeps the replies.
    pub(crate) fn put(&mut self, alloc: Global, octets: &[u8]) -> Result<(), OutOfMemory>
        ensures plain { OnOk result (Puts plain_rules plain_of self.old octets.now self.new) }
        ensures plain_first { IfErr result (λ fault.
            PutsFirst plain_rules plain_of fault.taken self.old octets.now self.new) }
        ensures book { OnOk result (Puts book_rules whole self.old octets.now self.new) }
        ensures book_first { IfErr result (λ fault.
            PutsFirst book_rules whole fault.taken self.old octets.now self.new) }
    {
        self.talk
            .put(alloc, &mut self.book, octets, &mut self.replies)
    }

    /// Takes the next octets of the replies, as many as `room` has space for, and returns how many.
    pub(crate) fn take(&mut self, room: &mut [u8]) -> usize
        ensures { TakesReplies self.old room.old self.new room.new result }
    {
        let count = self.replies.len().min(room.len());
        let (front, _rest) = room.split_at_mut(count);
        front.copy_from_slice(&self.replies[..count]);
        drop(self.replies.drain(..count));
        count
    }
}
