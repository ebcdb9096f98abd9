ghost use Rattle.std.specs.Prelude.{◌≡◌, ◌≢◌, ◌+◌, ◌-◌, ◌^◌, ◌<◌, ◌≤◌, ◌&&◌, false, true, [], ◌∷◌, ◌++◌, length, None, Some, IfOk, IfErr, IfSome, OnOk, OnErr, vec_len, vec_capacity};
ghost use Rattle.std.specs.List.{All, count_by};
ghost use Rattle.std.specs.Option.{option_copied};
ghost use Rattle.sipl_records.specs.Sets.{set_of};
ghost use Rattle.sipl_zonestore.specs.Store.{number_in};
ghost use Rattle.sipl_zonestore.specs.Consistent.{IsConsistent as IsConsistentStore};
ghost use Rattle.sipl_outages.specs.Holds.BoardEvent.{Hold, Release, Advance};
ghost use Rattle.sipl_plans.specs.Runs.{IsSet};
ghost use Rattle.sipl_book.specs.Book.{HasRoute, IsGoodEntry, answer_now, new_book, next_event, state_of};
ghost use Rattle.sipl_book.specs.Calls.{IsChanged, MovesBoard, IsHanded, IsForgotten, after_look, answer_event, is_full, recorded, unless_full};
ghost use Rattle.sipl_book.specs.Lookups.{IsAnswered};
ghost use Rattle.sipl_book.specs.Entries.{depends_on, entry_of, has_current_entry};
ghost use Rattle.sipl_book.specs.Honesty.{WasGiven};
ghost use Rattle.sipl_book.specs.Kept.{IsDrawnOf};
ghost use Rattle.sipl_book.specs.Repairs.{IsQueueOf};
ghost use Rattle.sipl_book.specs.Machine.{IsLegal, replay};

use crate::cache::Cache;
use crate::checks::{board_fault, first_fault, reserve_event};
use crate::edit::{Edit, change_event};
use crate::entry::Entry;
use crate::event::Event;
use crate::fault::BookFault;
use crate::limits::Limits;
use crate::outcome::{Done, Handed};
use crate::shared_draws::SharedDraws;
use crate::state::State;
use sipl_choice::{Abilities, Endpoint};
use sipl_evidence::dup_data;
use sipl_outages::{Board, Held, ShareableBoard, SharedBoard};
use sipl_plans::Answer;
use sipl_records::{Data, Key, Sequence};
use sipl_srv::Draws;
use sipl_uri::Question;
use sipl_zonestore::ZoneStore;
use std::alloc::{AllocError, Global};
use std::marker::Model;

/// The zones, the holds and the clock of a locator for one client and one policy on held endpoints,
/// the journal of its events, and an entry for each question whose answer was committed.
///
/// Contracts see the state that the events lead to (the apexes, the records, the holds and the
/// time), the numbers of the record sets, the journal since the last page, with the state before it and
/// the number of its first event, and the entries. The journal is always legal from that state: each
/// edit, hold, release and move of the clock in it was accepted there, and each answer is what RFC 3263,
/// 4, gives from scratch on the records and holds at its place. A current entry's record sets are as they
/// were read; each outdated entry is queued or leased.
#[derive(Drop)]
pub struct Book {
    pub(crate) alloc: Global,
    pub(crate) abilities: Abilities,
    pub(crate) held: Held,
    pub(crate) store: ZoneStore,
    pub(crate) board: ShareableBoard,
    pub(crate) first: u64,
    pub(crate) base: State,
    pub(crate) journal: Vec<Event>,
    // The place of the last load in the journal, if it has one.
    pub(crate) last_load: usize,
    pub(crate) cache: Cache,
    pub(crate) max_events: usize,
}

impl Model for Book {
    ghost use Rattle.sipl_book.specs.Book.{BookState};

    ghost Value = { BookState };

    ghost use Rattle.sipl_book.specs.Codes.{book_code};

    ghost coded = { book_code };

    ghost use Rattle.sipl_book.specs.BookFields.{IsValidBook, book_of};

    ghost view = { book_of };

    ghost invariant = { IsValidBook };
}

impl Book {
    /// A book for a client and a policy on held endpoints, without zones, holds, events or entries,
    /// at time 0. Does not allocate.
    pub fn new(alloc: Global, abilities: Abilities, limits: &Limits, held: Held) -> Self
        requires records { limits.now.records ≤ 1048576 }
        requires entries { limits.now.entries ≤ 65536 }
        requires journal { limits.now.journal ≤ 1048576 }
        requires holds { limits.now.holds ≤ 4096 }
        requires first { 1 ≤ limits.now.next }
        requires last { limits.now.next ≤ 2 ^ 52 }
        requires page { limits.now.first ≤ 2 ^ 52 - 2 ^ 20 }
        ensures { result ≡ new_book abilities held limits.now }
    {
        Book {
            alloc,
            abilities,
            held,
            store: ZoneStore::with(alloc, limits.next, limits.records as u64),
            board: ShareableBoard::new(alloc, Board::with(alloc, limits.holds)),
            first: limits.first,
            base: State::empty(),
            journal: Vec::new(alloc),
            last_load: 0,
            cache: Cache::new(alloc, limits.entries),
            max_events: limits.journal,
        }
    }

    // The allocator of all that the book keeps. Its store is as it always is.
    pub(crate) fn alloc(&self) -> Global
        ensures { IsConsistentStore self.now.store }
    {
        self.alloc
    }

    /// Edits the zones. The current entries whose evidence has the key of a set that changed become
    /// outdated, and those that are not leased are queued, in their order. The existence of a name is
    /// a set too (RFC 4592, 2.2.3), but is not counted among those that changed. The event of a load
    /// shares its records with that of the last load, where they are equal. The cost is that of
    /// the edit, a search for each entry that depends on a changed set, and a sort of their ids.
    ///
    /// The fault is the first one: a full journal (B3), a fault of the zones (S1 to S9). Memory is reported
    /// only where none of them is the fault, but for too few numbers at a load (S8).
    pub fn change(&mut self, edit: Edit) -> Result<Done, BookFault>
        ensures { IsChanged edit self.old self.new result }
    {
        if let Err(fault) = reserve_event(&mut self.journal, self.max_events) {
            let own = edit.early_fault(&mut self.store);
            drop(edit);
            return Err(first_fault(fault, own));
        }
        let changed = match edit.apply(&mut self.store) {
            Ok(changed) => changed,
            Err(fault) => {
                drop(edit);
                return Err(fault.into());
            }
        };
        self.cache.outdate(changed.keys.as_slice());
        let sets = changed.sets as u64;
        drop(changed);
        let event = change_event(edit, self.journal.get(self.last_load));
        self.last_load = event.last_load(self.journal.len(), self.last_load);
        let number = record_event(&mut self.journal, self.first, event);
        Ok(Done {
            number,
            changed: sets,
        })
    }

    /// Holds an endpoint for some milliseconds from now. One that is held already is held to the
    /// later of the two ends. A hold of 0 ms of an endpoint that is not held is an event, and
    /// changes nothing else. Returns the event's number. Constant time but for hashing.
    ///
    /// The fault is the first one: a full journal (B3), an end after 2^52 (O2), a new hold where as
    /// many endpoints are held as the maximum (O4).
    pub fn hold(&mut self, endpoint: &Endpoint, ms: u64) -> Result<u64, BookFault>
        ensures { MovesBoard (Hold endpoint.now ms) self.old self.new result }
    {
        if let Err(fault) = reserve_event(&mut self.journal, self.max_events) {
            let own = board_fault(self.board.get().check_hold(endpoint, ms));
            return Err(first_fault(fault, own));
        }
        self.board.hold(endpoint, ms)?;
        Ok(record_event(&mut self.journal, self.first, Event::Hold(*endpoint, ms)))
    }

    /// Ends the hold of an endpoint. Returns the event's number. Linear in the number of held endpoints.
    ///
    /// The fault is the first one: a full journal (B3), an endpoint that is not held (O3).
    pub fn release(&mut self, endpoint: &Endpoint) -> Result<u64, BookFault>
        ensures { MovesBoard (Release endpoint.now) self.old self.new result }
    {
        if let Err(fault) = reserve_event(&mut self.journal, self.max_events) {
            let own = board_fault(self.board.get().check_release(endpoint));
            return Err(first_fault(fault, own));
        }
        self.board.release(endpoint)?;
        Ok(record_event(&mut self.journal, self.first, Event::Release(*endpoint)))
    }

    /// Sets the time, in milliseconds, and drops the holds that end at or before it. Returns the
    /// event's number. Linear in the number of held endpoints.
    ///
    /// The fault is the first one: a full journal (B3), a time before the present (O1) or after 2^52 (O2).
    pub fn advance(&mut self, to: u64) -> Result<u64, BookFault>
        ensures { MovesBoard (Advance to) self.old self.new result }
    {
        if let Err(fault) = reserve_event(&mut self.journal, self.max_events) {
            let own = board_fault(self.board.get().check_advance(to));
            return Err(first_fault(fault, own));
        }
        self.board.advance(to)?;
        Ok(record_event(&mut self.journal, self.first, Event::Advance(to)))
    }

    /// The number of the key's set, 0 where it is empty; of a name's existence 1 where it exists.
    /// Counts no look. Does not allocate.
    pub fn number(&self, key: &Key) -> u64
        ensures { result ≡ number_in self.now.store key.now }
    {
        self.store.number(key)
    }

    /// A copy of the key's set, with its number: 0 and no data where it is empty. Counts one look,
    /// also where an allocation fails, which is the only error.
    pub fn read(&mut self, key: &Key) -> Result<(u64, Sequence<Data>), AllocError>
        ensures number { IfOk result (λ read. read.0 ≡ number_in self.old.store key.now) }
        ensures value { IfOk result
            (λ read. read.1 ≡ set_of self.old.store.zones.records key.now) }
        ensures set { IfOk result (λ read. IsSet key.now read.0 read.1) }
        ensures given { IfOk result (λ read. WasGiven self.old.store.next
            (record { key = key.now; number = read.0; content = read.1 })) }
        ensures consistent { IsConsistentStore self.old.store }
        ensures looked { self.new ≡ after_look self.old }
    {
        let (number, content) = self.store.set(key);
        let copy = dup_data(self.alloc, content)?;
        Ok((number, Sequence::from_vec(copy)))
    }

    /// Returns the answer to a question that has a current entry, for these random words: that of
    /// the records and the holds as they are. Looks at no set. Linear in the targets.
    ///
    /// The fault is the first one: a full journal (B3), no current entry (B1).
    pub fn hand(&mut self, question: &Question, draws: &Draws) -> Result<Handed, BookFault>
        ensures { IsHanded question.now draws.now self.old self.new result }
    {
        if self.is_full() {
            return Err(BookFault::JournalFull);
        }
        let answer = self.draw_current(question, draws)?;
        match self.record_copy(question, draws, &answer) {
            Ok(number) => Ok(Handed { number, answer }),
            Err(fault) => {
                drop(answer);
                Err(fault)
            }
        }
    }

    // Records a copy of an answer. The only error is an allocation failure; then nothing changes.
    fn record_copy(
        &mut self,
        question: &Question,
        draws: &Draws,
        answer: &Answer,
    ) -> Result<u64, BookFault>
        requires answer { answer.now ≡ answer_now self.old question.now draws.now }
        requires space { is_full self.old ≡ false }
        ensures number { IfOk result (λ number. number ≡ next_event self.old) }
        ensures after { OnOk result
            (self.new ≡ recorded (answer_event self.old question.now draws.now) self.old) }
        ensures memory { IfErr result (λ fault. fault ≡ BookFault.Memory) }
        ensures unchanged { OnErr result (self.new ≡ self.old) }
    {
        let copy = answer.dup(self.alloc)?;
        let words = SharedDraws::of(self.alloc, draws)?;
        let question = question.dup(self.alloc)?;
        self.record_answer(question, words, copy)
    }

    // The answer of the current entry of a question, for these random words and the holds as they are,
    // which the entry keeps where it can be returned again. B1 where there is none, or else an
    // allocation failure.
    fn draw_current(&mut self, question: &Question, draws: &Draws) -> Result<Answer, BookFault>
        ensures answer { IfOk result
            (λ answer. answer ≡ answer_now self.old question.now draws.now) }
        ensures current { OnOk result
            (has_current_entry self.old.entries question.now ≡ true) }
        ensures refused { IfErr result (λ fault. fault ≢ BookFault.Memory
            → (fault ≡ BookFault.NotCurrent)
            × (has_current_entry self.old.entries question.now ≡ false)) }
        ensures memory { IfErr result (λ fault. fault ≡ BookFault.Memory
            → has_current_entry self.old.entries question.now ≡ true) }
        ensures unchanged { self.new ≡ self.old }
    {
        let entry = match self.cache.get(question) {
            Some(entry) if entry.is_current() => entry,
            _ => return Err(BookFault::NotCurrent),
        };
        let board = self.board.get();
        let answer = entry.draw(self.alloc, draws, board, self.held)?;
        if entry.wants_answer(draws, board) {
            self.cache
                .keep_answer(question, draws, board, self.held, &answer);
        }
        Ok(answer)
    }

    /// Has the entry of a question keep its answer, drawn for these random words and the holds as they
    /// are, where [`Entry::wants_answer`] says so: then all answers of the entry with this order of the
    /// servers share it until the entry changes. Constant time but for hashing. Does not allocate.
    pub fn keep_answer(&mut self, question: &Question, draws: &Draws, answer: &Answer)
        requires { IsDrawnOf self.old.entries question.now draws.now
            self.old.board.holds self.old.held answer.now }
        ensures { self.new ≡ self.old }
    {
        self.cache
            .keep_answer(question, draws, self.board.get(), self.held, answer);
    }

    /// Records an answer that the caller has drawn for a question, as it is on the records and the
    /// holds as they are. Returns the event's number. Looks at no set, and does not hash.
    ///
    /// The fault is a full journal (B3).
    pub fn record_answer(
        &mut self,
        question: Question,
        draws: SharedDraws,
        answer: Answer,
    ) -> Result<u64, BookFault>
        requires { answer ≡ answer_now self.old question draws }
        ensures number { IfOk result (λ number. number ≡ next_event self.old) }
        ensures after { OnOk result
            (self.new ≡ recorded (answer_event self.old question draws) self.old) }
        ensures refused { IfErr result
            (λ fault. fault ≢ BookFault.Memory → unless_full self.old None ≡ Some fault) }
        ensures memory { IfErr result
            (λ fault. fault ≡ BookFault.Memory → unless_full self.old None ≡ None) }
        ensures unchanged { OnErr result (self.new ≡ self.old) }
    {
        match reserve_event(&mut self.journal, self.max_events) {
            Ok(()) => {
                let event = Event::Answer(question, draws, answer);
                Ok(record_event(&mut self.journal, self.first, event))
            }
            Err(fault) => {
                drop(question);
                drop(draws);
                drop(answer);
                Err(fault)
            }
        }
    }

    /// The answer to a question for these random words: that of its current entry, or else that of a
    /// run over the book's sets, which is committed. A run looks once at each set that it reads. With
    /// a current entry linear in the targets.
    ///
    /// The fault is a full journal (B3).
    pub fn find(&mut self, question: Question, draws: &Draws) -> Result<Handed, BookFault>
        ensures { IsAnswered question draws.now self.old self.new result }
    {
        match self.hand(&question, draws) {
            Err(BookFault::NotCurrent) => self.find_anew(question, draws),
            handed => {
                drop(question);
                handed
            }
        }
    }

    /// Forgets the entry of a question, whether it is current, queued or leased. Does not allocate.
    /// Linear in the number of entries.
    ///
    /// The fault is that the question has none (B4).
    pub fn forget(&mut self, question: &Question) -> Result<(), BookFault>
        ensures { IsForgotten question.now self.old self.new result }
    {
        if !self.cache.forget(question) {
            return Err(BookFault::Unknown);
        }
        Ok(())
    }

    /// How many questions have an entry, current or outdated.
    pub fn kept(&self) -> u64
        ensures { result ≡ length self.now.entries }
    {
        self.cache.len() as u64
    }

    /// How many entries are current. Linear in the number of entries. Does not allocate.
    pub fn current(&self) -> u64
        ensures { result ≡ count_by (λ e. e.is_current) self.now.entries }
    {
        self.cache.current() as u64
    }

    /// How many entries are queued: each outdated one that is not leased, once.
    pub fn queued(&self) -> u64
        ensures count { result ≡ length self.now.queue.queued }
        ensures queue { IsQueueOf self.now.entries self.now.queue }
    {
        self.cache.queued() as u64
    }

    /// The entry of a question, if there is one. Constant time but for hashing. Does not allocate.
    pub fn entry(&self, question: &Question) -> Option<&Entry>
        ensures entry { option_copied result ≡ entry_of self.now.entries question.now }
        ensures question { IfSome result (λ e. e.now.found.question ≡ question.now) }
        ensures good { All (IsGoodEntry self.now) self.now.entries }
        ensures routes { All (HasRoute self.now) self.now.entries }
    {
        self.cache.get(question)
    }

    /// How many current entries have the key's set in their evidence. Does not allocate. Linear in the
    /// number of entries, unless none has a key of its code.
    pub fn dependents(&self, key: &Key) -> u64
        ensures { result
            ≡ count_by (λ e. e.is_current && depends_on (key.now ∷ []) e) self.now.entries }
    {
        self.cache.dependents(key) as u64
    }

    /// The events since the last page, in their order. They lead from the base to the state as it is.
    pub fn journal(&self) -> &[Event]
        ensures journal { result.now ≡ self.now.journal }
        ensures legal { IsLegal self.now.client self.now.held self.now.journal self.now.base }
        ensures replayed { replay self.now.journal self.now.base ≡ state_of self.now }
        ensures few { length self.now.journal ≤ self.now.max_events }
    {
        &self.journal
    }

    /// The state before the events of the journal: that of the last page's end, or nothing.
    pub fn base(&self) -> &State
        ensures { result.now ≡ self.now.base }
    {
        &self.base
    }

    /// The number of the next event, at most 2^52.
    pub fn next_event(&self) -> u64
        ensures next { result ≡ next_event self.now }
        ensures limit { next_event self.now ≤ 2 ^ 52 }
    {
        self.first + self.journal.len() as u64
    }

    /// Whether the journal has as many events as its maximum.
    pub fn is_full(&self) -> bool
        ensures { result ≡ is_full self.now }
    {
        self.journal.len() >= self.max_events
    }

    /// How many looks at record sets were counted; at most 2^64 - 1.
    pub fn looks(&self) -> u64
        ensures { result ≡ self.now.store.looks }
    {
        self.store.looks()
    }

    /// The present time, in milliseconds.
    pub fn now(&self) -> u64
        ensures { result ≡ self.now.board.holds.now }
    {
        self.board.get().now()
    }

    /// The abilities of the client.
    pub fn abilities(&self) -> &Abilities
        ensures { result.now ≡ self.now.client }
    {
        &self.abilities
    }

    /// The policy on held endpoints.
    pub fn held(&self) -> Held
        ensures { result ≡ self.now.held }
    {
        self.held
    }

    /// The held endpoints and the time.
    pub fn board(&self) -> &Board
        ensures { result.now ≡ self.now.board }
    {
        self.board.get()
    }

    /// The held endpoints and the time, as a value that is shared until the next hold, release or move
    /// of the clock: constant time where there was none since the last call, else linear in the held
    /// endpoints, which are copied. Does not allocate where nothing is held.
    ///
    /// The only error is an allocation failure (or 2^63 that share the value); then nothing changes.
    pub fn share_board(&mut self) -> Result<SharedBoard, AllocError>
        ensures board { IfOk result (λ shared. shared ≡ self.old.board) }
        ensures memory { OnErr result (self.old.board.holds.ends ≢ []) }
        ensures unchanged { self.new ≡ self.old }
    {
        self.board.share()
    }
}

// Appends an event to a journal that has space for it. Returns its number.
pub(crate) fn record_event(journal: &mut Vec<Event>, first: u64, event: Event) -> u64
    requires space { vec_len journal.old < vec_capacity journal.old }
    requires limit { first ≤ 2 ^ 52 - 2 ^ 20 }
    requires few { length journal.old.items < 1048576 }
    ensures number { result ≡ first + length journal.old.items }
    ensures items { journal.new.items ≡ journal.old.items ++ event ∷ [] }
{
    let number = first + journal.len() as u64;
    journal.push_reserved(event);
    number
}
