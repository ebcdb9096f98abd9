ghost use Rattle.std.specs.Prelude.{◌≡◌, ◌≤◌, ◌^◌, ◌-◌, [], length, None, Some};
ghost use Rattle.std.specs.Bool.{Decides};
ghost use Rattle.sipl_book.specs.Machine.{IsLegal, replay};
ghost use Rattle.sipl_book.specs.Pages.{Follows, IsPage, extent_of, next_of};

use crate::event::Event;
use crate::outcome::Extent;
use crate::state::State;
use sipl_choice::Abilities;
use sipl_outages::Held;
use sipl_records::Sequence;
use std::marker::Model;

/// The events of a book between two times, with the states before and after them, for one client and
/// one policy on held endpoints.
///
/// The events are legal from the state before them, and lead to the one after them: each edit, hold,
/// release and move of the clock was accepted at its place, and each answer is what RFC 3263, 4, gives
/// from scratch on the records and holds there.
#[derive(Drop)]
pub struct Page {
    pub(crate) first: u64,
    pub(crate) base: State,
    pub(crate) events: Sequence<Event>,
    pub(crate) result: State,
    pub(crate) abilities: Abilities,
    pub(crate) held: Held,
}

impl Model for Page {
    ghost use Rattle.sipl_book.specs.Pages.{PageState};

    ghost Value = { PageState };

    ghost use Rattle.sipl_book.specs.PageFields.{IsValidPage, page_in};

    ghost view = { page_in };

    ghost invariant = { IsValidPage };
}

impl Page {
    /// The number of the first event, from 0 to 2^52 - 2^20.
    pub fn first(&self) -> u64
        ensures first { result ≡ self.now.first }
        ensures limit { self.now.first ≤ 2 ^ 52 - 2 ^ 20 }
    {
        self.first
    }

    /// The state before the events.
    pub fn base(&self) -> &State
        ensures { result.now ≡ self.now.base }
    {
        &self.base
    }

    /// The events, in their order, at most 1,048,576. The number of each is that of the first event and
    /// its place, from 0.
    pub fn events(&self) -> &[Event]
        ensures events { result.now ≡ self.now.events }
        ensures legal { IsLegal self.now.client self.now.held self.now.events self.now.base }
        ensures replayed { replay self.now.events self.now.base ≡ self.now.result }
        ensures few { length self.now.events ≤ 1048576 }
    {
        self.events.as_slice()
    }

    /// The space of the events, which are dropped: for those after a later page.
    pub fn into_space(self) -> Vec<Event>
        ensures { result.items ≡ [] }
    {
        let Page {
            events,
            base,
            result,
            abilities,
            ..
        } = self;
        drop(base);
        drop(result);
        drop(abilities);
        let mut space = events.into_vec();
        space.clear();
        space
    }

    /// The state after the events.
    pub fn result(&self) -> &State
        ensures { result.now ≡ self.now.result }
    {
        &self.result
    }

    /// The abilities of the client.
    pub fn abilities(&self) -> &Abilities
        ensures { result.now ≡ self.now.client }
    {
        &self.abilities
    }

    /// The policy on held endpoints.
    pub fn held(&self) -> Held
        ensures { result ≡ self.now.held }
    {
        self.held
    }

    /// The number of the event after those of the page.
    pub fn next(&self) -> u64
        ensures next { result ≡ next_of self.now }
        ensures page { IsPage self.now }
    {
        self.first + self.events.len() as u64
    }

    /// The number of the first event, and how many events there are.
    pub fn extent(&self) -> Extent
        ensures { result ≡ extent_of self.now }
    {
        Extent {
            first: self.first,
            count: self.events.len() as u64,
        }
    }

    /// Whether the page begins where nothing is loaded or held, at time 0, as the first one does. Linear
    /// in the held endpoints at most.
    pub fn is_first(&self) -> bool
        ensures { Decides result (Follows None self.now) }
    {
        let empty = State::empty();
        let is_first = self.base == empty;
        drop(empty);
        is_first
    }

    /// Whether the page goes on where the other one ended: its first number is the other's next one, its
    /// base the other's result, and it is for the same client and policy. Linear in the records and the
    /// held endpoints.
    pub fn follows(&self, before: &Page) -> bool
        ensures { Decides result (Follows (Some before.now) self.now) }
    {
        self.is_for_client_of(before) && self.begins_after(before)
    }

    // Whether both pages are for the same client and policy.
    fn is_for_client_of(&self, other: &Page) -> bool
        ensures { Decides result
            ((self.now.client ≡ other.now.client) × (self.now.held ≡ other.now.held)) }
    {
        self.abilities == other.abilities && self.held == other.held
    }

    // Whether the page's first number is the other's next one, and its base the other's result.
    fn begins_after(&self, before: &Page) -> bool
        ensures { Decides result
            ((self.now.first ≡ next_of before.now) × (self.now.base ≡ before.now.result)) }
    {
        self.first == before.next() && self.base == before.result
    }
}
