use sipl_book::Event;

/// What a call did: an event of the journal, and its number.
#[derive(Drop)]
pub struct Receipt {
    pub number: u64,
    pub event: Event,
}
