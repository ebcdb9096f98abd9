//! The store of zones: which are loaded, and their records.
#![tactic(auto)]

mod addition;
mod ancestors;
mod apexes;
mod bare_owners;
mod changed;
mod checks;
mod compare;
mod comparison;
mod differences;
mod existence;
mod fault;
mod indexed_records;
pub mod laws;
mod loaded_owners;
mod loaded_tables;
mod name_table;
mod numbered_set;
mod owner_codes;
mod owner_places;
mod owner_sets;
mod patches;
mod places;
mod record_list;
mod set_numbers;
mod sets;
mod store;
mod unchanged;
mod zones;

pub use changed::Changed;
pub use fault::StoreFault;
pub use store::ZoneStore;
pub use zones::Zones;

/// The greatest number of a record set.
pub const MAX_NUMBER: u64 = 4_503_599_627_370_496;

/// The maximum number of records of a store made by `ZoneStore::new`.
pub const MAX_RECORDS: usize = 1_048_576;
