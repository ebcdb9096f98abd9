// Endpoints, each once, at its first place.
ghost use Rattle.std.specs.Prelude.{◌≡◌, IfOk};
ghost use Rattle.sipl_records.specs.Unique.{unique};
ghost use Rattle.sipl_choice.specs.Endpoints.{same_endpoint};

use indexmap::IndexSet;
use sipl_choice::Endpoint;
use std::alloc::{AllocError, Global};

// So many are compared with each other, which takes less time than a table of them.
const MAX_COMPARED: usize = 16;

// The endpoints, each once, at its first place. Linear: many go through a table.
pub(crate) fn unique_of(
    alloc: Global,
    mut endpoints: Vec<Endpoint>,
) -> Result<Vec<Endpoint>, AllocError>
    ensures { IfOk result (λ targets. targets.items ≡ unique same_endpoint endpoints.items) }
{
    if endpoints.len() > MAX_COMPARED {
        let table = table_of(alloc, &endpoints)?;
        return Vec::from_slice(alloc, table.as_slice());
    }
    keep_first(&mut endpoints);
    Ok(endpoints)
}

// A table of the endpoints, in the order of their first places.
fn table_of(alloc: Global, endpoints: &[Endpoint]) -> Result<IndexSet<Endpoint>, AllocError>
    ensures { IfOk result (λ table. table.keys ≡ unique same_endpoint endpoints.now) }
{
    let mut table = IndexSet::with_capacity(alloc, endpoints.len())?;
    for endpoint in endpoints {
        table.insert(*endpoint)?;
    }
    Ok(table)
}

// Keeps each endpoint only at its first place. Compares each with those that are kept.
fn keep_first(endpoints: &mut Vec<Endpoint>)
    ensures { endpoints.new.items ≡ unique same_endpoint endpoints.old.items }
{
    let mut kept = 0;
    for place in 0..endpoints.len() {
        let endpoint = endpoints[place];
        if !endpoints[..kept].contains(&endpoint) {
            endpoints[kept] = endpoint;
            kept += 1;
        }
    }
    endpoints.truncate(kept);
}
