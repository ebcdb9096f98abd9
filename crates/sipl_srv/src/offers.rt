ghost use Rattle.std.specs.Prelude.{◌≡◌, ◌≢◌, IfOk, OnErr};
ghost use Rattle.sipl_srv.specs.Offers.{offer_of};

use crate::pick::{Offer, Pick};
use sipl_records::{Data, Sequence};
use std::alloc::{AllocError, Global};

/// What a set of SRV data offers. Data of other kinds do not count. Linear in the set, and only a
/// pick allocates.
pub fn offer(alloc: Global, set: &[Data]) -> Result<Offer, AllocError>
    ensures offer { IfOk result (λ offer. offer ≡ offer_of set.now) }
    ensures memory_nothing { OnErr result (offer_of set.now ≢ Offer.Nothing) }
    ensures memory_closed { OnErr result (offer_of set.now ≢ Offer.Closed) }
{
    let mut has_service = false;
    let mut picks = Vec::new(alloc);
    for value in set {
        let Data::Service {
            priority,
            weight,
            port,
            target,
        } = value
        else {
            continue;
        };
        has_service = true;
        if !target.is_root() {
            picks.push(Pick {
                priority: *priority,
                weight: *weight,
                port: *port,
                target: target.dup(alloc)?,
            })?;
        }
    }
    Ok(if !has_service {
        Offer::Nothing
    } else if picks.is_empty() {
        Offer::Closed
    } else {
        Offer::Picks(Sequence::from_vec(picks))
    })
}
