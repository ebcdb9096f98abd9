ghost use Rattle.std.specs.Prelude.{◌≡◌, ◌≤◌, length, IfOk};
ghost use Rattle.sipl_records.specs.declared.record.Key.{Key};
ghost use Rattle.sipl_records.specs.Sets.{set_of};
ghost use Rattle.sipl_plans.specs.Plan.{plan};
ghost use Rattle.sipl_plans.specs.Servers.{target_count};

use crate::answer::Answer;
use crate::layout::draw;
use crate::route::route;
use sipl_choice::Abilities;
use sipl_outages::{Board, Held};
use sipl_records::Record;
use sipl_srv::Draws;
use sipl_uri::Question;
use std::alloc::{AllocError, Global};

/// The answer to a question from all records: the targets, in the order in which they are tried,
/// without the endpoints that the board holds or with these last, or the reason that there are none
/// (RFC 3263, 4). There are at most 2,048 targets: 32 servers of 64 addresses. Each of at most 32
/// SRV records takes one of the draws.
///
/// Linear in the records for each look-up of a record set. There are at most 80,648 look-ups: for
/// the NAPTR records of the domain, the SRV records over 3 transports, and the IPv4 and IPv6
/// addresses of 32 servers, each over up to 8 aliases (RFC 1034, 3.6.2) and, at a name without
/// records of its own, over up to 127 ancestors and a wildcard (RFC 4592, 3.3.1).
pub fn plan_of(
    alloc: Global,
    records: &[Record],
    board: &Board,
    question: &Question,
    abilities: &Abilities,
    draws: &Draws,
    held: Held,
) -> Result<Answer, AllocError>
    requires small_sets { (key : Key) → length (set_of records.now key) ≤ 32 }
    ensures plan { IfOk result
        (λ answer. answer
        ≡ plan (set_of records.now) board.now.holds question.now abilities.now draws.now held) }
    ensures few { IfOk result (λ answer. target_count answer ≤ 2048) }
{
    let layout = route(alloc, records, question, abilities)?;
    draw(alloc, &layout, draws, board, held)
}
