ghost use Rattle.std.specs.Prelude.{IfOk};
ghost use Rattle.bosh_release_order.specs.Graph.{IsGraph};
ghost use Rattle.bosh_release_order.specs.Search.{IsAnswered};

use crate::check::shown;
use crate::number::numbers_of;
use crate::order::{Order, searched};
use bosh_base::Seq;
use std::alloc::{AllocError, Global};

/// The order of places, each of which needs those that are listed for it; or the first place that needs itself, at once
/// or by others. It takes one walk over the graph, which gives numbers to the places, and a walk that checks what these
/// show. Only where they were no good would each place be searched from.
pub fn order_of(alloc: Global, graph: &[Seq<usize>]) -> Result<Order, AllocError>
    requires { IsGraph graph.now }
    ensures { IfOk result (IsAnswered graph.now) }
{
    let numbers = numbers_of(alloc, graph)?;
    match shown(alloc, graph, &numbers)? {
        Some(order) => Ok(order),
        None => searched(alloc, graph),
    }
}
