//! The nodes that roots reach, in the order of a walk over a queue.
ghost use Rattle.std.specs.Prelude.{◌<◌, length, IfOk, All, Contains};
ghost use Rattle.mars_reach.specs.Order.{IsReach};
ghost use Rattle.mars_reach.specs.Part.{IsClosed};

use crate::order::Order;
use mars_base::NoMemory;
use mars_tree::Graph;
use std::alloc::Global;

/// The nodes that roots reach, breadth first from the roots. Linear in the roots and in the kids of what is reached,
/// whatever the size of the graph. The error is out of memory alone.
pub fn reached(alloc: Global, graph: &Graph, roots: &[usize]) -> Result<Order, NoMemory>
    requires { All (λ root. root < length graph.now) roots.now }
    ensures reach { IfOk result (λ order. IsReach graph.now roots.now order) }
    ensures roots_in { IfOk result (λ order. All (Contains order) roots.now) }
    ensures closed { IfOk result (λ order. IsClosed graph.now order) }
{
    let _count = graph.len();
    let mut order = Order::new(alloc);
    order.meet_all(roots)?;
    let mut next = 0;
    while next < order.len() {
        order.meet_all(graph.kids(order.get(next)))?;
        next += 1;
    }
    Ok(order)
}
