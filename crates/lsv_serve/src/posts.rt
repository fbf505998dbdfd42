//! The ports of a server as endpoints.

ghost use Rattle.std.specs.Prelude.{◌≡◌, ◌≤◌, ◌<◌, ◌+◌, ◌++◌, ◌∷◌, [], ℕ, Some, map, length, slice_get, vec_capacity, vec_len, IfErr, IfOk};
ghost use Rattle.lsv_endpoint.specs.Ports.{IsUnopened, view_by};
ghost use Rattle.lsv_serve.specs.InnerServe.{ArePosts, IsSeated};

use lsv_endpoint::WorkerEndpoint;
use lsv_port::Port;
use lsv_reactor::Endpoint;
use std::alloc::Global;

/// Puts a value at the end of a vector that has room for it.
fn put<T: Drop>(values: &mut Vec<T>, value: T)
    requires { vec_len values.old < vec_capacity values.old }
    ensures items { values.new.items ≡ values.old.items ++ value ∷ [] }
    ensures room { vec_capacity values.old ≤ vec_capacity values.new }
{
    let Ok(()) = values.push(value) else {
        unreachable!();
    };
}

/// Makes an endpoint of this number of a port, whose jobs go to this many lanes. If memory runs out for it, or ran out for one
/// before, the port is left.
fn seat<P: Port + Drop>(
    alloc: Global,
    number: u32,
    lanes: u32,
    port: P,
    posts: &mut Vec<WorkerEndpoint<P>>,
    left: &mut Vec<P>,
)
    requires lanes { (1 ≤ lanes) × (lanes ≤ 8) }
    requires idle { P.tells → IsUnopened (P.state port) }
    requires posts_room { vec_len posts.old < vec_capacity posts.old }
    requires left_room { vec_len left.old < vec_capacity left.old }
    ensures seated { IsSeated ⟦<WorkerEndpoint<P> as Endpoint>⟧.number ⟦<WorkerEndpoint<P> as Endpoint>⟧.lanes ⟦<WorkerEndpoint<P> as Endpoint>⟧.made_by ⟦<WorkerEndpoint<P> as Endpoint>⟧.view (view_by P.state P.ledger) number lanes port posts.old.items posts.new.items left.old.items left.new.items }
    ensures posts_room { vec_capacity posts.old ≤ vec_capacity posts.new }
    ensures left_room { vec_capacity left.old ≤ vec_capacity left.new }
{
    if left.is_empty() {
        match WorkerEndpoint::new(alloc, number, lanes, port) {
            Ok(post) => put(posts, post),
            Err(port) => put(left, port),
        }
        return;
    }
    put(left, port);
}

/// Ports, and others after them, in a vector that has room for all.
fn joined<P: Port + Drop>(front: Vec<P>, back: Vec<P>) -> Vec<P>
    requires { length front.items + length back.items ≤ vec_capacity front }
    ensures { result.items ≡ front.items ++ back.items }
{
    let mut ports = front;
    for port in back {
        put(&mut ports, port);
    }
    ports
}

/// An endpoint for each port, in their order, whose jobs go to this many lanes; and the room that was given. Out of memory the
/// ports are given back, in their order.
pub(crate) fn posts_of<P: Port + Drop>(
    alloc: Global,
    lanes: u32,
    ports: Vec<P>,
    room: Vec<P>,
) -> Result<(Vec<WorkerEndpoint<P>>, Vec<P>), Vec<P>>
    requires lanes { (1 ≤ lanes) × (lanes ≤ 8) }
    requires few { length ports.items ≤ 64 }
    requires idle { P.tells → (i : ℕ) (port : P) → slice_get ports.items i ≡ Some port → IsUnopened (P.state port) }
    requires empty { vec_len room ≡ 0 }
    requires room { length ports.items ≤ vec_capacity room }
    ensures made { IfOk result (λ r. ArePosts ⟦<WorkerEndpoint<P> as Endpoint>⟧.number ⟦<WorkerEndpoint<P> as Endpoint>⟧.lanes ⟦<WorkerEndpoint<P> as Endpoint>⟧.made_by ⟦<WorkerEndpoint<P> as Endpoint>⟧.view lanes (map (view_by P.state P.ledger) ports.items) r.0.items) }
    ensures room { IfOk result (λ r. r.1 ≡ room) }
    ensures back { IfErr result (λ given. map (view_by P.state P.ledger) given.items ≡ map (view_by P.state P.ledger) ports.items) }
{
    let Ok(mut posts) = Vec::with_capacity(alloc, ports.len()) else {
        return Err(ports);
    };
    let Ok(mut left) = Vec::with_capacity(alloc, ports.len()) else {
        return Err(ports);
    };
    let mut number: u32 = 0;
    for port in ports {
        seat(alloc, number, lanes, port, &mut posts, &mut left);
        number += 1;
    }
    if left.is_empty() {
        return Ok((posts, room));
    }
    Err(joined(ports_of(posts, room), left))
}

/// The ports of these endpoints, in their order, in a vector that has room for them.
pub(crate) fn ports_of<P: Port + Drop>(posts: Vec<WorkerEndpoint<P>>, room: Vec<P>) -> Vec<P>
    requires empty { vec_len room ≡ 0 }
    requires room { length posts.items ≤ vec_capacity room }
    ensures ports { map (view_by P.state P.ledger) result.items ≡ map ⟦<WorkerEndpoint<P> as Endpoint>⟧.view posts.items }
    ensures room { vec_capacity room ≤ vec_capacity result }
{
    let mut ports = room;
    for post in posts {
        put(&mut ports, post.into_port());
    }
    ports
}
