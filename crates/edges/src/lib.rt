// Step B, "Edges, in this order", over the chip in the bytes of one array: the five steps of document 01.
#![tactic(auto)]

ghost use Rattle.std.specs.Prelude.{◌≡◌, ◌&&◌};
ghost use Rattle.rules.specs.Seen.{rst_seen, req_seen, mismatched};
ghost use Rattle.image.specs.Image.{image_of, state_at, IsImage};
ghost use Rattle.edges.specs.From.{req_rises_from, edges_from, applied_from};
ghost use Rattle.edges.specs.Tests.{inbound_bad};
ghost use Rattle.edges.specs.Room.{Room};

use crate::edges::Edges;
use crate::last::Before;
use image::bus::{io_seen, mismatched, req_seen, rst_seen};
use image::layout::{Image, QUIET};

mod after;
mod edges;
mod found;
mod kept;
pub mod last;
pub mod since;
mod single;

// What step B of the next event asks of this one.
fn last_seen(m: &Image) -> Before
    ensures rst_value { result.rst ≡ rst_seen (state_at m.now) }
    ensures req_value { result.req ≡ req_seen (state_at m.now) }
    ensures mismatched_value { result.mismatched ≡ mismatched (state_at m.now) }
{
    Before {
        rst: rst_seen(m),
        req: req_seen(m),
        mismatched: mismatched(m),
    }
}

// The edges between the end of the last event and now, after A.
fn edges_of(m: &Image, was: Before, ticks: u32) -> Edges
    requires { IsImage m.now }
    ensures { result ≡ edges_from was.rst was.req (state_at m.now) ticks }
{
    let reset = found::rst_rises(m, was.rst);
    let rises = found::req_rises(m, was.req);
    let bad = found::parity_bad(m, rises);
    let req = found::synchronous_req(m, rises);
    let beyond = found::beyond_limit(m, req);
    let late = found::late_byte(m, req & !beyond);
    let quiet = found::quiet_after(m, reset, ticks);
    Edges {
        reqfalls: was.req & !req_seen(m),
        rstrises: reset,
        reqrises: rises,
        paritybad: bad,
        beyond,
        within: req & !beyond,
        stored: req & !beyond & io_seen(m),
        late,
        free: (8 <= quiet) & !(8 <= m[QUIET]),
        quiet,
    }
}

// The chip after B. The byte is read before the registers change, the phase is judged after.
fn applied_in(m: &mut Image, g: Edges, was: Before)
    requires image { IsImage m.old }
    requires room { Room g (state_at m.old).transfer }
    ensures { m.new ≡ image_of (applied_from g was.mismatched (state_at m.old)) }
{
    let byte = after::byte_seen(m, g.stored);
    after::path_in(m, g, byte);
    after::registers_in(m, g);
    let seen = mismatched(m);
    after::status_in(m, g, seen & !was.mismatched);
    m[QUIET] = g.quiet;
    after::freed_in(m, g.free);
}

// The rare edges: all are found, then applied.
fn all_in(m: &mut Image, was: Before, ticks: u32) -> bool
    requires { IsImage m.old }
    ensures value { result ≡ (edges_from was.rst was.req (state_at m.old) ticks).beyond }
    ensures m_after { m.new ≡ image_of (applied_from (edges_from was.rst was.req (state_at m.old) ticks) was.mismatched (state_at m.old)) }
{
    let g = edges_of(m, was, ticks);
    applied_in(m, g, was);
    g.beyond
}

// B on an image: the edges found and applied, the frequent ones by themselves; whether a REQ went beyond the limit. bad tells
// of a parity error at a REQ that rises.
fn edges_in(m: &mut Image, was: Before, bad: bool, ticks: u32) -> bool
    requires image { IsImage m.old }
    requires bad_value { bad ≡ (req_rises_from was.req (state_at m.old) && inbound_bad (state_at m.old)) }
    ensures value { result ≡ (edges_from was.rst was.req (state_at m.old) ticks).beyond }
    ensures m_after { m.new ≡ image_of (applied_from (edges_from was.rst was.req (state_at m.old) ticks) was.mismatched (state_at m.old)) }
{
    let quiet = found::quiet_after(m, false, ticks);
    let free = (8 <= quiet) & !(8 <= m[QUIET]);
    // One after the other: a single test for the three made a line event a tenth slower.
    if found::rst_rises(m, was.rst) {
        return all_in(m, was, ticks);
    }
    if free {
        return all_in(m, was, ticks);
    }
    if bad {
        return all_in(m, was, ticks);
    }
    m[QUIET] = quiet;
    single::phase_in(m, was.mismatched);
    single::req_in(m, was.req)
}
