//! The links of a chain.
ghost use Rattle.std.specs.Prelude.{◌≡◌, ◌+◌, ◌^◌, ◌<◌};
ghost use Rattle.entries.specs.Places.{get};
ghost use Rattle.entries.specs.Linked.{pick as picked, IsOn, Unlinks, Admits, Links};

use crate::entry::{Chain, Charged};
use crate::link::Link;
use crate::places::Places;

/// One link where there is a neighbour, and another where there is none.
fn pick(neighbour: Link, there: Link, otherwise: Link) -> Link
    ensures { result ≡ picked neighbour there otherwise }
{
    match neighbour.get() {
        None => otherwise,
        Some(_) => there,
    }
}

/// Takes a place out of its chain. It keeps its entry.
pub fn unlink(places: &mut Places, chain: &mut Chain, place: usize)
    requires { IsOn (get places.old) chain.old place }
    ensures unlinked { Unlinks (get places.old) (get places.new) chain.old chain.new place }
    ensures fits { chain.new.len + 1 < 2 ^ 64 }
    ensures bytes { chain.new.bytes ≡ chain.old.bytes }
{
    let entry = places.at(place);
    let newer = entry.newer;
    let older = entry.older;
    places.set_older(newer, older);
    places.set_newer(older, newer);
    chain.newest = pick(newer, chain.newest, older);
    chain.oldest = pick(older, chain.oldest, newer);
    chain.len -= 1;
}

/// Puts a place in front of a chain.
pub fn link_front(places: &mut Places, chain: &mut Chain, place: usize, digest: Charged<usize>)
    requires free { Admits (get places.old) chain.old place }
    requires fits { chain.old.len + 1 < 2 ^ 64 }
    requires word { place + 2 < 2 ^ 32 }
    ensures linked { Links (get places.old) (get places.new) chain.old chain.new place digest }
    ensures bytes { chain.new.bytes ≡ chain.old.bytes }
{
    let link = Link::to(place);
    places.set_newest(place, digest, chain.newest);
    places.set_newer(chain.newest, link);
    chain.oldest = pick(chain.oldest, chain.oldest, link);
    chain.newest = link;
    chain.len += 1;
}
