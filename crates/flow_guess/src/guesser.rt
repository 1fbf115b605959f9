//! A network whose flows are told by guesses.

ghost use Rattle.std.specs.Prelude.{◌≡◌, ◌<◌, ◌≤◌, length, All, IfOk};
ghost use Rattle.flow_guess.specs.Links.{IsLink, grid_network};
ghost use Rattle.flow_guess.specs.Told.{AreNearest};

use crate::bounds::Transfer;
use crate::elimination::{Elimination, eliminate};
use crate::links::Link;
use crate::refining::guess_of;
use crate::scale::{part_of, parts_of, reach_of_all, scale_of, ten_to};
use crate::told::all_told;
use plain_list::{List, Memory};
use std::alloc::Global;
use std::marker::Model;

/// A network of links, ready for guesses.
#[derive(Drop, Debug)]
pub struct Guesser {
    buses: usize,
    reference: usize,
    links: List<Link>,
    /// A divisor of all reactances, and all of them together by it.
    scale: i128,
    reach: i128,
    elimination: Elimination,
}

impl Model for Guesser {
    ghost use Rattle.std.specs.Prelude.{◌≡◌, pos, ◌<ℤ◌, All, int_rem};
    ghost use Rattle.flow_guess.specs.Links.{Grid, IsLink};

    ghost Value = { Grid };

    ghost view = { λ guesser. record { buses = guesser.buses; reference = guesser.reference; links = guesser.links } };

    ghost invariant = { λ guesser. All (IsLink guesser.buses) guesser.links × (pos 0 <ℤ guesser.scale) × All (λ link. int_rem link.reactance guesser.scale ≡ pos 0) guesser.links };
}

/// A list of the same links.
fn copied(alloc: Global, links: &[Link]) -> Result<List<Link>, Memory>
    ensures { IfOk result (λ list. list ≡ links.now) }
{
    let mut list = List::new(alloc);
    for link in links {
        list.push(*link)?;
    }
    Ok(list)
}

impl Guesser {
    /// Takes in a network, whose reference balances what is put in elsewhere.
    pub fn new(
        alloc: Global,
        buses: usize,
        reference: usize,
        links: &[Link],
    ) -> Result<Guesser, Memory>
        requires { All (IsLink buses) links.now }
        ensures { IfOk result (λ guesser. guesser ≡ record { buses = buses; reference = reference; links = links.now }) }
    {
        let scale = scale_of(links);
        let elimination = eliminate(alloc, buses, reference, links, scale)?;
        let reach = reach_of_all(links, scale);
        let links = copied(alloc, links)?;
        Ok(Guesser {
            buses,
            reference,
            links,
            scale,
            reach,
            elimination,
        })
    }

    /// By link, the nearest number of units, of which 10^places are 1, of what it carries of 1 that goes from the source to the sink;
    /// nothing where the guess is not close enough to tell, or the links do not join all buses.
    pub fn carried(
        &self,
        alloc: Global,
        source: usize,
        sink: usize,
        places: u8,
    ) -> Result<List<Option<i64>>, Memory>
        requires { places ≤ 9 }
        ensures count { IfOk result (λ told. length told ≡ length self.now.links) }
        ensures nearest { IfOk result (λ told. AreNearest (grid_network self.now) self.now.reference source sink places self.now.links told) }
    {
        let units = ten_to(places);
        let part = part_of(units, self.reach);
        let transfer = Transfer {
            source,
            sink,
            parts: parts_of(part, units),
        };
        let links = self.links.slice();
        let guess = guess_of(
            alloc,
            self.buses,
            self.reference,
            links,
            self.scale,
            &self.elimination,
            &transfer,
        )?;
        all_told(alloc, links, &guess, self.reference, &transfer, part)
    }
}
