//! Links between buses.

ghost use Rattle.std.specs.Prelude.{◌↔◌, IsTrue, All};
ghost use Rattle.flow_guess.specs.Links.{IsLink};

/// A branch by the places of its buses, with its reactance in a unit that all links of a network share.
#[derive(Clone, Copy, Debug)]
pub struct Link {
    pub from: usize,
    pub to: usize,
    pub reactance: i128,
}

/// Whether a link is between buses, of which there are so many, with a reactance above 0.
pub fn is_link(buses: usize, link: &Link) -> bool
    ensures { IsTrue result ↔ IsLink buses link.now }
{
    link.from < buses && link.to < buses && link.reactance > 0
}

/// Whether all of them are.
pub fn are_links(buses: usize, links: &[Link]) -> bool
    ensures { IsTrue result ↔ All (IsLink buses) links.now }
{
    links.iter().all(|link| is_link(buses, link))
}
