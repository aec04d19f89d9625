// The nets of channels' gates and terminals.

ghost use Rattle.std.specs.Prelude.{◌≡◌, map, IfOk};
ghost use Rattle.nmos_model.specs.declared.channel.Channel.{Channel};
ghost use Rattle.geom.specs.Rows.{Among};
ghost use Rattle.nmos_model.specs.Devices.{IsNear, OnNets};
ghost use Rattle.nmos_model.specs.Lists.{Matched};
ghost use Rattle.nmos_model.specs.Sites.{HasEnds, first_site, gate_site, second_site};

use crate::channel::Channel;
use crate::network::SiteNets;
use crate::sites::{Site, first_site, gate_site, second_site};
use rx_text::NoMemory;
use std::alloc::Global;

/// The nets of a channel's gate and of its terminals: that above the channel or to its left, and that below it or to its right.
#[derive(Clone, Copy, Debug, PartialEq, Eq)]
pub(crate) struct Ends {
    pub gate: u32,
    pub first: u32,
    pub second: u32,
}

/// The sites of channels' gates and terminals, each list in the order of the channels.
#[derive(Drop)]
pub(crate) struct EndSites {
    gates: Vec<Site>,
    firsts: Vec<Site>,
    seconds: Vec<Site>,
}

/// The nets of each channel's gate and terminals, in order.
pub(crate) fn ends_of<N: SiteNets>(
    alloc: Global,
    nets: &N,
    channels: &[Channel],
) -> Result<Vec<Ends>, NoMemory>
    requires near { (c : Channel) → Among channels.now c → IsNear c }
    requires on_nets { (c : Channel) → Among channels.now c → OnNets (N.net nets.now) c }
    ensures { IfOk result (λ ends. Matched (HasEnds (N.net nets.now)) channels.now ends.items) }
{
    let sites = sites_of(alloc, channels)?;
    let gates = nets.nets_at(alloc, &sites.gates)?;
    let firsts = nets.nets_at(alloc, &sites.firsts)?;
    let seconds = nets.nets_at(alloc, &sites.seconds)?;
    let mut ends = Vec::new(alloc);
    for at in 0..channels.len() {
        ends.push(Ends {
            gate: gates[at].unwrap(),
            first: firsts[at].unwrap(),
            second: seconds[at].unwrap(),
        })?;
    }
    Ok(ends)
}

/// The sites of the channels' gates and terminals.
fn sites_of(alloc: Global, channels: &[Channel]) -> Result<EndSites, NoMemory>
    requires { (c : Channel) → Among channels.now c → IsNear c }
    ensures gates { IfOk result (λ sites. sites.gates.items ≡ map gate_site channels.now) }
    ensures firsts { IfOk result (λ sites. sites.firsts.items ≡ map first_site channels.now) }
    ensures seconds { IfOk result (λ sites. sites.seconds.items ≡ map second_site channels.now) }
{
    let mut gates = Vec::new(alloc);
    let mut firsts = Vec::new(alloc);
    let mut seconds = Vec::new(alloc);
    for channel in channels {
        gates.push(gate_site(channel))?;
        firsts.push(first_site(channel))?;
        seconds.push(second_site(channel))?;
    }
    Ok(EndSites {
        gates,
        firsts,
        seconds,
    })
}
