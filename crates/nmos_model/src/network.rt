// The network of a drawing whose nets and channels are known.

ghost use Rattle.std.specs.Prelude.{◌≡◌, ℕ, ℤ, Any, Option, IfOk, IfErr, OnOk, map};
ghost use Rattle.geom.specs.declared.layer.Layer.{Layer};
ghost use Rattle.nmos_model.specs.declared.channel.Channel.{Channel};
ghost use Rattle.geom.specs.Rows.{Among};
ghost use Rattle.rx_text.specs.declared.pad_name.Role.TheVariants.{Vdd};
ghost use Rattle.switch_net.specs.Validity.{HasRole};
ghost use Rattle.nmos_model.specs.Pads.{AreNamed, AreSound};
ghost use Rattle.nmos_model.specs.Devices.{IsNear, OnNets};
ghost use Rattle.nmos_model.specs.Networks.{Connects};
ghost use Rattle.nmos_model.specs.Sites.{site_net};
ghost use Rattle.nmos_model.specs.Unsound.{AreBelow, IsUnsoundBy};

use crate::channel::Channel;
use crate::devices::devices_of;
use crate::pads::pads_of;
use crate::refusal::ReadChipFault;
use crate::sites::Site;
use geom::{Label, Layer};
use rx_text::{NoMemory, Role};
use std::alloc::Global;
use switch_net::{Network, Pad};

/// Numbers for the nets of a drawing.
pub trait NetMap {
    // the net of a square in a layer
    ghost net: { Self → Layer → ℤ → ℤ → Option ℕ };

    /// The net of the square in this layer, if it conducts there.
    fn net_at(&self, layer: Layer, x: i64, y: i64) -> Option<u32>
        ensures { result ≡ net self.now layer x y };
}

/// Numbers for the nets of a drawing, which are asked of many squares at once.
pub trait SiteNets {
    // the net of a square in a layer
    ghost net: { Self → Layer → ℤ → ℤ → Option ℕ };

    /// The net of each of the squares in its layer, if it conducts there.
    ///
    /// # Errors
    ///
    /// `NoMemory` where an allocation was refused.
    fn nets_at(&self, alloc: Global, sites: &[Site]) -> Result<Vec<Option<u32>>, NoMemory>
        ensures { IfOk result (λ found. found.items ≡ map (site_net (net self.now)) sites.now) };
}

/// The net of the square in its layer, if it conducts there.
fn net_at<N: NetMap>(nets: &N, site: &Site) -> Option<u32>
    ensures { result ≡ site_net (N.net nets.now) site.now }
{
    nets.net_at(site.layer, site.x, site.y)
}

/// The nets of a drawing, asked of one square after the other.
#[derive(Drop)]
struct OneByOne<'a, N: NetMap> {
    nets: &'a N,
}

impl<'a, N: NetMap> SiteNets for OneByOne<'a, N> {
    ghost net = { λ each. N.net each.nets.now };

    fn nets_at(&self, alloc: Global, sites: &[Site]) -> Result<Vec<Option<u32>>, NoMemory>
        ensures { IfOk result (λ found. found.items ≡ map (site_net (N.net self.now.nets.now)) sites.now) }
    {
        let mut found = Vec::new(alloc);
        for site in sites {
            found.push(net_at(self.nets, site))?;
        }
        Ok(found)
    }
}

/// The network of a drawing, from its nets, of which there are `count`, its channels and its labels: a pad for each name, in the
/// order of their first labels, and a device for each channel, in order. Channels lie within 2^40 of the origin, and their gates and
/// terminals are on nets. Takes n log n steps in the labels.
///
/// # Errors
///
/// `Fault` with the first label on no net (`X4`), else the first that disagrees with an earlier one (`X5`), else a pad that is
/// missing (`X6`), else the first channel of a depletion device that is no load (`X3`); `NoMemory` where an allocation was refused.
pub fn network_of<N: NetMap>(
    alloc: Global,
    count: u32,
    nets: &N,
    channels: &[Channel],
    labels: &[Label],
) -> Result<Network, ReadChipFault>
    requires below { AreBelow count (N.net nets.now) }
    requires near { (c : Channel) → Among channels.now c → IsNear c }
    requires on_nets { (c : Channel) → Among channels.now c → OnNets (N.net nets.now) c }
    ensures named { OnOk result (AreNamed labels.now) }
    ensures sound { OnOk result (AreSound (N.net nets.now) labels.now) }
    ensures network { IfOk result (Connects count (N.net nets.now) channels.now labels.now) }
    ensures fault { IfErr result (IsUnsoundBy (N.net nets.now) channels.now labels.now) }
{
    network_by_sites(alloc, count, &OneByOne { nets }, channels, labels)
}

/// The network of a drawing, as `network_of` gives it, from nets that are asked of many squares at once: of those of all labels, and
/// of the gates and the terminals of all channels. Takes n log n steps in the labels, and the time of those questions.
///
/// # Errors
///
/// As those of `network_of`.
pub fn network_by_sites<N: SiteNets>(
    alloc: Global,
    count: u32,
    nets: &N,
    channels: &[Channel],
    labels: &[Label],
) -> Result<Network, ReadChipFault>
    requires below { AreBelow count (N.net nets.now) }
    requires near { (c : Channel) → Among channels.now c → IsNear c }
    requires on_nets { (c : Channel) → Among channels.now c → OnNets (N.net nets.now) c }
    ensures named { OnOk result (AreNamed labels.now) }
    ensures sound { OnOk result (AreSound (N.net nets.now) labels.now) }
    ensures network { IfOk result (Connects count (N.net nets.now) channels.now labels.now) }
    ensures fault { IfErr result (IsUnsoundBy (N.net nets.now) channels.now labels.now) }
{
    let pads = pads_of(alloc, nets, labels)?;
    let vdd = supply_of(&pads);
    let devices = devices_of(alloc, nets, channels, vdd)?;
    Ok(Network::from_parts(count, pads, devices))
}

/// The net of the first pad of the supply.
fn supply_of(pads: &[Pad]) -> u32
    requires { HasRole pads.now Vdd }
    ensures { Any (λ pad. (pad.name.role ≡ Vdd) × (pad.net.0 ≡ result)) pads.now }
{
    pads.iter()
        .find(|pad| pad.name.role == Role::Vdd)
        .unwrap()
        .net
        .0
}
