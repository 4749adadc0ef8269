ghost use Rattle.std.specs.Prelude.{◌≡◌, ◌<◌, ◌≤◌, ◌*◌, IsTrue, Result, Ok, Err};
ghost use Rattle.greedy_rules.specs.Limits.{rack_of};
ghost use Rattle.clos_topology.specs.Network.{Network, endpoints_of};
ghost use Rattle.clos_topology.specs.Limits.{network_of, is_size, IsNetwork};
ghost use Rattle.clos_topology.specs.RackFactor.{IsRackFactor};

use std::marker::Model;

/// Racks, hosts in each rack, and core switches are 1 to this many.
const MOST: u16 = 64;

/// A network has at most this many endpoints.
const MOST_ENDPOINTS: u16 = 256;

/// By how much a product with a rack factor is divided.
const WHOLE: u32 = 65_536;

/// Why three numbers are no network.
#[derive(Clone, Copy, Debug, PartialEq, Eq)]
pub enum NetRefused {
    Range,
}

/// A network of racks; endpoints are numbered from 0, rack by rack.
#[derive(Clone, Copy, Debug, PartialEq, Eq)]
pub struct Net {
    racks: u16,
    hosts: u16,
    cores: u16,
}

impl Model for Net {
    ghost use Rattle.clos_topology.specs.Network.{Network};
    ghost use Rattle.clos_topology.specs.Limits.{IsNetwork};

    ghost Value = { Network };

    ghost view = { λ n. record { racks = n.racks; hosts = n.hosts; cores = n.cores } };

    ghost invariant = { λ n. IsNetwork (record { racks = n.racks; hosts = n.hosts; cores = n.cores }) };

    ghost inverse = { λ v. record { racks = v.racks; hosts = v.hosts; cores = v.cores } };
}

impl Net {
    /// The network of so many racks, hosts in each, and cores. Range where one of them is outside 1 to 64 or there are
    /// more than 256 endpoints.
    pub fn new(racks: u16, hosts: u16, cores: u16) -> Result<Net, NetRefused>
        ensures { result ≡ network_of racks hosts cores }
    {
        if !is_size(racks) || !is_size(hosts) || !is_size(cores) || racks * hosts > MOST_ENDPOINTS {
            return Err(NetRefused::Range);
        }
        Ok(Net {
            racks,
            hosts,
            cores,
        })
    }

    pub fn racks(&self) -> u16
        ensures number { result ≡ self.now.racks }
        ensures limits { IsNetwork self.now }
    {
        self.racks
    }

    /// How many hosts each rack has.
    pub fn hosts(&self) -> u16
        ensures number { result ≡ self.now.hosts }
        ensures limits { IsNetwork self.now }
    {
        self.hosts
    }

    /// How many core switches there are.
    pub fn cores(&self) -> u16
        ensures number { result ≡ self.now.cores }
        ensures limits { IsNetwork self.now }
    {
        self.cores
    }

    pub fn endpoints(&self) -> u16
        ensures number { result ≡ endpoints_of self.now }
        ensures limits { IsNetwork self.now }
    {
        self.racks * self.hosts
    }

    /// The rack that an endpoint stands in.
    pub fn rack_of(&self, endpoint: u16) -> u16
        requires { endpoint < endpoints_of self.now }
        ensures rack { result ≡ rack_of self.now.hosts endpoint }
        ensures within { result < self.now.racks }
    {
        endpoint / self.hosts
    }

    /// A factor by which `rack_by` finds racks without a division.
    pub(crate) fn rack_factor(&self) -> u32
        ensures { IsRackFactor self.now.hosts result }
    {
        WHOLE / u32::from(self.hosts) + 1
    }

    /// The rack that an endpoint stands in, by the network's factor.
    pub(crate) fn rack_by(&self, factor: u32, endpoint: u16) -> u16
        requires factor { IsRackFactor self.now.hosts factor }
        requires endpoint { endpoint < endpoints_of self.now }
        ensures { result ≡ rack_of self.now.hosts endpoint }
    {
        let _hosts = self.hosts();
        (factor * u32::from(endpoint) / WHOLE) as u16
    }
}

fn is_size(number: u16) -> bool
    ensures { result ≡ is_size number }
{
    1 <= number && number <= MOST
}
