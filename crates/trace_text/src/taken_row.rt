// The rows that are taken, read field by field.
ghost use Rattle.std.specs.Prelude.{◌≡◌, true, false, length, MatchOption};
ghost use Rattle.csv.specs.Records.{fields_of};
ghost use Rattle.clos_topology.specs.Limits.{network_of};
ghost use Rattle.trace_text.specs.Standing.{MeetsFate, ReadsKind, ReadsPacket, net_or_fault};
ghost use Rattle.trace_text.specs.Faults.{is_fate};
ghost use Rattle.trace_text.specs.Rows.{may_have, has_version, version_of_boot};
ghost use Rattle.trace_text.specs.Stage.{takes_kind, takes_rounds};
ghost use Rattle.trace_text.specs.declared.kind.Kind.TheVariants as kind;

use crate::fields::{field, is_hex, number_at, way_at};
use crate::kind::Kind;
use crate::{Command, Fault};
use clos_topology::{Net, NetRefused};
use csv::ByteRecord;
use loss_world::Fate;

/// A packet is held for 1 to this many rounds.
const MOST_HELD: u32 = 100;

/// The versions of the protocol are 1 to this.
const MOST_VERSION: u32 = 2;

/// A packet has at most 2,048 bytes, each of two digits.
const MOST_DIGITS: usize = 4_096;

/// A row of a kind that is taken.
#[derive(Clone, Copy, Debug, PartialEq, Eq)]
pub enum TakenRow<'a> {
    Net(Net),
    Ask {
        round: u32,
        src: u32,
        dst: u32,
        slots: u32,
    },
    Meets {
        round: u32,
        endpoint: u32,
        up: bool,
        fate: Fate,
    },
    Boot {
        round: u32,
        endpoint: u32,
        version: u8,
    },
    // The packet is hexadecimal.
    Raw {
        round: u32,
        packet: &'a [u8],
    },
    // So is this.
    Put {
        endpoint: u32,
        packet: &'a [u8],
    },
    End {
        rounds: u32,
    },
}

impl<'a> TakenRow<'a> {
    /// The row of this kind, or why its fields tell none: NotHere, Fields or Number, and Range for a net, a hold, a
    /// version, a packet and rounds that the command does not take.
    #[tactic(auto, unfolding(crate::specs::Faults::read_kind))]
    pub fn read(command: Command, kind: Kind, fields: &'a ByteRecord) -> Result<TakenRow<'a>, Fault>
        ensures { ReadsKind command kind (fields_of fields.now) result }
    {
        if !command.takes(kind) {
            return Err(Fault::NotHere);
        }
        if !kind.may_have(fields.len()) {
            return Err(Fault::Fields);
        }
        match kind {
            Kind::Net => read_net(fields),
            Kind::Ask => read_ask(fields),
            Kind::Lose => read_fate(fields, Fate::Lose),
            Kind::Twice => read_fate(fields, Fate::Twice),
            Kind::Hold => read_hold(fields),
            Kind::Boot => read_boot(fields),
            Kind::Raw => read_raw(fields),
            Kind::Put => read_put(fields),
            Kind::End => read_end(command, fields),
        }
    }
}

#[tactic(auto, unfolding(crate::specs::Faults::read_kind, crate::specs::Faults::checked))]
fn read_net<'a>(fields: &'a ByteRecord) -> Result<TakenRow<'a>, Fault>
    requires { length (fields_of fields.now) ≡ 4 }
    ensures { (command : Command) → ReadsKind command kind.Net (fields_of fields.now) result }
{
    let racks = number_at(fields, 1).ok_or(Fault::Number)?;
    let hosts = number_at(fields, 2).ok_or(Fault::Number)?;
    let cores = number_at(fields, 3).ok_or(Fault::Number)?;
    Ok(TakenRow::Net(net_of(racks, hosts, cores)?))
}

// The net of three numbers, or why there is none.
fn net_of(racks: u32, hosts: u32, cores: u32) -> Result<Net, Fault>
    ensures { result ≡ net_or_fault (network_of racks hosts cores) }
{
    let (Ok(racks), Ok(hosts), Ok(cores)) = (
        u16::try_from(racks),
        u16::try_from(hosts),
        u16::try_from(cores),
    ) else {
        return Err(Fault::Range);
    };
    match Net::new(racks, hosts, cores) {
        Ok(net) => Ok(net),
        Err(NetRefused::Range) => Err(Fault::Range),
    }
}

#[tactic(auto, unfolding(crate::specs::Faults::read_kind))]
fn read_ask<'a>(fields: &'a ByteRecord) -> Result<TakenRow<'a>, Fault>
    requires { length (fields_of fields.now) ≡ 5 }
    ensures { (command : Command) → takes_kind command kind.Ask ≡ true → ReadsKind command kind.Ask (fields_of fields.now) result }
{
    let round = number_at(fields, 1).ok_or(Fault::Number)?;
    let src = number_at(fields, 2).ok_or(Fault::Number)?;
    let dst = number_at(fields, 3).ok_or(Fault::Number)?;
    let slots = number_at(fields, 4).ok_or(Fault::Number)?;
    Ok(TakenRow::Ask {
        round,
        src,
        dst,
        slots,
    })
}

#[tactic(auto, unfolding(crate::specs::Faults::read_kind))]
fn read_end<'a>(command: Command, fields: &'a ByteRecord) -> Result<TakenRow<'a>, Fault>
    requires { length (fields_of fields.now) ≡ 2 }
    ensures { takes_kind command kind.End ≡ true → ReadsKind command kind.End (fields_of fields.now) result }
{
    let rounds = number_at(fields, 1).ok_or(Fault::Number)?;
    if !command.takes_rounds(rounds) {
        return Err(Fault::Range);
    }
    Ok(TakenRow::End { rounds })
}

// A row whose packet is lost or comes twice.
fn read_fate<'a>(fields: &'a ByteRecord, fate: Fate) -> Result<TakenRow<'a>, Fault>
    requires { is_fate fate ≡ true }
    ensures { MeetsFate (fields_of fields.now) fate result }
{
    let round = number_at(fields, 1).ok_or(Fault::Number)?;
    let endpoint = number_at(fields, 2).ok_or(Fault::Number)?;
    let up = way_at(fields, 3).ok_or(Fault::Number)?;
    Ok(TakenRow::Meets {
        round,
        endpoint,
        up,
        fate,
    })
}

#[tactic(auto, unfolding(crate::specs::Faults::read_kind, crate::specs::Faults::checked))]
fn read_hold<'a>(fields: &'a ByteRecord) -> Result<TakenRow<'a>, Fault>
    requires { length (fields_of fields.now) ≡ 5 }
    ensures { (command : Command) → takes_kind command kind.Hold ≡ true → ReadsKind command kind.Hold (fields_of fields.now) result }
{
    let round = number_at(fields, 1).ok_or(Fault::Number)?;
    let endpoint = number_at(fields, 2).ok_or(Fault::Number)?;
    let up = way_at(fields, 3).ok_or(Fault::Number)?;
    let rounds = number_at(fields, 4).ok_or(Fault::Number)?;
    if !(1..=MOST_HELD).contains(&rounds) {
        return Err(Fault::Range);
    }
    Ok(TakenRow::Meets {
        round,
        endpoint,
        up,
        fate: Fate::Hold(rounds as u8),
    })
}

#[tactic(auto, unfolding(crate::specs::Faults::read_kind, crate::specs::Faults::checked))]
fn read_boot<'a>(fields: &'a ByteRecord) -> Result<TakenRow<'a>, Fault>
    requires { may_have kind.Boot (length (fields_of fields.now)) ≡ true }
    ensures { (command : Command) → takes_kind command kind.Boot ≡ true → ReadsKind command kind.Boot (fields_of fields.now) result }
{
    let round = number_at(fields, 1).ok_or(Fault::Number)?;
    let endpoint = number_at(fields, 2).ok_or(Fault::Number)?;
    let version = version_in(fields).ok_or(Fault::Number)?;
    if !(1..=MOST_VERSION).contains(&version) {
        return Err(Fault::Range);
    }
    Ok(TakenRow::Boot {
        round,
        endpoint,
        version: version as u8,
    })
}

// The version of a boot, which is 1 where no field tells it.
fn version_in(fields: &ByteRecord) -> Option<u32>
    ensures { MatchOption result (has_version (fields_of fields.now) ≡ false) (λ version. (has_version (fields_of fields.now) ≡ true) × (version ≡ version_of_boot (fields_of fields.now))) }
{
    if fields.len() == 3 {
        return Some(1);
    }
    number_at(fields, 3)
}

#[tactic(auto, unfolding(crate::specs::Faults::read_kind, crate::specs::Faults::checked))]
fn read_raw<'a>(fields: &'a ByteRecord) -> Result<TakenRow<'a>, Fault>
    requires { length (fields_of fields.now) ≡ 3 }
    ensures { (command : Command) → takes_kind command kind.Raw ≡ true → ReadsKind command kind.Raw (fields_of fields.now) result }
{
    let round = number_at(fields, 1).ok_or(Fault::Number)?;
    let packet = packet_in(fields)?;
    Ok(TakenRow::Raw { round, packet })
}

#[tactic(auto, unfolding(crate::specs::Faults::read_kind, crate::specs::Faults::checked))]
fn read_put<'a>(fields: &'a ByteRecord) -> Result<TakenRow<'a>, Fault>
    requires { length (fields_of fields.now) ≡ 3 }
    ensures { (command : Command) → takes_kind command kind.Put ≡ true → ReadsKind command kind.Put (fields_of fields.now) result }
{
    let endpoint = number_at(fields, 1).ok_or(Fault::Number)?;
    let packet = packet_in(fields)?;
    Ok(TakenRow::Put { endpoint, packet })
}

// The packet that the third field writes in hexadecimal, or why there is none.
fn packet_in(fields: &ByteRecord) -> Result<&[u8], Fault>
    ensures { ReadsPacket (fields_of fields.now) result }
{
    let packet = field(fields, 2);
    if !is_hex(packet) {
        return Err(Fault::Number);
    }
    if packet.len() > MOST_DIGITS {
        return Err(Fault::Range);
    }
    Ok(packet)
}
